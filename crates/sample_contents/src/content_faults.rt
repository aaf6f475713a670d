ghost use Rattle.sample_contents.specs.ContentFaults.{contents_bucket_many, contents_count, contents_duplicate_kind, contents_duplicate_order};
ghost use Rattle.sample_contents.specs.ContentFaults.{contents_duplicates, contents_duplicates_many, contents_key_order, contents_key_order_many};
ghost use Rattle.sample_contents.specs.ContentFaults.{contents_key_twice, contents_record_length, contents_separator_many};
ghost use Rattle.sample_graphs.specs.Named.{fault};
ghost use Rattle.sample_graphs.specs.of_format.Terms.{faults_of};
ghost use Rattle.std.specs.Prelude.{◌≡◌, [], ◌∷◌};

/// Rows of keys with several data.
pub fn duplicates()
    ensures duplicates { faults_of contents_duplicates ≡ fault 8 1 1 ∷ [] }
    ensures duplicates_many { faults_of contents_duplicates_many ≡ fault 8 3 1 ∷ fault 8 3 2 ∷ [] }
    ensures duplicate_kind { faults_of contents_duplicate_kind ≡ fault 8 3 2 ∷ [] }
    ensures duplicate_order { faults_of contents_duplicate_order ≡ fault 8 2 5 ∷ [] }
{}

/// Rows of keys and internal pages.
pub fn trees()
    ensures key_order { faults_of contents_key_order ≡ fault 8 3 3 ∷ [] }
    ensures key_order_many { faults_of contents_key_order_many ≡ fault 8 2 3 ∷ fault 8 2 5 ∷ [] }
    ensures separator_many { faults_of contents_separator_many ≡ fault 8 3 4 ∷ fault 8 12 3 ∷ [] }
    ensures count { faults_of contents_count ≡ fault 8 2 6 ∷ [] }
    ensures record_length { faults_of contents_record_length ≡ fault 8 1 7 ∷ [] }
{}

/// Rows of hashes.
pub fn hashes()
    ensures bucket_many { faults_of contents_bucket_many ≡ fault 8 2 8 ∷ fault 8 3 8 ∷ [] }
    ensures key_twice { faults_of contents_key_twice ≡ fault 8 2 9 ∷ [] }
{}
