ghost use Rattle.sample_contents.specs.Fields.{deleted, one_leaf, live, text};
ghost use Rattle.sample_contents.specs.Records.{counted_records, counted_records_twice, record_in_a_chain, records};
ghost use Rattle.sample_graphs.specs.Named.{fault};
ghost use Rattle.sample_graphs.specs.of_format.Terms.{faults_of};
ghost use Rattle.std.specs.Prelude.{◌≡◌, [], ◌∷◌};

/// A count is the number of entries below, deleted ones among them.
pub fn counts()
    ensures right { faults_of (counted_records 2 0 2 1 (text "a" ∷ deleted (text "") ∷ []) (text "c" ∷ [])) ≡ [] }
    ensures live_alone { faults_of (counted_records 2 0 1 1 (text "a" ∷ deleted (text "") ∷ []) (text "c" ∷ [])) ≡ fault 8 1 6 ∷ [] }
    ensures more { faults_of (counted_records 2 0 3 1 (text "a" ∷ deleted (text "") ∷ []) (text "c" ∷ [])) ≡ fault 8 1 6 ∷ [] }
    ensures second { faults_of (counted_records 2 0 2 2 (text "a" ∷ deleted (text "") ∷ []) (text "c" ∷ [])) ≡ fault 8 1 6 ∷ [] }
    ensures empty { faults_of (counted_records 2 0 0 1 [] (text "c" ∷ [])) ≡ [] }
{}

/// The counts of each internal page.
pub fn levels()
    ensures right { faults_of (counted_records_twice 2 2) ≡ [] }
    ensures outer { faults_of (counted_records_twice 1 2) ≡ fault 8 1 6 ∷ [] }
    ensures inner { faults_of (counted_records_twice 2 1) ≡ fault 8 2 6 ∷ [] }
{}

/// Where records have a fixed length, each live one has it.
pub fn lengths()
    ensures right { faults_of (records 0x0a 2 (text "ab" ∷ text "cd" ∷ [])) ≡ [] }
    ensures longer { faults_of (records 0x0a 2 (text "ab" ∷ text "abc" ∷ [])) ≡ fault 8 1 7 ∷ [] }
    ensures shorter { faults_of (records 0x0a 2 (text "a" ∷ text "cd" ∷ [])) ≡ fault 8 1 7 ∷ [] }
    ensures deleted { faults_of (records 0x0a 2 (text "ab" ∷ deleted (text "abc") ∷ deleted (text "") ∷ [])) ≡ [] }
    ensures not_fixed { faults_of (records 2 2 (text "abc" ∷ [])) ≡ [] }
{}

/// A fixed length of 0; the flag on a btree, where it means nothing.
pub fn no_length()
    ensures empty { faults_of (records 0x0a 0 (text "" ∷ [])) ≡ [] }
    ensures longer { faults_of (records 0x0a 0 (text "a" ∷ [])) ≡ fault 8 1 7 ∷ [] }
    ensures btree { faults_of (one_leaf 8 (live "a" ∷ [])) ≡ [] }
{}

/// The length of a record in a chain is that of its value, and not of its item.
pub fn chains()
    ensures value { faults_of (record_in_a_chain 5) ≡ [] }
    ensures item { faults_of (record_in_a_chain 12) ≡ fault 8 1 7 ∷ [] }
{}

/// The fault of a length stands at the leaf, that of a count above it.
pub fn leaves()
    ensures length { faults_of (counted_records 0x0a 1 1 2 (text "a" ∷ []) (text "b" ∷ text "abc" ∷ [])) ≡ fault 8 3 7 ∷ [] }
    ensures both { faults_of (counted_records 0x0a 1 1 1 (text "a" ∷ []) (text "b" ∷ text "abc" ∷ [])) ≡ fault 8 1 6 ∷ fault 8 3 7 ∷ [] }
{}
