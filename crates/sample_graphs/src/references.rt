ghost use Rattle.sample_pages.specs.of_format.Terms.{faults_of};
ghost use Rattle.sample_graphs.specs.Named.{fault};
ghost use Rattle.sample_graphs.specs.References.{reference_out_of_range, reference_out_of_range_many, reference_wrong_back, reference_wrong_back_many};
ghost use Rattle.sample_graphs.specs.References.{reference_wrong_kind, reference_wrong_kind_many, reference_wrong_level_many};
ghost use Rattle.sample_pages.specs.Formed.{formed_internal_little};
ghost use Rattle.std.specs.Prelude.{◌≡◌, [], ◌∷◌};

/// A target that isn't there.
pub fn out_of_range()
    ensures out_of_range { faults_of reference_out_of_range ≡ fault 3 4 1 ∷ [] }
    ensures out_of_range_many { faults_of reference_out_of_range_many ≡ fault 3 3 1 ∷ fault 3 3 4 ∷ [] }
{}

/// A target of another type.
pub fn wrong_kind()
    ensures wrong_kind { faults_of reference_wrong_kind ≡ fault 3 3 2 ∷ [] }
    ensures wrong_kind_many { faults_of reference_wrong_kind_many ≡ fault 3 0 2 ∷ fault 3 1 2 ∷ [] }
{}

/// A target at another level.
pub fn wrong_level()
    ensures wrong_level { faults_of formed_internal_little ≡ fault 3 5 3 ∷ [] }
    ensures wrong_level_many { faults_of reference_wrong_level_many ≡ fault 3 3 3 ∷ fault 3 4 3 ∷ [] }
{}

/// A target with another previous page.
pub fn wrong_back()
    ensures wrong_back { faults_of reference_wrong_back ≡ fault 3 0 4 ∷ [] }
    ensures wrong_back_many { faults_of reference_wrong_back_many ≡ fault 3 2 4 ∷ fault 3 3 2 ∷ [] }
{}
