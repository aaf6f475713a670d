ghost use Rattle.sample_pages.specs.of_format.Terms.{faults_of};
ghost use Rattle.sample_graphs.specs.Named.{fault};
ghost use Rattle.sample_graphs.specs.Ownership.{owner_no_owner, owner_no_owner_many, owner_too_many, owner_too_many_many, reach_unreached};
ghost use Rattle.sample_graphs.specs.Ownership.{reach_unreached_many};
ghost use Rattle.std.specs.Prelude.{◌≡◌, [], ◌∷◌};

/// Pages without an owner.
pub fn no_owner()
    ensures no_owner { faults_of owner_no_owner ≡ fault 4 1 1 ∷ [] }
    ensures no_owner_many { faults_of owner_no_owner_many ≡ fault 4 2 1 ∷ fault 4 3 2 ∷ [] }
{}

/// Pages with more owners than they may have.
pub fn too_many()
    ensures too_many { faults_of owner_too_many ≡ fault 4 3 2 ∷ [] }
    ensures too_many_many { faults_of owner_too_many_many ≡ fault 4 1 2 ∷ fault 4 3 1 ∷ [] }
{}

/// Pages that aren't reached.
pub fn unreached()
    ensures unreached { faults_of reach_unreached ≡ fault 5 2 1 ∷ [] }
    ensures unreached_many { faults_of reach_unreached_many ≡ fault 5 2 1 ∷ fault 5 3 1 ∷ [] }
{}
