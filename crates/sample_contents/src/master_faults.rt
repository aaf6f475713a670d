ghost use Rattle.sample_contents.specs.MasterFaults.{master_entry_size, master_entry_target, master_name_twice_many, master_page_twice_many};
ghost use Rattle.sample_contents.specs.MasterFaults.{master_unnamed_many};
ghost use Rattle.sample_graphs.specs.Named.{fault};
ghost use Rattle.sample_graphs.specs.of_format.Terms.{faults_of};
ghost use Rattle.std.specs.Prelude.{◌≡◌, [], ◌∷◌};

/// Rows of the metadata pages that a master names.
pub fn pages()
    ensures unnamed_many { faults_of master_unnamed_many ≡ fault 7 2 1 ∷ fault 7 3 3 ∷ [] }
    ensures page_twice_many { faults_of master_page_twice_many ≡ fault 7 9 5 ∷ fault 7 12 1 ∷ [] }
{}

/// Rows of the pairs of a master.
pub fn pairs()
    ensures entry_size { faults_of master_entry_size ≡ fault 7 1 2 ∷ [] }
    ensures entry_target { faults_of master_entry_target ≡ fault 7 1 3 ∷ [] }
    ensures name_twice_many { faults_of master_name_twice_many ≡ fault 7 1 2 ∷ fault 7 1 4 ∷ [] }
{}
