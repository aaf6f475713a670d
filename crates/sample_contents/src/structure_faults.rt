ghost use Rattle.sample_contents.specs.StructureFaults.{structure_chain_length, structure_leaf_kind, structure_leaf_link, structure_leaf_link_many};
ghost use Rattle.sample_graphs.specs.Named.{fault};
ghost use Rattle.sample_graphs.specs.of_format.Terms.{faults_of};
ghost use Rattle.std.specs.Prelude.{◌≡◌, [], ◌∷◌};

/// Rows of chains and trees.
pub fn chains_and_trees()
    ensures chain_length { faults_of structure_chain_length ≡ fault 6 2 1 ∷ [] }
    ensures leaf_kind { faults_of structure_leaf_kind ≡ fault 6 2 2 ∷ [] }
    ensures leaf_link { faults_of structure_leaf_link ≡ fault 6 2 3 ∷ [] }
    ensures leaf_link_many { faults_of structure_leaf_link_many ≡ fault 6 1 3 ∷ fault 6 3 3 ∷ [] }
{}
