ghost use Rattle.sample_contents.specs.Fields.{dup_leaf, leaf, live, text};
ghost use Rattle.sample_contents.specs.Trees.{linked_leaf, mixed_leaves, record_leaves, set_above, set_in_a_table, three_levels, turned_leaves, two_leaves};
ghost use Rattle.sample_contents.specs.Trees.{two_sets};
ghost use Rattle.sample_graphs.specs.Named.{fault};
ghost use Rattle.sample_graphs.specs.of_format.Terms.{faults_of, overwritten};
ghost use Rattle.std.specs.Prelude.{◌≡◌, ◌+◌, [], ◌∷◌};

/// A leaf that is alone has no neighbour.
pub fn one_leaf()
    ensures right { faults_of (linked_leaf 0 0) ≡ [] }
    ensures previous { faults_of (linked_leaf 1 0) ≡ fault 6 1 3 ∷ [] }
    ensures next { faults_of (linked_leaf 0 1) ≡ fault 6 1 3 ∷ [] }
{}

/// Two leaves: each wrong link is a fault of the leaf that has it.
pub fn two_leaves()
    ensures right { faults_of (two_leaves 0 3 2 0) ≡ [] }
    ensures none { faults_of (two_leaves 0 0 0 0) ≡ fault 6 2 3 ∷ fault 6 3 3 ∷ [] }
    ensures next { faults_of (two_leaves 0 0 2 0) ≡ fault 6 2 3 ∷ [] }
    ensures previous { faults_of (two_leaves 0 3 0 0) ≡ fault 6 3 3 ∷ [] }
    ensures first_previous { faults_of (two_leaves 3 3 2 0) ≡ fault 6 2 3 ∷ [] }
    ensures last_next { faults_of (two_leaves 0 3 2 2) ≡ fault 6 3 3 ∷ [] }
{}

/// The order is that of the items above, and not of the page numbers.
pub fn turned_leaves()
    ensures right { faults_of (turned_leaves 3 0 0 2) ≡ [] }
    ensures by_number { faults_of (turned_leaves 0 3 2 0) ≡ fault 6 2 3 ∷ fault 6 3 3 ∷ [] }
{}

/// Leaves below different pages are neighbours too; the links of internal pages are ignored.
pub fn levels()
    ensures right { faults_of (three_levels 6 5) ≡ [] }
    ensures apart { faults_of (three_levels 0 0) ≡ fault 6 5 3 ∷ fault 6 6 3 ∷ [] }
    ensures ignored { faults_of (overwritten (two_leaves 0 3 2 0) (512 + 12) (9 ∷ 0 ∷ 0 ∷ 0 ∷ 9 ∷ [])) ≡ [] }
{}

/// A leaf of sorted duplicates below a root of metadata.
pub fn kinds_below_metadata()
    ensures kind { faults_of (mixed_leaves 3 2) ≡ fault 6 3 2 ∷ [] }
    ensures kind_and_link { faults_of (mixed_leaves 0 0) ≡ fault 6 2 3 ∷ fault 6 3 2 ∷ fault 6 3 3 ∷ [] }
{}

/// A leaf of pairs below the root of a set.
pub fn kinds_below_sets()
    ensures right { faults_of (set_above (dup_leaf 3 0 0 (text "1" ∷ []))) ≡ [] }
    ensures link { faults_of (set_above (dup_leaf 3 1 0 (text "1" ∷ []))) ≡ fault 6 3 3 ∷ [] }
    ensures kind { faults_of (set_above (leaf 3 0 0 (live "a" ∷ []))) ≡ fault 6 3 2 ∷ [] }
    ensures kind_and_link { faults_of (set_above (leaf 3 0 1 (live "a" ∷ []))) ≡ fault 6 3 2 ∷ fault 6 3 3 ∷ [] }
{}

/// Leaves of records, and the leaves of sets: each tree has its own ends.
pub fn other_trees()
    ensures records { faults_of (record_leaves 3 2) ≡ [] }
    ensures records_next { faults_of (record_leaves 0 2) ≡ fault 6 2 3 ∷ [] }
    ensures records_previous { faults_of (record_leaves 3 0) ≡ fault 6 3 3 ∷ [] }
    ensures sets { faults_of (two_sets 0 0) ≡ [] }
    ensures sets_linked { faults_of (two_sets 3 2) ≡ fault 6 2 3 ∷ fault 6 3 3 ∷ [] }
    ensures table { faults_of (set_in_a_table 0 0) ≡ [] }
    ensures table_linked { faults_of (set_in_a_table 0 2) ≡ fault 6 3 3 ∷ [] }
{}
