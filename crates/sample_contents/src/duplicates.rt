ghost use Rattle.sample_contents.specs.Chains.{five_bytes, leaf_with_chain};
ghost use Rattle.sample_contents.specs.Duplicates.{set_and_pair, set_on_two_leaves, sorted_items, sorted_level, under_one_key, unsorted_items, unsorted_level};
ghost use Rattle.sample_contents.specs.Duplicates.{with_item, with_set};
ghost use Rattle.sample_contents.specs.Fields.{again, chain, deleted, dup_leaf, live, one_leaf, pair, set, text};
ghost use Rattle.sample_graphs.specs.Named.{fault};
ghost use Rattle.sample_graphs.specs.of_format.Terms.{faults_of};
ghost use Rattle.std.specs.Prelude.{◌≡◌, [], ◌∷◌};

/// Three pairs that share a key, with the flags of duplicates and without; the flag of sorted ones alone counts as duplicates.
pub fn flags()
    ensures with { faults_of (under_one_key 1 (text "1") (text "2" ∷ text "3" ∷ [])) ≡ [] }
    ensures without { faults_of (under_one_key 0 (text "1") (text "2" ∷ text "3" ∷ [])) ≡ fault 8 1 1 ∷ [] }
    ensures sorted { faults_of (under_one_key 0x41 (text "1") (text "2" ∷ text "3" ∷ [])) ≡ [] }
    ensures sorted_alone { faults_of (under_one_key 0x40 (text "1") (text "2" ∷ text "3" ∷ [])) ≡ [] }
    ensures deleted { faults_of (under_one_key 0 (text "1") (deleted (text "2") ∷ [])) ≡ fault 8 1 1 ∷ [] }
{}

/// Sets off the page: a tree of types 3 and 12 where sets are sorted, of types 4 and 6 where not.
pub fn kinds()
    ensures sorted { faults_of (with_set 0x41 (sorted_items (text "1" ∷ []))) ≡ [] }
    ensures sorted_level { faults_of (with_set 0x41 sorted_level) ≡ [] }
    ensures unsorted { faults_of (with_set 1 (unsorted_items (text "1" ∷ []))) ≡ [] }
    ensures wrong { faults_of (with_set 0x41 (unsorted_items (text "1" ∷ []))) ≡ fault 8 1 2 ∷ [] }
    ensures wrong_level { faults_of (with_set 0x40 unsorted_level) ≡ fault 8 1 2 ∷ [] }
    ensures other_wrong { faults_of (with_set 1 (sorted_items (text "1" ∷ []))) ≡ fault 8 1 2 ∷ [] }
    ensures other_wrong_level { faults_of (with_set 1 sorted_level) ≡ fault 8 1 2 ∷ [] }
{}

/// Without duplicates each set is a fault, that of a deleted pair too; and a sorted one is of the wrong kind besides.
pub fn kinds_without_duplicates()
    ensures unsorted { faults_of (with_set 0 (unsorted_items (text "1" ∷ []))) ≡ fault 8 1 1 ∷ [] }
    ensures sorted { faults_of (with_set 0 (sorted_items (text "1" ∷ []))) ≡ fault 8 1 1 ∷ fault 8 1 2 ∷ [] }
    ensures sorted_level { faults_of (with_set 0 sorted_level) ≡ fault 8 1 1 ∷ fault 8 1 2 ∷ [] }
    ensures deleted { faults_of (with_item 0 (deleted (set 2)) (sorted_items (text "1" ∷ []))) ≡ fault 8 1 1 ∷ fault 8 1 2 ∷ [] }
{}

/// The data of pairs that share a key ascend where duplicates are sorted. A deleted pair gives none.
pub fn order_on_the_page()
    ensures out_of_order { faults_of (under_one_key 0x41 (text "1") (text "3" ∷ text "2" ∷ [])) ≡ fault 8 1 5 ∷ [] }
    ensures equal { faults_of (under_one_key 0x41 (text "1") (text "1" ∷ text "2" ∷ [])) ≡ fault 8 1 5 ∷ [] }
    ensures unsorted { faults_of (under_one_key 1 (text "2") (text "1" ∷ text "1" ∷ [])) ≡ [] }
    ensures other_key { faults_of (one_leaf 0x41 (pair (text "a") (text "2") ∷ pair (text "b") (text "1") ∷ [])) ≡ [] }
    ensures prefix { faults_of (under_one_key 0x41 (text "") (text "1" ∷ text "12" ∷ [])) ≡ [] }
{}

/// The same with a deleted pair between two live ones, before them, and after.
pub fn order_around_deleted_pairs()
    ensures deleted { faults_of (under_one_key 0x41 (text "1") (deleted (text "3") ∷ text "2" ∷ [])) ≡ [] }
    ensures around { faults_of (under_one_key 0x41 (text "2") (deleted (text "3") ∷ text "1" ∷ [])) ≡ fault 8 1 5 ∷ [] }
    ensures equal_around { faults_of (under_one_key 0x41 (text "1") (deleted (text "2") ∷ text "1" ∷ [])) ≡ fault 8 1 5 ∷ [] }
    ensures first { faults_of (under_one_key 0x41 (deleted (text "9")) (text "1" ∷ text "2" ∷ [])) ≡ [] }
    ensures last { faults_of (under_one_key 0x41 (text "1") (text "2" ∷ deleted (text "0") ∷ [])) ≡ [] }
{}

/// The data of a set off the page ascend, over its leaves; deleted data are left out, and so is the set of a deleted pair.
pub fn order_off_the_page()
    ensures right { faults_of (with_set 0x41 (sorted_items (text "1" ∷ text "2" ∷ []))) ≡ [] }
    ensures out_of_order { faults_of (with_set 0x41 (sorted_items (text "2" ∷ text "1" ∷ []))) ≡ fault 8 1 5 ∷ [] }
    ensures equal { faults_of (with_set 0x41 (sorted_items (text "1" ∷ text "1" ∷ []))) ≡ fault 8 1 5 ∷ [] }
    ensures deleted_datum { faults_of (with_set 0x41 (sorted_items (text "1" ∷ deleted (text "9") ∷ text "2" ∷ []))) ≡ [] }
    ensures deleted_pair { faults_of (with_item 0x41 (deleted (set 2)) (sorted_items (text "2" ∷ text "1" ∷ []))) ≡ [] }
    ensures wrong_kind { faults_of (with_set 0x41 (unsorted_items (text "2" ∷ text "1" ∷ []))) ≡ fault 8 1 2 ∷ fault 8 1 5 ∷ [] }
    ensures leaves { faults_of (set_on_two_leaves (text "1" ∷ []) (text "2" ∷ [])) ≡ [] }
    ensures over_leaves { faults_of (set_on_two_leaves (text "1" ∷ text "3" ∷ []) (text "2" ∷ [])) ≡ fault 8 1 5 ∷ [] }
{}

/// Data in a chain are compared by their bytes, which here are `abcde`.
pub fn chains()
    ensures prefix { faults_of (leaf_with_chain 0x41 1 (pair (text "a") (text "abc") ∷ again (chain 2 5) ∷ [])) ≡ [] }
    ensures above { faults_of (leaf_with_chain 0x41 1 (pair (text "a") (text "abd") ∷ again (chain 2 5) ∷ [])) ≡ fault 8 1 5 ∷ [] }
    ensures set { faults_of (with_set 0x41 (dup_leaf 2 0 0 (text "abc" ∷ chain 3 5 ∷ []) ∷ five_bytes 3 1)) ≡ [] }
    ensures set_above { faults_of (with_set 0x41 (dup_leaf 2 0 0 (text "abd" ∷ chain 3 5 ∷ []) ∷ five_bytes 3 1)) ≡ fault 8 1 5 ∷ [] }
{}

/// The data of a set and of a pair that shares its key are one run.
pub fn set_and_pair()
    ensures above { faults_of (set_and_pair "3") ≡ [] }
    ensures equal { faults_of (set_and_pair "2") ≡ fault 8 1 5 ∷ [] }
    ensures below { faults_of (set_and_pair "0") ≡ fault 8 1 5 ∷ [] }
    ensures other { faults_of (one_leaf 0x41 (live "a" ∷ again (text "2") ∷ live "b" ∷ [])) ≡ [] }
{}
