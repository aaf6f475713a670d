ghost use Rattle.sample_contents.specs.Fields.{again, chain, four, inline, one_leaf, pair, recno_leaf, set, text};
ghost use Rattle.sample_contents.specs.Masters.{btree_beside_a_hash, gone_name, holds, master, master_above, master_of_two_leaves, value_on_7};
ghost use Rattle.sample_contents.specs.Named.{names};
ghost use Rattle.sample_graphs.specs.Named.{fault};
ghost use Rattle.sample_graphs.specs.of_format.Terms.{faults_of, overwritten};
ghost use Rattle.std.specs.Prelude.{◌≡◌, ◌+◌, [], ◌∷◌};

/// Each metadata page above page 0 is named once. A master without pairs is sound where there is no such page.
pub fn sound()
    ensures two { faults_of (master (names "a" 2 ∷ names "b" 4 ∷ [])) ≡ [] }
    ensures turned { faults_of (master (names "a" 4 ∷ names "b" 2 ∷ [])) ≡ [] }
    ensures leaves { faults_of (master_of_two_leaves (names "a" 6 ∷ []) (names "b" 4 ∷ [])) ≡ [] }
    ensures no_pairs { faults_of (one_leaf 0x20 []) ≡ [] }
{}

/// The four bytes may stand in a chain.
pub fn chains()
    ensures number { faults_of (master_above (value_on_7 (0 ∷ 0 ∷ 0 ∷ []) (4 ∷ [])) (names "a" 2 ∷ pair (text "b") (chain 7 4) ∷ [])) ≡ [] }
    ensures name { faults_of (master_above (value_on_7 (98 ∷ []) (99 ∷ [])) (names "a" 2 ∷ pair (chain 7 2) (inline (0 ∷ 0 ∷ 0 ∷ 4 ∷ [])) ∷ [])) ≡ [] }
    ensures three_bytes { faults_of (master_above (value_on_7 (0 ∷ 0 ∷ []) (4 ∷ [])) (names "a" 2 ∷ pair (text "b") (chain 7 3) ∷ [])) ≡ fault 7 1 2
        ∷ fault 7 4 1 ∷ [] }
{}

/// A deleted pair names nothing, breaks no row, and its name may come again.
pub fn deleted_pairs()
    ensures target { faults_of (master (names "a" 2 ∷ names "b" 4 ∷ gone_name "c" 9 ∷ [])) ≡ [] }
    ensures twice { faults_of (master (names "a" 2 ∷ names "b" 4 ∷ gone_name "c" 4 ∷ [])) ≡ [] }
    ensures unnamed { faults_of (master (names "a" 2 ∷ gone_name "b" 4 ∷ [])) ≡ fault 7 4 1 ∷ [] }
    ensures name { faults_of (master (names "a" 2 ∷ gone_name "b" 4 ∷ names "b" 4 ∷ [])) ≡ fault 8 1 3 ∷ [] }
{}

/// Unnamed: a metadata page that no pair names, and each one above page 0 where page 0 is no master.
pub fn unnamed()
    ensures hash { faults_of (master (names "a" 2 ∷ [])) ≡ fault 7 4 1 ∷ [] }
    ensures btree { faults_of (master (names "b" 4 ∷ [])) ≡ fault 7 2 1 ∷ [] }
    ensures no_pairs { faults_of (master []) ≡ fault 7 2 1 ∷ fault 7 4 1 ∷ [] }
    ensures no_master { faults_of (overwritten (master (names "a" 2 ∷ names "b" 4 ∷ [])) 48 (0 ∷ [])) ≡ fault 7 2 1 ∷ fault 7 4 1 ∷ [] }
    ensures beside_a_hash { faults_of btree_beside_a_hash ≡ fault 7 3 1 ∷ [] }
{}

/// EntrySize: data that aren't four bytes, and a set, whatever it holds.
pub fn sizes()
    ensures three { faults_of (master (names "a" 2 ∷ names "b" 4 ∷ holds "c" (0 ∷ 0 ∷ 4 ∷ []) ∷ [])) ≡ fault 7 1 2 ∷ [] }
    ensures five { faults_of (master (names "a" 2 ∷ names "b" 4 ∷ holds "c" (0 ∷ 0 ∷ 0 ∷ 4 ∷ 0 ∷ []) ∷ [])) ≡ fault 7 1 2 ∷ [] }
    ensures none { faults_of (master (names "a" 2 ∷ holds "b" [] ∷ [])) ≡ fault 7 1 2 ∷ fault 7 4 1 ∷ [] }
    ensures set { faults_of (master_above (recno_leaf 7 0 0 (inline (0 ∷ 0 ∷ 0 ∷ 4 ∷ []) ∷ []) ∷ []) (names "a" 2 ∷ pair (text "b") (set 7) ∷ [])) ≡ fault 7 1 2
        ∷ fault 7 4 1 ∷ [] }
{}

/// EntryTarget: a page that has no metadata, or isn't there, and page 0. The high byte comes first.
pub fn targets()
    ensures low_byte_first { faults_of (master (names "a" 2 ∷ holds "b" (four 4) ∷ [])) ≡ fault 7 1 3 ∷ fault 7 4 1 ∷ [] }
    ensures page_0 { faults_of (master (names "a" 2 ∷ names "b" 4 ∷ names "c" 0 ∷ [])) ≡ fault 7 1 3 ∷ [] }
    ensures leaf { faults_of (master (names "a" 2 ∷ names "b" 4 ∷ names "c" 3 ∷ [])) ≡ fault 7 1 3 ∷ [] }
    ensures bucket { faults_of (master (names "a" 2 ∷ names "b" 4 ∷ names "c" 6 ∷ [])) ≡ fault 7 1 3 ∷ [] }
    ensures beyond { faults_of (master (names "a" 2 ∷ names "b" 4 ∷ names "c" 7 ∷ [])) ≡ fault 7 1 3 ∷ [] }
{}

/// NameTwice: a key that comes again, or that two pairs share, at the leaf of the later one.
pub fn names_twice()
    ensures equal { faults_of (master (names "a" 2 ∷ names "a" 4 ∷ [])) ≡ fault 7 1 4 ∷ [] }
    ensures shared { faults_of (master (names "a" 2 ∷ again (inline (0 ∷ 0 ∷ 0 ∷ 4 ∷ [])) ∷ [])) ≡ fault 7 1 4 ∷ [] }
    ensures apart { faults_of (master_of_two_leaves (names "a" 4 ∷ []) (names "a" 6 ∷ [])) ≡ fault 7 3 4 ∷ [] }
{}

/// MetaTwice: a metadata page that more than one pair names.
pub fn pages_twice()
    ensures in_place_of_another { faults_of (master (names "a" 2 ∷ names "b" 2 ∷ [])) ≡ fault 7 2 5 ∷ fault 7 4 1 ∷ [] }
    ensures besides { faults_of (master (names "a" 2 ∷ names "b" 4 ∷ names "c" 4 ∷ [])) ≡ fault 7 4 5 ∷ [] }
    ensures thrice { faults_of (master (names "a" 2 ∷ names "b" 4 ∷ names "c" 4 ∷ names "d" 4 ∷ [])) ≡ fault 7 4 5 ∷ [] }
    ensures apart { faults_of (master_of_two_leaves (names "a" 4 ∷ []) (names "b" 4 ∷ [])) ≡ fault 7 4 5 ∷ fault 7 6 1 ∷ [] }
{}

/// Several rows, at one page and at others; a wrong link of stage 6 comes before all of them.
pub fn many()
    ensures rows { faults_of (master (names "a" 2 ∷ names "a" 2 ∷ holds "b" [] ∷ names "c" 0 ∷ [])) ≡ fault 7 1 2 ∷ fault 7 1 3 ∷ fault 7 1 4 ∷ fault 7 2 5
        ∷ fault 7 4 1 ∷ [] }
    ensures leaves { faults_of (master_of_two_leaves (names "a" 0 ∷ []) (holds "b" [] ∷ names "c" 6 ∷ [])) ≡ fault 7 2 3 ∷ fault 7 3 2 ∷ fault 7 4 1 ∷ [] }
    ensures link { faults_of (overwritten (master []) (512 + 12) (3 ∷ [])) ≡ fault 6 1 3 ∷ [] }
{}
