ghost use Rattle.sample_contents.specs.Chains.{leaf_with_chain};
ghost use Rattle.sample_contents.specs.Fields.{again, chain, gone, inline, live, one_leaf, pair, text};
ghost use Rattle.sample_contents.specs.Separators.{split, split_in_three};
ghost use Rattle.sample_graphs.specs.Named.{fault};
ghost use Rattle.sample_graphs.specs.of_format.Terms.{faults_of, overwritten};
ghost use Rattle.std.specs.Prelude.{◌≡◌, ◌+◌, [], ◌∷◌};

/// The keys `61` and `6100`; one key twice; an order that is of unsigned bytes; a key without bytes.
pub fn two_keys()
    ensures right { faults_of (one_leaf 0 (pair (inline (0x61 ∷ [])) (text "1") ∷ pair (inline (0x61 ∷ 0 ∷ [])) (text "2") ∷ [])) ≡ [] }
    ensures swapped { faults_of (one_leaf 0 (pair (inline (0x61 ∷ 0 ∷ [])) (text "2") ∷ pair (inline (0x61 ∷ [])) (text "1") ∷ [])) ≡ fault 8 1 3 ∷ [] }
    ensures twice { faults_of (one_leaf 0 (live "a" ∷ live "a" ∷ [])) ≡ fault 8 1 3 ∷ [] }
    ensures unsigned { faults_of (one_leaf 0 (pair (inline (0x7f ∷ [])) (text "1") ∷ pair (inline (0x80 ∷ [])) (text "2") ∷ [])) ≡ [] }
    ensures unsigned_swapped { faults_of (one_leaf 0 (pair (inline (0x80 ∷ [])) (text "2") ∷ pair (inline (0x7f ∷ [])) (text "1") ∷ [])) ≡ fault 8 1 3 ∷ [] }
    ensures empty { faults_of (one_leaf 0 (live "" ∷ live "a" ∷ [])) ≡ [] }
{}

/// Deleted pairs have their place too.
pub fn deleted_pairs()
    ensures right { faults_of (one_leaf 0 (gone "a" ∷ live "b" ∷ gone "c" ∷ [])) ≡ [] }
    ensures first { faults_of (one_leaf 0 (gone "b" ∷ live "a" ∷ [])) ≡ fault 8 1 3 ∷ [] }
    ensures second { faults_of (one_leaf 0 (live "b" ∷ gone "a" ∷ [])) ≡ fault 8 1 3 ∷ [] }
    ensures both { faults_of (one_leaf 0 (gone "b" ∷ gone "a" ∷ [])) ≡ fault 8 1 3 ∷ [] }
    ensures between { faults_of (one_leaf 0 (live "a" ∷ gone "c" ∷ live "b" ∷ [])) ≡ fault 8 1 3 ∷ [] }
{}

/// A pair that shares its key isn't compared; the next one is, and so is one with the offset of an earlier key.
pub fn shared_keys()
    ensures shared { faults_of (one_leaf 1 (live "a" ∷ again (text "2") ∷ live "b" ∷ [])) ≡ [] }
    ensures anew { faults_of (one_leaf 1 (live "a" ∷ again (text "2") ∷ live "a" ∷ [])) ≡ fault 8 1 3 ∷ [] }
    ensures earlier { faults_of (overwritten (one_leaf 1 (live "a" ∷ live "b" ∷ live "c" ∷ [])) (512 + 26 + 8) (252 ∷ 1 ∷ [])) ≡ fault 8 1 3 ∷ [] }
{}

/// Keys in chains are compared by their bytes, which here are `abcde`.
pub fn chains()
    ensures prefix { faults_of (leaf_with_chain 0 1 (live "abc" ∷ pair (chain 2 5) (text "2") ∷ [])) ≡ [] }
    ensures above { faults_of (leaf_with_chain 0 1 (live "abd" ∷ pair (chain 2 5) (text "2") ∷ [])) ≡ fault 8 1 3 ∷ [] }
    ensures before { faults_of (leaf_with_chain 0 1 (pair (chain 2 5) (text "2") ∷ live "abcdf" ∷ [])) ≡ [] }
    ensures before_a_prefix { faults_of (leaf_with_chain 0 1 (pair (chain 2 5) (text "2") ∷ live "abcd" ∷ [])) ≡ fault 8 1 3 ∷ [] }
{}

/// The fault stands at the leaf of the later pair. An empty leaf is passed over. Where keys on two leaves are out of order, the
/// separator between them is wrong too.
pub fn leaves()
    ensures right { faults_of (split "b" (live "a" ∷ []) (live "b" ∷ [])) ≡ [] }
    ensures later { faults_of (split "b" (live "a" ∷ []) (live "c" ∷ live "b" ∷ [])) ≡ fault 8 3 3 ∷ [] }
    ensures over { faults_of (split "b" (live "a" ∷ live "c" ∷ []) (live "b" ∷ [])) ≡ fault 8 1 4 ∷ fault 8 3 3 ∷ [] }
    ensures same_offset { faults_of (split "a" (live "a" ∷ []) (live "a" ∷ [])) ≡ fault 8 1 4 ∷ fault 8 3 3 ∷ [] }
    ensures empty_leaf { faults_of (split_in_three "" "c" "d" (live "b" ∷ []) [] (live "a" ∷ [])) ≡ fault 8 1 4 ∷ fault 8 4 3 ∷ [] }
{}
