ghost use Rattle.sample_contents.specs.Fields.{deleted, dup_leaf, hash_set, hash_text, hash_tree, pair, recno_leaf, text};
ghost use Rattle.sample_contents.specs.Tables.{buckets, hash_live, longer_bucket, one_bucket, three_buckets, with_hash_item, zero_bucket};
ghost use Rattle.sample_graphs.specs.Named.{fault};
ghost use Rattle.sample_graphs.specs.of_format.Terms.{faults_of};
ghost use Rattle.std.specs.Prelude.{◌≡◌, [], ◌∷◌};

/// Pairs in their buckets, in any order; and in another one.
pub fn two_buckets()
    ensures right { faults_of (buckets 0 (hash_live "d" ∷ hash_live "b" ∷ []) (hash_live "a" ∷ hash_live "c" ∷ [])) ≡ [] }
    ensures first { faults_of (buckets 0 (hash_live "b" ∷ hash_live "a" ∷ hash_live "c" ∷ []) []) ≡ fault 8 1 8 ∷ [] }
    ensures second { faults_of (buckets 0 [] (hash_live "b" ∷ [])) ≡ fault 8 2 8 ∷ [] }
    ensures both { faults_of (buckets 0 (hash_live "a" ∷ []) (hash_live "b" ∷ [])) ≡ fault 8 1 8 ∷ fault 8 2 8 ∷ [] }
    ensures next_page { faults_of (longer_bucket (hash_live "b" ∷ []) [] (hash_live "d" ∷ [])) ≡ [] }
    ensures wrong_on_next_page { faults_of (longer_bucket (hash_live "b" ∷ []) [] (hash_live "a" ∷ [])) ≡ fault 8 3 8 ∷ [] }
{}

/// Of three buckets `c`, whose hash under the high mask is 3, has bucket 1, and `b` has bucket 2.
pub fn masks()
    ensures low { faults_of (three_buckets [] (hash_live "c" ∷ []) []) ≡ [] }
    ensures low_elsewhere { faults_of (three_buckets (hash_live "c" ∷ []) [] []) ≡ fault 8 1 8 ∷ [] }
    ensures high { faults_of (three_buckets [] [] (hash_live "b" ∷ [])) ≡ [] }
    ensures high_elsewhere { faults_of (three_buckets (hash_live "b" ∷ []) [] []) ≡ fault 8 1 8 ∷ [] }
    ensures one { faults_of (one_bucket (hash_live "a" ∷ hash_live "b" ∷ [])) ≡ [] }
    ensures zero_page { faults_of (zero_bucket (hash_live "b" ∷ [])) ≡ [] }
    ensures wrong_bucket { faults_of (zero_bucket (hash_live "a" ∷ [])) ≡ fault 8 1 8 ∷ [] }
{}

/// A key twice: on one page, on two pages of a bucket, in two buckets. Buckets go before pages.
pub fn key_twice()
    ensures page { faults_of (buckets 0 (hash_live "b" ∷ hash_live "d" ∷ hash_live "b" ∷ []) []) ≡ fault 8 1 9 ∷ [] }
    ensures pages { faults_of (longer_bucket (hash_live "b" ∷ []) [] (hash_live "b" ∷ [])) ≡ fault 8 3 9 ∷ [] }
    ensures two_buckets { faults_of (buckets 0 (hash_live "b" ∷ []) (hash_live "b" ∷ [])) ≡ fault 8 2 8 ∷ fault 8 2 9 ∷ [] }
    ensures wrong_first { faults_of (buckets 0 (hash_live "a" ∷ []) (hash_live "a" ∷ [])) ≡ fault 8 1 8 ∷ fault 8 2 9 ∷ [] }
    ensures bucket_order { faults_of (longer_bucket [] (hash_live "b" ∷ []) (hash_live "b" ∷ [])) ≡ fault 8 2 8 ∷ fault 8 2 9 ∷ [] }
{}

/// Sets on the page; the flag of sorted ones alone counts as duplicates.
pub fn sets_on_the_page()
    ensures unsorted { faults_of (with_hash_item 1 (hash_set ("2" ∷ "1" ∷ [])) []) ≡ [] }
    ensures sorted { faults_of (with_hash_item 5 (hash_set ("1" ∷ "2" ∷ [])) []) ≡ [] }
    ensures sorted_alone { faults_of (with_hash_item 4 (hash_set ("1" ∷ "2" ∷ [])) []) ≡ [] }
    ensures without { faults_of (with_hash_item 0 (hash_set ("1" ∷ [])) []) ≡ fault 8 2 1 ∷ [] }
    ensures out_of_order { faults_of (with_hash_item 5 (hash_set ("2" ∷ "1" ∷ [])) []) ≡ fault 8 2 5 ∷ [] }
    ensures equal { faults_of (with_hash_item 4 (hash_set ("1" ∷ "1" ∷ [])) []) ≡ fault 8 2 5 ∷ [] }
{}

/// Sets off the page.
pub fn sets_off_the_page()
    ensures unsorted { faults_of (with_hash_item 1 (hash_tree 3) (recno_leaf 3 0 0 (text "2" ∷ text "1" ∷ []) ∷ [])) ≡ [] }
    ensures sorted { faults_of (with_hash_item 5 (hash_tree 3) (dup_leaf 3 0 0 (text "1" ∷ text "2" ∷ []) ∷ [])) ≡ [] }
    ensures wrong { faults_of (with_hash_item 1 (hash_tree 3) (dup_leaf 3 0 0 (text "1" ∷ []) ∷ [])) ≡ fault 8 2 2 ∷ [] }
    ensures other_wrong { faults_of (with_hash_item 4 (hash_tree 3) (recno_leaf 3 0 0 (text "2" ∷ text "1" ∷ []) ∷ [])) ≡ fault 8 2 2 ∷ fault 8 2 5 ∷ [] }
    ensures out_of_order { faults_of (with_hash_item 5 (hash_tree 3) (dup_leaf 3 0 0 (text "2" ∷ text "1" ∷ []) ∷ [])) ≡ fault 8 2 5 ∷ [] }
    ensures without { faults_of (with_hash_item 0 (hash_tree 3) (recno_leaf 3 0 0 (text "1" ∷ []) ∷ [])) ≡ fault 8 2 1 ∷ [] }
    ensures sorted_without { faults_of (with_hash_item 0 (hash_tree 3) (dup_leaf 3 0 0 (text "1" ∷ []) ∷ [])) ≡ fault 8 2 1 ∷ fault 8 2 2 ∷ [] }
{}

/// Sets without data, on the page and off it: they are sound, and their key counts.
pub fn empty_sets()
    ensures on_the_page { faults_of (with_hash_item 1 (hash_set []) []) ≡ [] }
    ensures sorted { faults_of (with_hash_item 5 (hash_set []) []) ≡ [] }
    ensures off_the_page { faults_of (with_hash_item 1 (hash_tree 3) (recno_leaf 3 0 0 [] ∷ [])) ≡ [] }
    ensures deleted { faults_of (with_hash_item 1 (hash_tree 3) (recno_leaf 3 0 0 (deleted (text "1") ∷ []) ∷ [])) ≡ [] }
    ensures without { faults_of (with_hash_item 0 (hash_set []) []) ≡ fault 8 2 1 ∷ [] }
    ensures twice { faults_of (buckets 1 [] (pair (hash_text "a") (hash_set []) ∷ hash_live "a" ∷ [])) ≡ fault 8 2 9 ∷ [] }
    ensures bucket { faults_of (buckets 1 (pair (hash_text "a") (hash_set []) ∷ []) []) ≡ fault 8 1 8 ∷ [] }
{}
