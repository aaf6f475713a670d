ghost use Rattle.sample_contents.specs.Chains.{chain_of_data, chain_of_deleted_data, chain_of_hash_key, chain_of_key, chain_of_shared_key, five_bytes};
ghost use Rattle.sample_contents.specs.Duplicates.{set_and_pair, several_data, set_on_two_leaves, sorted_items, unsorted_items, with_item, with_set};
ghost use Rattle.sample_contents.specs.Fields.{chain, deleted, gone, hash_chain, hash_tree, live, one_leaf, pair, recno_leaf, set, text};
ghost use Rattle.sample_contents.specs.Judged.{entry, list_at, numbered};
ghost use Rattle.sample_contents.specs.Queues.{more_bits, over_two_pages, page_of_zeros, second_of_three};
ghost use Rattle.sample_contents.specs.Records.{counted_records, first_and_third, record_in_a_chain, records};
ghost use Rattle.sample_contents.specs.Separators.{split};
ghost use Rattle.sample_contents.specs.Tables.{empty_set_in_a_bucket, five_keys, hash_live, set_in_a_bucket, with_hash_item, zero_bucket};
ghost use Rattle.sample_graphs.specs.of_format.Terms.{BytesKey, NumberKey, faults_of, get};
ghost use Rattle.std.specs.Prelude.{◌≡◌, codes, [], ◌∷◌};

/// A btree: its live pairs, leaf by leaf.
pub fn btrees()
    ensures deleted { list_at (one_leaf 0 (live "a" ∷ gone "b" ∷ live "c" ∷ [])) 0 ≡ entry "a" "1" ∷ entry "c" "1" ∷ [] }
    ensures empty { list_at (one_leaf 0 []) 0 ≡ [] }
    ensures leaves { list_at (split "c" (live "a" ∷ gone "b" ∷ []) (gone "c" ∷ live "d" ∷ [])) 0 ≡ entry "a" "1" ∷ entry "d" "1" ∷ [] }
    ensures deleted_key { list_at (one_leaf 0 (pair (deleted (text "a")) (text "1") ∷ [])) 0 ≡ entry "a" "1" ∷ [] }
{}

/// A btree with several data for a key: pairs that share it, and sets off the page.
pub fn duplicates()
    ensures on_the_page { list_at several_data 0 ≡ entry "a" "2" ∷ entry "a" "1" ∷ entry "b" "1" ∷ [] }
    ensures sorted { list_at (with_set 0x41 (sorted_items (text "1" ∷ deleted (text "2") ∷ text "3" ∷ []))) 0 ≡ entry "a" "1" ∷ entry "a" "3" ∷ [] }
    ensures unsorted { list_at (with_set 1 (unsorted_items (text "2" ∷ text "1" ∷ []))) 0 ≡ entry "a" "2" ∷ entry "a" "1" ∷ [] }
    ensures leaves { list_at (set_on_two_leaves (text "1" ∷ []) (text "2" ∷ [])) 0 ≡ entry "a" "1" ∷ entry "a" "2" ∷ [] }
    ensures set_and_pair { list_at (set_and_pair "3") 0 ≡ entry "a" "1" ∷ entry "a" "2" ∷ entry "a" "3" ∷ [] }
    ensures deleted_set { list_at (with_item 1 (deleted (set 2)) (unsorted_items (text "1" ∷ []))) 0 ≡ [] }
    ensures empty_set { list_at (with_set 1 (unsorted_items [])) 0 ≡ [] }
{}

/// Keys and data in chains.
pub fn chains()
    ensures data { list_at (chain_of_data 5) 0 ≡ entry "a" "abcde" ∷ [] }
    ensures deleted { list_at (chain_of_deleted_data 5) 0 ≡ [] }
    ensures key { list_at (chain_of_key 5) 0 ≡ entry "abcde" "1" ∷ [] }
    ensures shared_key { list_at (chain_of_shared_key 5) 0 ≡ entry "abcde" "1" ∷ entry "abcde" "2" ∷ [] }
    ensures hash_key { list_at (chain_of_hash_key 5) 0 ≡ entry "abcde" "1" ∷ [] }
    ensures hash_data { list_at (with_hash_item 0 (hash_chain 3 5) (five_bytes 3 1)) 0 ≡ entry "a" "abcde" ∷ [] }
    ensures set { list_at (with_set 1 (recno_leaf 2 0 0 (chain 3 5 ∷ text "1" ∷ []) ∷ five_bytes 3 1)) 0 ≡ entry "a" "abcde" ∷ entry "a" "1" ∷ [] }
    ensures record { list_at (record_in_a_chain 5) 0 ≡ numbered 1 "abcde" ∷ [] }
{}

/// A recno: deleted entries keep their numbers, over all leaves.
pub fn recnos()
    ensures leaf { list_at first_and_third 0 ≡ numbered 1 "a" ∷ numbered 3 "c" ∷ [] }
    ensures leaves { list_at (counted_records 2 0 2 2 (deleted (text "a") ∷ text "b" ∷ []) (text "c" ∷ deleted (text "d") ∷ [])) 0 ≡ numbered 2 "b"
        ∷ numbered 3 "c" ∷ [] }
    ensures empty { list_at (records 2 0 []) 0 ≡ [] }
{}

/// Queues on which no row holds; no row of contents speaks of queues.
pub fn sound_queues()
    ensures one { faults_of second_of_three ≡ [] }
    ensures two_pages { faults_of over_two_pages ≡ [] }
    ensures zero_page { faults_of page_of_zeros ≡ [] }
    ensures bits { faults_of more_bits ≡ [] }
{}

/// A queue: the valid records from the first one on that are below the next one.
pub fn queues()
    ensures one { list_at second_of_three 0 ≡ numbered 2 "abcd" ∷ [] }
    ensures two_pages { list_at over_two_pages 0 ≡ numbered 60 "bbbb" ∷ numbered 61 "cccc" ∷ [] }
    ensures zero_page { list_at page_of_zeros 0 ≡ numbered 61 "cccc" ∷ [] }
    ensures bits { list_at more_bits 0 ≡ numbered 1 "aaaa" ∷ [] }
{}

/// A hash: the pairs of all buckets in the order of their keys, the data of a set as they stand; an empty set gives nothing.
pub fn hashes()
    ensures order { list_at five_keys 0 ≡ entry "a" "1" ∷ entry "ab" "1" ∷ entry "b" "1" ∷ entry "c" "1" ∷ entry "d" "1" ∷ [] }
    ensures sets { list_at set_in_a_bucket 0 ≡ entry "a" "1" ∷ entry "b" "2" ∷ entry "b" "1" ∷ entry "b" "2" ∷ [] }
    ensures tree { list_at (with_hash_item 1 (hash_tree 3) (recno_leaf 3 0 0 (text "2" ∷ deleted (text "3") ∷ text "1" ∷ []) ∷ [])) 0 ≡ entry "a" "2"
        ∷ entry "a" "1" ∷ [] }
    ensures empty_set { list_at empty_set_in_a_bucket 0 ≡ entry "b" "1" ∷ entry "c" "1" ∷ [] }
    ensures empty_tree { list_at (with_hash_item 1 (hash_tree 3) (recno_leaf 3 0 0 (deleted (text "1") ∷ []) ∷ [])) 0 ≡ [] }
    ensures zero_page { list_at (zero_bucket (hash_live "b" ∷ [])) 0 ≡ entry "b" "1" ∷ [] }
{}

/// What a list has under a key: its data in order, or none.
pub fn keys()
    ensures several { get (list_at several_data 0) (BytesKey (codes "a")) ≡ codes "2" ∷ codes "1" ∷ [] }
    ensures one { get (list_at (one_leaf 0 (live "a" ∷ live "ab" ∷ [])) 0) (BytesKey (codes "a")) ≡ codes "1" ∷ [] }
    ensures absent { get (list_at (one_leaf 0 (live "a" ∷ live "ab" ∷ [])) 0) (BytesKey (codes "b")) ≡ [] }
    ensures prefix { get (list_at (one_leaf 0 (live "ab" ∷ [])) 0) (BytesKey (codes "a")) ≡ [] }
    ensures deleted { get (list_at (one_leaf 0 (live "a" ∷ gone "b" ∷ [])) 0) (BytesKey (codes "b")) ≡ [] }
    ensures hash { get (list_at set_in_a_bucket 0) (BytesKey (codes "b")) ≡ codes "2" ∷ codes "1" ∷ codes "2" ∷ [] }
{}

/// The same of numbers; bytes name no record.
pub fn numbers()
    ensures there { get (list_at first_and_third 0) (NumberKey 3) ≡ codes "c" ∷ [] }
    ensures deleted { get (list_at first_and_third 0) (NumberKey 2) ≡ [] }
    ensures zero { get (list_at first_and_third 0) (NumberKey 0) ≡ [] }
    ensures beyond { get (list_at first_and_third 0) (NumberKey 4) ≡ [] }
    ensures bytes { get (list_at first_and_third 0) (BytesKey (codes "a")) ≡ [] }
    ensures queue { get (list_at second_of_three 0) (NumberKey 2) ≡ codes "abcd" ∷ [] }
    ensures not_valid { get (list_at second_of_three 0) (NumberKey 3) ≡ [] }
{}
