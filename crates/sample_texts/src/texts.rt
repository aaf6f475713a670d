ghost use Rattle.sample_contents.specs.Chains.{chain_of_data, chain_of_key};
ghost use Rattle.sample_contents.specs.Duplicates.{several_data, sorted_items, with_set};
ghost use Rattle.sample_contents.specs.Fields.{live, one_leaf, text};
ghost use Rattle.sample_contents.specs.Masters.{master};
ghost use Rattle.sample_contents.specs.Named.{named_file, names, two_databases};
ghost use Rattle.sample_contents.specs.Queues.{over_two_pages, second_of_three};
ghost use Rattle.sample_contents.specs.Records.{first_and_third};
ghost use Rattle.sample_contents.specs.Shown.{dense_table, padded_queue, padded_records, three_keys};
ghost use Rattle.sample_contents.specs.Tables.{buckets, five_keys, hash_live, set_in_a_bucket};
ghost use Rattle.sample_contents.specs.of_sample_pages.OnePair.{deleted, one_pair, one_pair_big};
ghost use Rattle.sample_texts.specs.Texts.{greatest_minkey, lines, section, text_of, unprinted_pair};
ghost use Rattle.std.specs.Prelude.{◌≡◌, ◌++◌, [], ◌∷◌, false, true};

/// The sample file in either order, the same with its pair deleted, and a pair of bytes that aren't printed as they are.
pub fn one_pair()
    ensures little { text_of false one_pair ≡ section "bytevalue" "btree" [] (" 61" ∷ " 62" ∷ []) }
    ensures big { text_of false one_pair_big ≡ lines ("VERSION=3" ∷ "format=bytevalue" ∷ "type=btree" ∷ "db_pagesize=512" ∷ "db_lorder=4321" ∷ "HEADER=END"
        ∷ " 61" ∷ " 62" ∷ "DATA=END" ∷ []) }
    ensures deleted { text_of false deleted ≡ section "bytevalue" "btree" [] [] }
    ensures digits { text_of false unprinted_pair ≡ section "bytevalue" "btree" [] (" 61" ∷ " 5c0a41" ∷ []) }
    ensures printed { text_of true unprinted_pair ≡ section "print" "btree" [] (" a" ∷ " \\\\\\0aA" ∷ []) }
{}

/// Each line that the header of a btree may have: sorted duplicates are duplicates, and a least number of 2 isn't shown.
pub fn btrees()
    ensures plain { text_of false (one_leaf 0 []) ≡ section "bytevalue" "btree" [] [] }
    ensures least { text_of false (three_keys 0) ≡ section "bytevalue" "btree" ("bt_minkey=3" ∷ []) [] }
    ensures greatest { text_of false greatest_minkey ≡ section "bytevalue" "btree" ("bt_minkey=4294967295" ∷ []) [] }
    ensures counts { text_of false (three_keys 4) ≡ section "bytevalue" "btree" ("bt_minkey=3" ∷ "recnum=1" ∷ []) [] }
    ensures duplicates { text_of false (three_keys 1) ≡ section "bytevalue" "btree" ("bt_minkey=3" ∷ "duplicates=1" ∷ []) [] }
    ensures sorted { text_of false (three_keys 0x41) ≡ section "bytevalue" "btree" ("bt_minkey=3" ∷ "duplicates=1" ∷ "dupsort=1" ∷ []) [] }
    ensures sorted_alone { text_of false (one_leaf 0x40 []) ≡ section "bytevalue" "btree" ("duplicates=1" ∷ "dupsort=1" ∷ []) [] }
{}

/// The pairs of a btree, with the key for each datum; values in chains.
pub fn pairs()
    ensures several { text_of true several_data ≡ section "print" "btree" ("duplicates=1" ∷ []) (" a" ∷ " 2" ∷ " a" ∷ " 1" ∷ " b" ∷ " 1" ∷ []) }
    ensures set { text_of true (with_set 0x41 (sorted_items (text "1" ∷ text "2" ∷ []))) ≡ section "print" "btree" ("duplicates=1" ∷ "dupsort=1" ∷ [])
        (" a" ∷ " 1" ∷ " a" ∷ " 2" ∷ []) }
    ensures empty { text_of false (one_leaf 0 (live "" ∷ [])) ≡ section "bytevalue" "btree" [] (" " ∷ " 31" ∷ []) }
    ensures long_datum { text_of true (chain_of_data 5) ≡ section "print" "btree" [] (" a" ∷ " abcde" ∷ []) }
    ensures long_key { text_of false (chain_of_key 5) ≡ section "bytevalue" "btree" [] (" 6162636465" ∷ " 31" ∷ []) }
{}

/// Recnos: the number of a record is spelled as the bytes of its digits; the length is shown where it's fixed and isn't 0.
pub fn recnos()
    ensures digits { text_of false first_and_third ≡ section "bytevalue" "recno" ("keys=1" ∷ []) (" 31" ∷ " 61" ∷ " 33" ∷ " 63" ∷ []) }
    ensures printed { text_of true first_and_third ≡ section "print" "recno" ("keys=1" ∷ []) (" 1" ∷ " a" ∷ " 3" ∷ " c" ∷ []) }
    ensures fixed { text_of false (padded_records 0x0a 7) ≡ section "bytevalue" "recno" ("re_len=7" ∷ "re_pad=42" ∷ "keys=1" ∷ []) [] }
    ensures no_length { text_of false (padded_records 0x0a 0) ≡ section "bytevalue" "recno" ("keys=1" ∷ []) [] }
    ensures not_fixed { text_of false (padded_records 2 7) ≡ section "bytevalue" "recno" ("keys=1" ∷ []) [] }
    ensures renumbered { text_of false (padded_records 0x12 0) ≡ section "bytevalue" "recno" ("renumber=1" ∷ "keys=1" ∷ []) [] }
{}

/// Hashes: pairs in the order of their keys.
pub fn hashes()
    ensures order { text_of true five_keys ≡ section "print" "hash" [] (" a" ∷ " 1" ∷ " ab" ∷ " 1" ∷ " b" ∷ " 1" ∷ " c" ∷ " 1" ∷ " d" ∷ " 1" ∷ []) }
    ensures set { text_of true set_in_a_bucket ≡ section "print" "hash" ("duplicates=1" ∷ []) (" a" ∷ " 1" ∷ " b" ∷ " 2" ∷ " b" ∷ " 1" ∷ " b" ∷ " 2" ∷ []) }
    ensures plain { text_of false (buckets 0 [] []) ≡ section "bytevalue" "hash" [] [] }
    ensures dense { text_of false (dense_table 5) ≡ section "bytevalue" "hash" ("duplicates=1" ∷ "dupsort=1" ∷ "h_ffactor=40" ∷ []) [] }
{}

/// Queues: the length of records and their pad byte are always shown.
pub fn queues()
    ensures one { text_of false second_of_three ≡ section "bytevalue" "queue" ("re_len=4" ∷ "re_pad=0" ∷ "keys=1" ∷ []) (" 32" ∷ " 61626364" ∷ []) }
    ensures padded { text_of false padded_queue ≡ section "bytevalue" "queue" ("re_len=4" ∷ "re_pad=42" ∷ "keys=1" ∷ []) (" 32" ∷ " 61626364" ∷ []) }
    ensures two_digits { text_of true over_two_pages ≡ section "print" "queue" ("re_len=4" ∷ "re_pad=0" ∷ "keys=1" ∷ [])
        (" 60" ∷ " bbbb" ∷ " 61" ∷ " cccc" ∷ []) }
{}

/// Databases with names, each with its section; names are always printed. A master that names nothing gives the empty text.
pub fn named()
    ensures two { text_of false (two_databases (live "c" ∷ []) (hash_live "d" ∷ []))
        ≡ lines ("VERSION=3" ∷ "format=bytevalue" ∷ "database=a" ∷ "type=btree" ∷ "db_pagesize=512" ∷ "db_lorder=1234" ∷ "HEADER=END" ∷ " 63" ∷ " 31"
        ∷ "DATA=END" ∷ "VERSION=3" ∷ "format=bytevalue" ∷ "database=b" ∷ "type=hash" ∷ "db_pagesize=512" ∷ "db_lorder=1234" ∷ "HEADER=END" ∷ " 64" ∷ " 31"
        ∷ "DATA=END" ∷ []) }
    ensures spelled { text_of false (master (names "" 4 ∷ names "a\\\n" 2 ∷ []))
        ≡ lines ("VERSION=3" ∷ "format=bytevalue" ∷ "database=" ∷ "type=hash" ∷ "db_pagesize=512" ∷ "db_lorder=1234" ∷ "HEADER=END" ∷ "DATA=END" ∷ "VERSION=3"
        ∷ "format=bytevalue" ∷ "database=a\\\\\\0a" ∷ "type=btree" ∷ "db_pagesize=512" ∷ "db_lorder=1234" ∷ "HEADER=END" ∷ "DATA=END" ∷ []) }
    ensures no_names { text_of false (one_leaf 0x20 []) ≡ [] }
{}
