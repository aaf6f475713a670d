ghost use Rattle.sample_contents.specs.Fields.{chain, inline, live, one_leaf, pair, recno_leaf, set, text};
ghost use Rattle.sample_contents.specs.Judged.{under};
ghost use Rattle.sample_contents.specs.Masters.{btree_fields, gone_name, hash_fields, holds, master, master_above, nameless, queue_fields, the_btree, the_hash};
ghost use Rattle.sample_contents.specs.Masters.{value_on_7};
ghost use Rattle.sample_contents.specs.Named.{names, two_databases};
ghost use Rattle.sample_contents.specs.Queues.{second_of_three};
ghost use Rattle.sample_contents.specs.Records.{first_and_third};
ghost use Rattle.sample_contents.specs.Tables.{buckets, hash_live, set_in_a_bucket};
ghost use Rattle.sample_graphs.specs.of_format.Terms.{databases, file_of, place_of};
ghost use Rattle.sample_graphs.specs.of_sample_pages.OnePair.{one_pair};
ghost use Rattle.std.specs.Prelude.{◌≡◌, codes, None, Some, [], ◌∷◌};

/// Those that a master names, in the order of its list; a deleted pair names none.
pub fn with_names()
    ensures two { databases (file_of (master (names "a" 2 ∷ names "b" 4 ∷ []))) ≡ the_btree "a" ∷ the_hash "b" ∷ [] }
    ensures turned { databases (file_of (master (names "a" 4 ∷ names "b" 2 ∷ []))) ≡ the_hash "a" ∷ the_btree "b" ∷ [] }
    ensures deleted { databases (file_of (master (names "a" 2 ∷ gone_name "b" 4 ∷ names "c" 4 ∷ []))) ≡ the_btree "a" ∷ the_hash "c" ∷ [] }
    ensures no_pairs { databases (file_of (one_leaf 0x20 [])) ≡ [] }
{}

/// Names and numbers in chains.
pub fn chains()
    ensures number { databases (file_of (master_above (value_on_7 (0 ∷ 0 ∷ 0 ∷ []) (4 ∷ [])) (names "a" 2 ∷ pair (text "b") (chain 7 4) ∷ []))) ≡ the_btree "a"
        ∷ the_hash "b" ∷ [] }
    ensures name { databases (file_of (master_above (value_on_7 (98 ∷ []) (99 ∷ [])) (names "a" 2 ∷ pair (chain 7 2) (inline (0 ∷ 0 ∷ 0 ∷ 4 ∷ [])) ∷ [])))
        ≡ the_btree "a" ∷ the_hash "bc" ∷ [] }
{}

/// In a file that breaks the rules of masters: a pair that names no metadata gives no database, and page 0 isn't left out.
pub fn not_sound()
    ensures size { databases (file_of (master (names "a" 2 ∷ holds "b" (0 ∷ 0 ∷ 4 ∷ []) ∷ []))) ≡ the_btree "a" ∷ [] }
    ensures leaf { databases (file_of (master (names "a" 3 ∷ names "b" 4 ∷ []))) ≡ the_hash "b" ∷ [] }
    ensures set { databases (file_of (master_above (recno_leaf 7 0 0 (inline (0 ∷ 0 ∷ 0 ∷ 4 ∷ []) ∷ []) ∷ []) (names "a" 2 ∷ pair (text "b") (set 7) ∷ [])))
        ≡ the_btree "a" ∷ [] }
    ensures twice { databases (file_of (master (names "a" 2 ∷ names "a" 4 ∷ []))) ≡ the_btree "a" ∷ the_hash "a" ∷ [] }
{}

/// A file without a master has one, which has no name.
pub fn without_names()
    ensures btree { databases (file_of one_pair) ≡ nameless (btree_fields 1) ∷ [] }
    ensures hash { databases (file_of (buckets 0 [] [])) ≡ nameless (hash_fields 1) ∷ [] }
    ensures queue { databases (file_of second_of_three) ≡ nameless (queue_fields 2 4 4 60) ∷ [] }
{}

/// The place of a name among them, and of none.
pub fn places()
    ensures first { place_of (Some (codes "a")) (databases (file_of (two_databases [] []))) ≡ Some 0 }
    ensures second { place_of (Some (codes "b")) (databases (file_of (two_databases [] []))) ≡ Some 1 }
    ensures other { place_of (Some (codes "ab")) (databases (file_of (two_databases [] []))) ≡ None }
    ensures no_name { place_of None (databases (file_of (two_databases [] []))) ≡ None }
    ensures alone { place_of None (databases (file_of one_pair)) ≡ Some 0 }
    ensures name_alone { place_of (Some (codes "a")) (databases (file_of one_pair)) ≡ None }
{}

/// Bytes as the key of a record say its number in one to ten digits; other bytes are under no record.
pub fn numbers()
    ensures number { under first_and_third 0 "3" ≡ codes "c" ∷ [] }
    ensures zeros { under first_and_third 0 "0000000003" ≡ codes "c" ∷ [] }
    ensures eleven_digits { under first_and_third 0 "00000000003" ≡ [] }
    ensures deleted { under first_and_third 0 "2" ≡ [] }
    ensures beyond { under first_and_third 0 "4" ≡ [] }
    ensures letter { under first_and_third 0 "x" ≡ [] }
    ensures sign { under first_and_third 0 "+3" ≡ [] }
    ensures nothing { under first_and_third 0 "" ≡ [] }
    ensures queue { under second_of_three 0 "2" ≡ codes "abcd" ∷ [] }
    ensures not_valid { under second_of_three 0 "3" ≡ [] }
{}

/// For btrees and hashes they are the key itself.
pub fn bytes()
    ensures btree { under (one_leaf 0 (live "3" ∷ [])) 0 "3" ≡ codes "1" ∷ [] }
    ensures spelled_otherwise { under (one_leaf 0 (live "3" ∷ [])) 0 "03" ≡ [] }
    ensures hash { under set_in_a_bucket 0 "b" ≡ codes "2" ∷ codes "1" ∷ codes "2" ∷ [] }
    ensures named { under (two_databases (live "c" ∷ []) (hash_live "d" ∷ [])) 4 "d" ≡ codes "1" ∷ [] }
    ensures elsewhere { under (two_databases (live "c" ∷ []) (hash_live "d" ∷ [])) 2 "d" ≡ [] }
{}
