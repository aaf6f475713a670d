ghost use Rattle.sample_contents.specs.Fields.{live};
ghost use Rattle.sample_contents.specs.Judged.{contents_at, entry, list_at};
ghost use Rattle.sample_contents.specs.Named.{two_databases};
ghost use Rattle.sample_contents.specs.Tables.{hash_live};
ghost use Rattle.sample_graphs.specs.Named.{fault};
ghost use Rattle.sample_graphs.specs.of_format.Terms.{BytesKey, faults_of};
ghost use Rattle.std.specs.Prelude.{◌≡◌, codes, [], ◌∷◌};

/// No row holds on a file with a btree and a hash that have names.
pub fn sound()
    ensures file { faults_of (two_databases (live "a" ∷ live "b" ∷ []) (hash_live "b" ∷ [])) ≡ [] }
    ensures master { contents_at (two_databases [] []) 0 ≡ [] }
    ensures btree { contents_at (two_databases (live "a" ∷ live "b" ∷ []) []) 2 ≡ [] }
    ensures hash { contents_at (two_databases [] (hash_live "b" ∷ [])) 4 ≡ [] }
{}

/// The rows of contents are those of one database, at its pages; those of the file are the rows of all its databases.
pub fn faults()
    ensures btree { contents_at (two_databases (live "b" ∷ live "a" ∷ []) (hash_live "a" ∷ [])) 2 ≡ fault 8 3 3 ∷ [] }
    ensures hash { contents_at (two_databases (live "b" ∷ live "a" ∷ []) (hash_live "a" ∷ [])) 4 ≡ fault 8 5 8 ∷ [] }
    ensures master { contents_at (two_databases (live "b" ∷ live "a" ∷ []) (hash_live "a" ∷ [])) 0 ≡ [] }
    ensures file { faults_of (two_databases (live "b" ∷ live "a" ∷ []) (hash_live "a" ∷ [])) ≡ fault 8 3 3 ∷ fault 8 5 8 ∷ [] }
    ensures btree_alone { faults_of (two_databases (live "b" ∷ live "a" ∷ []) []) ≡ fault 8 3 3 ∷ [] }
    ensures hash_alone { faults_of (two_databases [] (hash_live "a" ∷ [])) ≡ fault 8 5 8 ∷ [] }
{}

/// Each database has its list; that of the master are the names with the pages of metadata.
pub fn lists()
    ensures master { list_at (two_databases [] []) 0 ≡ (BytesKey (codes "a"), 0 ∷ 0 ∷ 0 ∷ 2 ∷ []) ∷ (BytesKey (codes "b"), 0 ∷ 0 ∷ 0 ∷ 4 ∷ []) ∷ [] }
    ensures btree { list_at (two_databases (live "c" ∷ []) (hash_live "d" ∷ [])) 2 ≡ entry "c" "1" ∷ [] }
    ensures hash { list_at (two_databases (live "c" ∷ []) (hash_live "d" ∷ [])) 4 ≡ entry "d" "1" ∷ [] }
{}
