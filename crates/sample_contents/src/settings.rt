ghost use Rattle.sample_contents.specs.Judged.{settings_at};
ghost use Rattle.sample_contents.specs.Named.{two_databases};
ghost use Rattle.sample_contents.specs.Shown.{btree_line, dense_table, hash_line, padded_queue, padded_records, queue_line, recno_line, three_keys};
ghost use Rattle.std.specs.Prelude.{◌≡◌, false, true, [], ◌∷◌};

/// A btree: each flag that is shown; the flag of sorted duplicates alone counts as duplicates; the flag of a master isn't shown.
pub fn btrees()
    ensures plain { settings_at (three_keys 0) 0 ≡ btree_line false false false 3 ∷ [] }
    ensures duplicates { settings_at (three_keys 1) 0 ≡ btree_line true false false 3 ∷ [] }
    ensures sorted { settings_at (three_keys 0x41) 0 ≡ btree_line true true false 3 ∷ [] }
    ensures sorted_alone { settings_at (three_keys 0x40) 0 ≡ btree_line true true false 3 ∷ [] }
    ensures counts { settings_at (three_keys 4) 0 ≡ btree_line false false true 3 ∷ [] }
    ensures master { settings_at (three_keys 0x20) 0 ≡ btree_line false false false 3 ∷ [] }
    ensures others { settings_at (three_keys 0x18) 0 ≡ btree_line false false false 3 ∷ [] }
{}

/// A recno.
pub fn recnos()
    ensures plain { settings_at (padded_records 2 0) 0 ≡ recno_line false false 0 42 ∷ [] }
    ensures fixed { settings_at (padded_records 0x0a 7) 0 ≡ recno_line false true 7 42 ∷ [] }
    ensures renumbered { settings_at (padded_records 0x12 0) 0 ≡ recno_line true false 0 42 ∷ [] }
{}

/// A hash.
pub fn hashes()
    ensures plain { settings_at (dense_table 0) 0 ≡ hash_line false false 40 ∷ [] }
    ensures duplicates { settings_at (dense_table 1) 0 ≡ hash_line true false 40 ∷ [] }
    ensures sorted { settings_at (dense_table 5) 0 ≡ hash_line true true 40 ∷ [] }
    ensures sorted_alone { settings_at (dense_table 4) 0 ≡ hash_line true true 40 ∷ [] }
{}

/// A queue, whose records always have a fixed length.
pub fn queues()
    ensures { settings_at padded_queue 0 ≡ queue_line 4 42 ∷ [] }
{}

/// Databases that have names.
pub fn named()
    ensures btree { settings_at (two_databases [] []) 2 ≡ btree_line false false false 2 ∷ [] }
    ensures hash { settings_at (two_databases [] []) 4 ≡ hash_line false false 0 ∷ [] }
{}
