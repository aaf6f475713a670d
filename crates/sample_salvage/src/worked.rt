ghost use Rattle.sample_contents.specs.ContentFaults.{contents_count};
ghost use Rattle.sample_contents.specs.of_sample_pages.Formed.{formed_hash_big, formed_sets_big};
ghost use Rattle.sample_contents.specs.Duplicates.{set_on_two_leaves};
ghost use Rattle.sample_contents.specs.Fields.{text};
ghost use Rattle.sample_contents.specs.of_sample_graphs.Worked.{child_named_twice, shared_chain};
ghost use Rattle.bdb_survey.specs.of_format.Terms.{overwritten};
ghost use Rattle.bdb_survey.specs.of_format.declared.kinds.Order.TheVariants.{Big, Little};
ghost use Rattle.bdb_survey.specs.Salvage.{is_whole, loose, salvaged_file, stored, whole_set};
ghost use Rattle.std.specs.Prelude.{◌≡◌, ◌+◌, ◌*◌, [], ◌∷◌, true, false, length, drop, take};

/// Both leaves of a file of which one is named by nobody.
pub fn lost_leaf()
    ensures pairs { stored (salvaged_file Little 512 child_named_twice) ≡ (97 ∷ [], 49 ∷ []) ∷ (98 ∷ [], 50 ∷ []) ∷ [] }
    ensures none { loose (salvaged_file Little 512 child_named_twice) ≡ [] }
    ensures page_alone { stored (salvaged_file Little 512 (take 512 (drop 1024 child_named_twice))) ≡ (97 ∷ [], 49 ∷ []) ∷ [] }
    ensures nothing { stored (salvaged_file Little 512 []) ≡ [] }
{}

/// A set on two leaves. Where the second doesn't name the first as the page before it, the set isn't whole.
pub fn sets()
    ensures leaves { whole_set (salvaged_file Little 512 (set_on_two_leaves (text "1" ∷ []) (text "2" ∷ []))) 2 ≡ 3 ∷ 4 ∷ [] }
    ensures pairs { stored (salvaged_file Little 512 (set_on_two_leaves (text "1" ∷ []) (text "2" ∷ []))) ≡ (97 ∷ [], 49 ∷ []) ∷ (97 ∷ [], 50 ∷ []) ∷ [] }
    ensures none { loose (salvaged_file Little 512 (set_on_two_leaves (text "1" ∷ []) (text "2" ∷ []))) ≡ [] }
    ensures broken { stored (salvaged_file Little 512 (overwritten (set_on_two_leaves (text "1" ∷ []) (text "2" ∷ [])) (4 * 512 + 12) (2 ∷ []))) ≡ [] }
    ensures loose_then { loose (salvaged_file Little 512 (overwritten (set_on_two_leaves (text "1" ∷ []) (text "2" ∷ [])) (4 * 512 + 12) (2 ∷ []))) ≡ (49 ∷ [])
        ∷ (50 ∷ []) ∷ [] }
{}

/// A chain of one page.
pub fn chains()
    ensures whole { is_whole (salvaged_file Little 512 shared_chain) 4 400 ≡ true }
    ensures longer { is_whole (salvaged_file Little 512 shared_chain) 4 401 ≡ false }
    ensures leaf { is_whole (salvaged_file Little 512 shared_chain) 2 400 ≡ false }
    ensures first { is_whole (salvaged_file Little 512 shared_chain) 0 0 ≡ false }
    ensures ring { is_whole (salvaged_file Little 512 (overwritten shared_chain (4 * 512 + 16) (4 ∷ []))) 4 400 ≡ false }
    ensures pairs { length (stored (salvaged_file Little 512 shared_chain)) ≡ 2 }
{}

/// Other files, as an independent reading counts them: sets that are recno trees, a hash table with chains
/// and a set, and records alone.
pub fn counts()
    ensures sets { length (stored (salvaged_file Big 512 formed_sets_big)) ≡ 12 }
    ensures no_loose { loose (salvaged_file Big 512 formed_sets_big) ≡ [] }
    ensures leaves { whole_set (salvaged_file Big 512 formed_sets_big) 3 ≡ 2 ∷ 1 ∷ [] }
    ensures table { length (stored (salvaged_file Big 512 formed_hash_big)) ≡ 21 }
    ensures records { length (loose (salvaged_file Little 512 contents_count)) ≡ 4 }
    ensures no_pairs { stored (salvaged_file Little 512 contents_count) ≡ [] }
{}
