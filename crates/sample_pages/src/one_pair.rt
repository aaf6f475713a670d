ghost use Rattle.bdb_format.specs.declared.kinds.Order.TheVariants.{Big, Little};
ghost use Rattle.bdb_format.specs.declared.kinds.Unsupported.TheVariants.{LargePage, Version};
ghost use Rattle.bdb_format.specs.declared.metadata.FileKind.TheVariants.{Btree};
ghost use Rattle.bdb_format.specs.declared.metadata.MetaFault.TheVariants.{Fault, Unsupported as LeftOut};
ghost use Rattle.sample_pages.specs.OnePair.{b_item, deleted, large_page, misnumbered, one_pair, one_pair_big, other_kind, other_version, pages_with};
ghost use Rattle.sample_pages.specs.OnePair.{past_by_one, past_end, to_end};
ghost use Rattle.sample_pages.specs.Verdicts.{abstract_pages, form_codes, head_answer};
ghost use Rattle.std.specs.Prelude.{◌≡◌, take, true, false, Ok, Err, None, Some, [], ◌∷◌};

/// The file, little-endian.
pub fn little()
    ensures head { head_answer one_pair ≡ Ok (record { order = Little; page_size = 512; kind = Btree; last = 1; pages = 2 }) }
    ensures form { form_codes one_pair ≡ Ok (None ∷ None ∷ []) }
    ensures pages { abstract_pages one_pair ≡ pages_with (b_item false) }
{}

/// The file, big-endian: the same pages.
pub fn big()
    ensures head { head_answer one_pair_big ≡ Ok (record { order = Big; page_size = 512; kind = Btree; last = 1; pages = 2 }) }
    ensures form { form_codes one_pair_big ≡ Ok (None ∷ None ∷ []) }
    ensures pages { abstract_pages one_pair_big ≡ pages_with (b_item false) }
{}

/// The beginning of the file alone.
pub fn cut()
    ensures none { head_answer [] ≡ Err (Fault 1) }
    ensures short { head_answer (take 511 one_pair) ≡ Err (Fault 1) }
    ensures half { head_answer (take 512 one_pair) ≡ Err (Fault 11) }
    ensures ragged { head_answer (take 1023 one_pair) ≡ Err (Fault 10) }
{}

/// The file with another version or page size.
pub fn unsupported()
    ensures other_version { head_answer other_version ≡ Err (LeftOut Version) }
    ensures large_page { head_answer large_page ≡ Err (LeftOut LargePage) }
{}

/// The file with another number or datum on its leaf.
pub fn changed()
    ensures misnumbered { form_codes misnumbered ≡ Ok (None ∷ Some 1 ∷ []) }
    ensures other_kind { form_codes other_kind ≡ Ok (None ∷ Some 23 ∷ []) }
    ensures past_end { form_codes past_end ≡ Ok (None ∷ Some 24 ∷ []) }
    ensures past_by_one { form_codes past_by_one ≡ Ok (None ∷ Some 24 ∷ []) }
    ensures to_end { form_codes to_end ≡ Ok (None ∷ None ∷ []) }
    ensures deleted_form { form_codes deleted ≡ Ok (None ∷ None ∷ []) }
    ensures deleted_pages { abstract_pages deleted ≡ pages_with (b_item true) }
{}
