ghost use Rattle.bdb_format.specs.Terms.{abstract_page};
ghost use Rattle.bdb_format.specs.declared.kinds.Order.TheVariants.{Big, Little};
ghost use Rattle.bdb_format.specs.declared.metadata.FileKind.TheVariants.{Btree, Hash, Queue};
ghost use Rattle.sample_pages.specs.Formed.{btree_big_pages, formed_btree_big, formed_btree_little, formed_hash_big, formed_hash_free_big, formed_hash_little};
ghost use Rattle.sample_pages.specs.Formed.{formed_internal_little, formed_queue_big, formed_queue_little, formed_sets_big, internal_page, set_page};
ghost use Rattle.sample_pages.specs.Formed.{sets_big_page};
ghost use Rattle.sample_pages.specs.Verdicts.{abstract_pages, form_codes, head_answer, page_at};
ghost use Rattle.std.specs.Prelude.{◌≡◌, Ok, None, [], ◌∷◌};

/// What page 0 says of the file.
pub fn heads()
    ensures btree_little { head_answer formed_btree_little ≡ Ok (record { order = Little; page_size = 512; kind = Btree; last = 1; pages = 2 }) }
    ensures btree_big { head_answer formed_btree_big ≡ Ok (record { order = Big; page_size = 512; kind = Btree; last = 3; pages = 4 }) }
    ensures hash_little { head_answer formed_hash_little ≡ Ok (record { order = Little; page_size = 512; kind = Hash; last = 5; pages = 6 }) }
    ensures tail { head_answer formed_hash_free_big ≡ Ok (record { order = Big; page_size = 512; kind = Hash; last = 3; pages = 5 }) }
    ensures queue_little { head_answer formed_queue_little ≡ Ok (record { order = Little; page_size = 512; kind = Queue; last = 0; pages = 1 }) }
    ensures queue_big { head_answer formed_queue_big ≡ Ok (record { order = Big; page_size = 512; kind = Queue; last = 1; pages = 2 }) }
{}

/// No row of form holds on a page of a btree or a queue.
pub fn trees_and_queues()
    ensures btree_little { form_codes formed_btree_little ≡ Ok (None ∷ None ∷ []) }
    ensures btree_big { form_codes formed_btree_big ≡ Ok (None ∷ None ∷ None ∷ None ∷ []) }
    ensures sets_big { form_codes formed_sets_big ≡ Ok (None ∷ None ∷ None ∷ None ∷ None ∷ []) }
    ensures queue_little { form_codes formed_queue_little ≡ Ok (None ∷ []) }
    ensures queue_big { form_codes formed_queue_big ≡ Ok (None ∷ None ∷ []) }
{}

/// No row of form holds on a page of a hash.
pub fn hashes()
    ensures hash_little { form_codes formed_hash_little ≡ Ok (None ∷ None ∷ None ∷ None ∷ None ∷ None ∷ []) }
    ensures hash_big { form_codes formed_hash_big ≡ Ok (None ∷ None ∷ None ∷ None ∷ []) }
    ensures hash_free_big { form_codes formed_hash_free_big ≡ Ok (None ∷ None ∷ None ∷ None ∷ []) }
    ensures internal_little { form_codes formed_internal_little ≡ Ok (None ∷ None ∷ None ∷ None ∷ None ∷ None ∷ []) }
{}

/// Pages without the order of their bytes.
pub fn pages()
    ensures btree_big { abstract_pages formed_btree_big ≡ btree_big_pages }
    ensures recno_internal { abstract_page Big (page_at formed_sets_big 3) ≡ sets_big_page }
    ensures set { abstract_page Little (page_at formed_internal_little 2) ≡ set_page }
    ensures internal { abstract_page Little (page_at formed_internal_little 5) ≡ internal_page }
{}
