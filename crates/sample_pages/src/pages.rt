ghost use Rattle.bdb_format.specs.Terms.{NoType, Zero, abstract_page};
ghost use Rattle.bdb_format.specs.declared.kinds.Order.TheVariants.{Big, Little};
ghost use Rattle.sample_pages.specs.Pages.{btree_page, btree_read, dup_leaf_page, dup_leaf_read, free_page, free_read, hash_page, hash_read, internal_page};
ghost use Rattle.sample_pages.specs.Pages.{internal_read, leaf_page, leaf_read, overflow_page, overflow_read, page_without_type, queue_meta_page};
ghost use Rattle.sample_pages.specs.Pages.{queue_meta_read, queue_page, queue_read, recno_internal_page, recno_internal_read, recno_leaf_page, recno_leaf_read};
ghost use Rattle.sample_pages.specs.Pages.{table_page, table_read, zero_page};
ghost use Rattle.std.specs.Prelude.{◌≡◌};

/// Leaves of pairs, of records, and of sorted duplicates.
pub fn leaves()
    ensures leaf_little { abstract_page Little (leaf_page Little) ≡ leaf_read }
    ensures leaf_big { abstract_page Big (leaf_page Big) ≡ leaf_read }
    ensures recno_leaf_little { abstract_page Little (recno_leaf_page Little) ≡ recno_leaf_read }
    ensures recno_leaf_big { abstract_page Big (recno_leaf_page Big) ≡ recno_leaf_read }
    ensures dup_leaf_little { abstract_page Little (dup_leaf_page Little) ≡ dup_leaf_read }
    ensures dup_leaf_big { abstract_page Big (dup_leaf_page Big) ≡ dup_leaf_read }
{}

/// Internal pages with keys, and of a recno tree.
pub fn internal_pages()
    ensures internal_little { abstract_page Little (internal_page Little) ≡ internal_read }
    ensures internal_big { abstract_page Big (internal_page Big) ≡ internal_read }
    ensures recno_internal_little { abstract_page Little (recno_internal_page Little) ≡ recno_internal_read }
    ensures recno_internal_big { abstract_page Big (recno_internal_page Big) ≡ recno_internal_read }
{}

/// Metadata of a btree, a hash and a queue.
pub fn metadata()
    ensures btree_little { abstract_page Little (btree_page Little) ≡ btree_read }
    ensures btree_big { abstract_page Big (btree_page Big) ≡ btree_read }
    ensures table_little { abstract_page Little (table_page Little) ≡ table_read }
    ensures table_big { abstract_page Big (table_page Big) ≡ table_read }
    ensures queue_meta_little { abstract_page Little (queue_meta_page Little) ≡ queue_meta_read }
    ensures queue_meta_big { abstract_page Big (queue_meta_page Big) ≡ queue_meta_read }
{}

/// Free pages, overflow pages and pages of a queue.
pub fn others()
    ensures free_little { abstract_page Little (free_page Little) ≡ free_read }
    ensures free_big { abstract_page Big (free_page Big) ≡ free_read }
    ensures overflow_little { abstract_page Little (overflow_page Little) ≡ overflow_read }
    ensures overflow_big { abstract_page Big (overflow_page Big) ≡ overflow_read }
    ensures queue_little { abstract_page Little (queue_page Little) ≡ queue_read }
    ensures queue_big { abstract_page Big (queue_page Big) ≡ queue_read }
{}

/// Hash pages of both types.
pub fn hash_pages()
    ensures unsorted_little { abstract_page Little (hash_page Little 2) ≡ hash_read 2 }
    ensures unsorted_big { abstract_page Big (hash_page Big 2) ≡ hash_read 2 }
    ensures sorted_little { abstract_page Little (hash_page Little 13) ≡ hash_read 13 }
    ensures sorted_big { abstract_page Big (hash_page Big 13) ≡ hash_read 13 }
{}

/// Bytes that are all 0, and bytes with a type that no page has.
pub fn no_pages()
    ensures zero_little { abstract_page Little zero_page ≡ Zero }
    ensures zero_big { abstract_page Big zero_page ≡ Zero }
    ensures other_little { abstract_page Little (page_without_type Little) ≡ NoType }
    ensures other_big { abstract_page Big (page_without_type Big) ≡ NoType }
{}
