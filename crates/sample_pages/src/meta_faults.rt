ghost use Rattle.bdb_format.specs.Terms.{form_fault, head_fault};
ghost use Rattle.bdb_format.specs.declared.kinds.Unsupported.TheVariants.{Checksum, Compression, Encryption, Extent, Heap, LargePage, OwnHash, Partition};
ghost use Rattle.bdb_format.specs.declared.kinds.Unsupported.TheVariants.{Version, WrappedQueue};
ghost use Rattle.bdb_format.specs.declared.metadata.MetaFault.TheVariants.{Fault, Unsupported as LeftOut};
ghost use Rattle.sample_pages.specs.MetaFaults.{form_btree_flags, form_checksum, form_compression, form_encryption, form_extent, form_hash_buckets};
ghost use Rattle.sample_pages.specs.MetaFaults.{form_hash_flags, form_hash_masks, form_meta_magic, form_meta_page_size, form_own_hash, form_page_number};
ghost use Rattle.sample_pages.specs.MetaFaults.{form_page_type, form_partition, form_queue_first, form_queue_record, form_version, form_wrapped_queue};
ghost use Rattle.sample_pages.specs.Verdicts.{form_codes, page_codes, queue_codes};
ghost use Rattle.std.specs.List.{range_with_len};
ghost use Rattle.std.specs.Prelude.{◌≡◌, map, Ok, None, Some, [], ◌∷◌};

/// Rows of every page.
pub fn any_page()
    ensures page_number { form_codes form_page_number ≡ Ok (None ∷ Some 1 ∷ []) }
    ensures page_type { form_codes form_page_type ≡ Ok (Some 2 ∷ Some 2 ∷ []) }
{}

/// The same rows, as a page's own call answers them; of metadata it looks at the number alone.
pub fn pages_alone()
    ensures page_number { queue_codes form_page_number ≡ Some 1 ∷ [] }
    ensures page_type { queue_codes form_page_type ≡ Some 2 ∷ [] }
    ensures metadata { page_codes form_version ≡ None ∷ [] }
{}

/// Rows of all metadata.
pub fn metadata()
    ensures meta_magic { form_codes form_meta_magic ≡ Ok (None ∷ None ∷ Some 3 ∷ None ∷ Some 1 ∷ None ∷ []) }
    ensures version { form_codes form_version ≡ Ok (None ∷ Some 4 ∷ []) }
    ensures meta_page_size { form_codes form_meta_page_size ≡ Ok (None ∷ None ∷ None ∷ None ∷ Some 5 ∷ None ∷ []) }
    ensures encryption { form_codes form_encryption ≡ Ok (None ∷ None ∷ None ∷ Some 6 ∷ None ∷ []) }
    ensures checksum { form_codes form_checksum ≡ Ok (None ∷ Some 7 ∷ []) }
    ensures partition { form_codes form_partition ≡ Ok (None ∷ Some 8 ∷ None ∷ None ∷ None ∷ None ∷ Some 1 ∷ None ∷ None ∷ []) }
{}

/// Rows of btree metadata.
pub fn btree()
    ensures compression { form_codes form_compression ≡ Ok (Some 9 ∷ None ∷ None ∷ Some 23 ∷ []) }
    ensures btree_flags { form_codes form_btree_flags ≡ Ok (Some 10 ∷ Some 1 ∷ Some 1 ∷ Some 1 ∷ []) }
{}

/// Rows of hash metadata.
pub fn hash()
    ensures own_hash { form_codes form_own_hash ≡ Ok (Some 11 ∷ None ∷ None ∷ []) }
    ensures hash_flags { form_codes form_hash_flags ≡ Ok (Some 12 ∷ None ∷ None ∷ []) }
    ensures hash_masks { form_codes form_hash_masks ≡ Ok (Some 13 ∷ None ∷ None ∷ None ∷ None ∷ []) }
    ensures hash_buckets { form_codes form_hash_buckets ≡ Ok (Some 14 ∷ None ∷ None ∷ []) }
{}

/// Rows of queue metadata.
pub fn queue()
    ensures extent { form_codes form_extent ≡ Ok (Some 15 ∷ None ∷ []) }
    ensures queue_record { form_codes form_queue_record ≡ Ok (Some 16 ∷ []) }
    ensures queue_first { form_codes form_queue_first ≡ Ok (Some 17 ∷ []) }
    ensures wrapped_queue { form_codes form_wrapped_queue ≡ Ok (Some 18 ∷ []) }
{}

/// The codes of the rows of cases that aren't supported.
pub fn left_out()
    ensures file { map head_fault (3 ∷ 4 ∷ 6 ∷ 7 ∷ 8 ∷ 9 ∷ []) ≡ LeftOut Heap ∷ LeftOut Version ∷ LeftOut LargePage ∷ LeftOut Encryption ∷ LeftOut Checksum
        ∷ LeftOut Partition ∷ [] }
    ensures form { map form_fault (4 ∷ 6 ∷ 7 ∷ 8 ∷ 9 ∷ 11 ∷ 15 ∷ 18 ∷ []) ≡ LeftOut Version ∷ LeftOut Encryption ∷ LeftOut Checksum ∷ LeftOut Partition
        ∷ LeftOut Compression ∷ LeftOut OwnHash ∷ LeftOut Extent ∷ LeftOut WrappedQueue ∷ [] }
{}

/// The codes of all other rows.
pub fn faults()
    ensures file { map head_fault (1 ∷ 2 ∷ 5 ∷ 10 ∷ 11 ∷ []) ≡ Fault 1 ∷ Fault 2 ∷ Fault 5 ∷ Fault 10 ∷ Fault 11 ∷ [] }
    ensures form { map form_fault (1 ∷ 2 ∷ 3 ∷ 5 ∷ 10 ∷ []) ≡ Fault 1 ∷ Fault 2 ∷ Fault 3 ∷ Fault 5 ∷ Fault 10 ∷ [] }
    ensures kinds { map form_fault (12 ∷ 13 ∷ 14 ∷ 16 ∷ 17 ∷ []) ≡ Fault 12 ∷ Fault 13 ∷ Fault 14 ∷ Fault 16 ∷ Fault 17 ∷ [] }
    ensures pages { map form_fault (range_with_len 19 7) ≡ Fault 19 ∷ Fault 20 ∷ Fault 21 ∷ Fault 22 ∷ Fault 23 ∷ Fault 24 ∷ Fault 25 ∷ [] }
{}
