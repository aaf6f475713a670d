ghost use Rattle.sample_pages.specs.of_format.Terms.{LeftOut, faults_of, verdict_of};
ghost use Rattle.sample_pages.specs.of_format.declared.kinds.Unsupported.TheVariants.{Checksum, Compression, Encryption, Extent, OwnHash, Partition, Version, WrappedQueue};
ghost use Rattle.sample_graphs.specs.MetaForms.{form_btree_flags_one, form_checksum_many, form_compression_one, form_encryption_many, form_extent_many};
ghost use Rattle.sample_graphs.specs.MetaForms.{form_hash_buckets_many, form_hash_flags_many, form_hash_masks_many, form_meta_magic_one};
ghost use Rattle.sample_graphs.specs.MetaForms.{form_meta_page_size_many, form_own_hash_many, form_page_number_many, form_page_type_one, form_partition_one};
ghost use Rattle.sample_graphs.specs.MetaForms.{form_queue_first_many, form_queue_record_many, form_version_many, form_wrapped_queue_many};
ghost use Rattle.sample_graphs.specs.Named.{fault};
ghost use Rattle.sample_pages.specs.MetaFaults.{form_btree_flags, form_checksum, form_compression, form_encryption, form_extent, form_hash_buckets};
ghost use Rattle.sample_pages.specs.MetaFaults.{form_hash_flags, form_hash_masks, form_meta_magic, form_meta_page_size, form_own_hash, form_page_number};
ghost use Rattle.sample_pages.specs.MetaFaults.{form_page_type, form_partition, form_queue_first, form_queue_record, form_version, form_wrapped_queue};
ghost use Rattle.std.specs.Prelude.{◌≡◌, Some, [], ◌∷◌};

/// Rows of every page.
pub fn any_page()
    ensures page_number { faults_of form_page_number ≡ fault 2 1 1 ∷ [] }
    ensures page_number_many { faults_of form_page_number_many ≡ fault 2 1 1 ∷ fault 2 2 1 ∷ [] }
    ensures page_type { faults_of form_page_type_one ≡ fault 2 0 2 ∷ [] }
    ensures page_type_many { faults_of form_page_type ≡ fault 2 0 2 ∷ fault 2 1 2 ∷ [] }
{}

/// Rows of all metadata.
pub fn metadata()
    ensures meta_magic { faults_of form_meta_magic_one ≡ fault 2 1 3 ∷ [] }
    ensures meta_magic_many { faults_of form_meta_magic ≡ fault 2 2 3 ∷ fault 2 4 1 ∷ [] }
    ensures version { faults_of form_version ≡ fault 2 1 4 ∷ [] }
    ensures version_many { faults_of form_version_many ≡ fault 2 1 4 ∷ fault 2 4 1 ∷ [] }
    ensures meta_page_size { faults_of form_meta_page_size ≡ fault 2 4 5 ∷ [] }
    ensures meta_page_size_many { faults_of form_meta_page_size_many ≡ fault 2 5 5 ∷ fault 2 7 24 ∷ [] }
{}

/// Rows of all metadata that are unsupported cases.
pub fn metadata_left_out()
    ensures encryption { faults_of form_encryption ≡ fault 2 3 6 ∷ [] }
    ensures encryption_many { faults_of form_encryption_many ≡ fault 2 1 6 ∷ fault 2 7 23 ∷ [] }
    ensures checksum { faults_of form_checksum ≡ fault 2 1 7 ∷ [] }
    ensures checksum_many { faults_of form_checksum_many ≡ fault 2 4 7 ∷ fault 2 11 1 ∷ [] }
    ensures partition { faults_of form_partition_one ≡ fault 2 5 8 ∷ [] }
    ensures partition_many { faults_of form_partition ≡ fault 2 1 8 ∷ fault 2 6 1 ∷ [] }
{}

/// Rows of btree metadata.
pub fn btree()
    ensures compression { faults_of form_compression_one ≡ fault 2 0 9 ∷ [] }
    ensures compression_many { faults_of form_compression ≡ fault 2 0 9 ∷ fault 2 3 23 ∷ [] }
    ensures btree_flags { faults_of form_btree_flags_one ≡ fault 2 0 10 ∷ [] }
    ensures btree_flags_many { faults_of form_btree_flags ≡ fault 2 0 10 ∷ fault 2 1 1 ∷ fault 2 2 1 ∷ fault 2 3 1 ∷ [] }
{}

/// Rows of hash metadata.
pub fn hash()
    ensures own_hash { faults_of form_own_hash ≡ fault 2 0 11 ∷ [] }
    ensures own_hash_many { faults_of form_own_hash_many ≡ fault 2 0 11 ∷ fault 2 1 2 ∷ [] }
    ensures hash_flags { faults_of form_hash_flags ≡ fault 2 0 12 ∷ [] }
    ensures hash_flags_many { faults_of form_hash_flags_many ≡ fault 2 0 12 ∷ fault 2 2 21 ∷ [] }
    ensures hash_masks { faults_of form_hash_masks ≡ fault 2 0 13 ∷ [] }
    ensures hash_masks_many { faults_of form_hash_masks_many ≡ fault 2 0 13 ∷ fault 2 3 22 ∷ [] }
    ensures hash_buckets { faults_of form_hash_buckets ≡ fault 2 0 14 ∷ [] }
    ensures hash_buckets_many { faults_of form_hash_buckets_many ≡ fault 2 0 14 ∷ fault 2 1 25 ∷ [] }
{}

/// Rows of queue metadata.
pub fn queue()
    ensures extent { faults_of form_extent ≡ fault 2 0 15 ∷ [] }
    ensures extent_many { faults_of form_extent_many ≡ fault 2 0 15 ∷ fault 2 1 2 ∷ [] }
    ensures queue_record { faults_of form_queue_record ≡ fault 2 0 16 ∷ [] }
    ensures queue_record_many { faults_of form_queue_record_many ≡ fault 2 0 16 ∷ fault 2 4 1 ∷ [] }
    ensures queue_first { faults_of form_queue_first ≡ fault 2 0 17 ∷ [] }
    ensures queue_first_many { faults_of form_queue_first_many ≡ fault 2 0 17 ∷ fault 2 3 1 ∷ fault 2 4 1 ∷ fault 2 5 1 ∷ [] }
    ensures wrapped_queue { faults_of form_wrapped_queue ≡ fault 2 0 18 ∷ [] }
    ensures wrapped_queue_many { faults_of form_wrapped_queue_many ≡ fault 2 0 18 ∷ fault 2 2 1 ∷ [] }
{}

/// Unsupported cases by their names, with their pages.
pub fn named()
    ensures version { verdict_of form_version ≡ Some (LeftOut Version 1) }
    ensures encryption { verdict_of form_encryption ≡ Some (LeftOut Encryption 3) }
    ensures checksum { verdict_of form_checksum ≡ Some (LeftOut Checksum 1) }
    ensures partition { verdict_of form_partition ≡ Some (LeftOut Partition 1) }
    ensures compression { verdict_of form_compression ≡ Some (LeftOut Compression 0) }
    ensures own_hash { verdict_of form_own_hash ≡ Some (LeftOut OwnHash 0) }
    ensures extent { verdict_of form_extent ≡ Some (LeftOut Extent 0) }
    ensures wrapped_queue { verdict_of form_wrapped_queue ≡ Some (LeftOut WrappedQueue 0) }
{}
