ghost use Rattle.bdb_format.specs.declared.kinds.Unsupported.TheVariants.{Checksum, Encryption, Heap, LargePage, Partition, Version};
ghost use Rattle.bdb_format.specs.declared.metadata.MetaFault.TheVariants.{Fault, Unsupported as LeftOut};
ghost use Rattle.sample_pages.specs.FileFaults.{file_checksum, file_encryption, file_heap, file_large_page, file_last_page, file_magic, file_page_size};
ghost use Rattle.sample_pages.specs.FileFaults.{file_partition, file_ragged, file_short, file_version};
ghost use Rattle.sample_pages.specs.Verdicts.{head_answer};
ghost use Rattle.std.specs.Prelude.{◌≡◌, Err, [], ◌∷◌};

/// Rows of the magic number, the version and the page size.
pub fn kind()
    ensures short { head_answer file_short ≡ Err (Fault 1) }
    ensures magic { head_answer file_magic ≡ Err (Fault 2) }
    ensures heap { head_answer file_heap ≡ Err (LeftOut Heap) }
    ensures version { head_answer file_version ≡ Err (LeftOut Version) }
    ensures page_size { head_answer file_page_size ≡ Err (Fault 5) }
    ensures large_page { head_answer file_large_page ≡ Err (LeftOut LargePage) }
{}

/// Rows of the other fields, and of the length of the image.
pub fn rest()
    ensures encryption { head_answer file_encryption ≡ Err (LeftOut Encryption) }
    ensures checksum { head_answer file_checksum ≡ Err (LeftOut Checksum) }
    ensures partition { head_answer file_partition ≡ Err (LeftOut Partition) }
    ensures ragged { head_answer file_ragged ≡ Err (Fault 10) }
    ensures last_page { head_answer file_last_page ≡ Err (Fault 11) }
{}
