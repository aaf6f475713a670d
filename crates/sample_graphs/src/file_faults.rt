ghost use Rattle.sample_pages.specs.of_format.Terms.{LeftOut, faults_of, verdict_of};
ghost use Rattle.sample_pages.specs.of_format.declared.kinds.Unsupported.TheVariants.{Checksum, Encryption, Heap, LargePage, Partition, Version};
ghost use Rattle.sample_graphs.specs.Named.{fault};
ghost use Rattle.sample_graphs.specs.Tails.{file_tail, file_tail_many};
ghost use Rattle.sample_pages.specs.FileFaults.{file_checksum, file_encryption, file_heap, file_large_page, file_last_page, file_magic, file_page_size};
ghost use Rattle.sample_pages.specs.FileFaults.{file_partition, file_ragged, file_short, file_version};
ghost use Rattle.std.specs.Prelude.{◌≡◌, Some, [], ◌∷◌};

/// Rows of the magic number, the version and the page size.
pub fn kind()
    ensures short { faults_of file_short ≡ fault 1 0 1 ∷ [] }
    ensures magic { faults_of file_magic ≡ fault 1 0 2 ∷ [] }
    ensures heap { faults_of file_heap ≡ fault 1 0 3 ∷ [] }
    ensures version { faults_of file_version ≡ fault 1 0 4 ∷ [] }
    ensures page_size { faults_of file_page_size ≡ fault 1 0 5 ∷ [] }
    ensures large_page { faults_of file_large_page ≡ fault 1 0 6 ∷ [] }
{}

/// Rows of the other fields, and of the length of the image.
pub fn rest()
    ensures encryption { faults_of file_encryption ≡ fault 1 0 7 ∷ [] }
    ensures checksum { faults_of file_checksum ≡ fault 1 0 8 ∷ [] }
    ensures partition { faults_of file_partition ≡ fault 1 0 9 ∷ [] }
    ensures ragged { faults_of file_ragged ≡ fault 1 0 10 ∷ [] }
    ensures last_page { faults_of file_last_page ≡ fault 1 0 11 ∷ [] }
{}

/// Pages above the last one.
pub fn tails()
    ensures tail { faults_of file_tail ≡ fault 1 1 12 ∷ [] }
    ensures tail_many { faults_of file_tail_many ≡ fault 1 1 12 ∷ fault 1 2 12 ∷ [] }
{}

/// Unsupported cases by their names.
pub fn named()
    ensures heap { verdict_of file_heap ≡ Some (LeftOut Heap 0) }
    ensures version { verdict_of file_version ≡ Some (LeftOut Version 0) }
    ensures large_page { verdict_of file_large_page ≡ Some (LeftOut LargePage 0) }
    ensures encryption { verdict_of file_encryption ≡ Some (LeftOut Encryption 0) }
    ensures checksum { verdict_of file_checksum ≡ Some (LeftOut Checksum 0) }
    ensures partition { verdict_of file_partition ≡ Some (LeftOut Partition 0) }
{}
