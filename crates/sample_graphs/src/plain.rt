ghost use Rattle.sample_pages.specs.of_format.Terms.{Faulty, LeftOut, faults_of, verdict_of};
ghost use Rattle.sample_pages.specs.of_format.declared.kinds.Unsupported.TheVariants.{LargePage, Version};
ghost use Rattle.sample_graphs.specs.Named.{fault};
ghost use Rattle.sample_graphs.specs.Worked.{empty_queue_big};
ghost use Rattle.sample_pages.specs.Formed.{formed_btree_big, formed_btree_little, formed_hash_big, formed_hash_free_big, formed_hash_little, formed_queue_big};
ghost use Rattle.sample_pages.specs.Formed.{formed_queue_little, formed_sets_big};
ghost use Rattle.sample_pages.specs.OnePair.{large_page, one_pair, one_pair_big, other_version};
ghost use Rattle.std.specs.Prelude.{◌≡◌, take, None, Some, [], ◌∷◌};

/// The file with one pair, in both orders.
pub fn orders()
    ensures little { faults_of one_pair ≡ [] }
    ensures big { faults_of one_pair_big ≡ [] }
    ensures verdict { verdict_of one_pair ≡ None }
{}

/// Its first bytes alone.
pub fn cut()
    ensures nothing { faults_of [] ≡ fault 1 0 1 ∷ [] }
    ensures ragged { faults_of (take 1023 one_pair) ≡ fault 1 0 10 ∷ [] }
    ensures half { faults_of (take 512 one_pair) ≡ fault 1 0 11 ∷ [] }
    ensures verdict { verdict_of (take 512 one_pair) ≡ Some (Faulty (fault 1 0 11)) }
{}

/// The file with another version or page size.
pub fn unsupported()
    ensures other_version { faults_of other_version ≡ fault 1 0 4 ∷ [] }
    ensures other_version_named { verdict_of other_version ≡ Some (LeftOut Version 0) }
    ensures large_page { faults_of large_page ≡ fault 1 0 6 ∷ [] }
    ensures large_page_named { verdict_of large_page ≡ Some (LeftOut LargePage 0) }
{}

/// Sound btree files: a leaf alone; a chain and an empty sorted set; a set that is a recno tree.
pub fn btree_files()
    ensures btree_little { faults_of formed_btree_little ≡ [] }
    ensures btree_big { faults_of formed_btree_big ≡ [] }
    ensures sets_big { faults_of formed_sets_big ≡ [] }
{}

/// Sound hash files: four buckets; a chain and a sorted set; a free page and zero pages.
pub fn hash_files()
    ensures hash_little { faults_of formed_hash_little ≡ [] }
    ensures hash_big { faults_of formed_hash_big ≡ [] }
    ensures hash_free_big { faults_of formed_hash_free_big ≡ [] }
{}

/// Sound queue files: two without records, and one with a page of them.
pub fn queue_files()
    ensures queue_little { faults_of formed_queue_little ≡ [] }
    ensures queue_big { faults_of formed_queue_big ≡ [] }
    ensures queue_empty_big { faults_of empty_queue_big ≡ [] }
{}
