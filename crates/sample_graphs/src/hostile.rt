ghost use Rattle.sample_pages.specs.of_format.Terms.{faults_of};
ghost use Rattle.sample_graphs.specs.Hostile.{bucket_without_a_page, chain_counted_once, free_page_in_a_ring, leaf_as_its_own_set, own_child};
ghost use Rattle.sample_graphs.specs.Hostile.{own_next_hash_page, own_next_overflow_page, root_is_a_recno_leaf, root_of_zero};
ghost use Rattle.sample_graphs.specs.Named.{fault};
ghost use Rattle.sample_graphs.specs.Worked.{chain_of_two_pairs};
ghost use Rattle.sample_pages.specs.OnePair.{one_pair, past_end};
ghost use Rattle.std.specs.Prelude.{◌≡◌, take, [], ◌∷◌};

/// A root that isn't there, or is no page of a btree.
pub fn roots()
    ensures root_of_zero { faults_of root_of_zero ≡ fault 3 0 1 ∷ [] }
    ensures root_is_a_recno_leaf { faults_of root_is_a_recno_leaf ≡ fault 3 0 2 ∷ [] }
{}

/// A page that names itself.
pub fn rings()
    ensures own_child { faults_of own_child ≡ fault 3 1 3 ∷ [] }
    ensures own_next_overflow_page { faults_of own_next_overflow_page ≡ fault 5 2 1 ∷ [] }
    ensures free_page_in_a_ring { faults_of free_page_in_a_ring ≡ fault 4 2 2 ∷ [] }
    ensures own_next_hash_page { faults_of own_next_hash_page ≡ fault 3 1 4 ∷ [] }
{}

/// A chain that two pairs share, counted and not.
pub fn shared_pages()
    ensures chain_of_two_pairs { faults_of chain_of_two_pairs ≡ [] }
    ensures chain_counted_once { faults_of chain_counted_once ≡ fault 4 2 2 ∷ [] }
    ensures leaf_as_its_own_set { faults_of leaf_as_its_own_set ≡ fault 3 1 2 ∷ [] }
{}

/// Numbers that go beyond the file or the page.
pub fn bounds()
    ensures bucket_without_a_page { faults_of bucket_without_a_page ≡ fault 2 0 14 ∷ [] }
    ensures item_past_end { faults_of past_end ≡ fault 2 1 24 ∷ [] }
{}

/// Files that end too early.
pub fn cuts()
    ensures below_the_least_page { faults_of (take 511 one_pair) ≡ fault 1 0 1 ∷ [] }
    ensures within_a_page { faults_of (take 600 one_pair) ≡ fault 1 0 10 ∷ [] }
{}
