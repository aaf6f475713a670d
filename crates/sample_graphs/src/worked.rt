ghost use Rattle.sample_pages.specs.of_format.Terms.{faults_of};
ghost use Rattle.sample_graphs.specs.Named.{fault};
ghost use Rattle.sample_graphs.specs.Worked.{child_named_twice, ring_of_overflow_pages, shared_chain, shared_chain_counted_once, small_hash_table};
ghost use Rattle.std.specs.Prelude.{◌≡◌, [], ◌∷◌};

/// A chain has as many owners as its head counts, and not one more.
pub fn chains()
    ensures shared_chain { faults_of shared_chain ≡ [] }
    ensures shared_chain_counted_once { faults_of shared_chain_counted_once ≡ fault 4 4 2 ∷ [] }
{}

/// Pages that name each other have an owner each, and are reached from nowhere.
pub fn overflow_rings()
    ensures ring_of_overflow_pages { faults_of ring_of_overflow_pages ≡ fault 5 2 1 ∷ fault 5 3 1 ∷ [] }
{}

/// A leaf that is named twice, beside one that isn't named.
pub fn children()
    ensures child_named_twice { faults_of child_named_twice ≡ fault 4 2 2 ∷ fault 4 3 1 ∷ [] }
{}

/// A hash table with a zero page in reserve.
pub fn reserves()
    ensures small_hash_table { faults_of small_hash_table ≡ [] }
{}
