ghost use Rattle.sample_contents.specs.Separators.{counted, counted_twice, split_set};
ghost use Rattle.sample_graphs.specs.Named.{fault};
ghost use Rattle.sample_graphs.specs.of_format.Terms.{faults_of};
ghost use Rattle.std.specs.Prelude.{◌≡◌, [], ◌∷◌};

/// Below the first item are two live pairs and a deleted one: its count is 2 or 3. Below the second is one pair.
pub fn both_ends()
    ensures live { faults_of (counted 4 2 1) ≡ [] }
    ensures all { faults_of (counted 4 3 1) ≡ [] }
    ensures fewer { faults_of (counted 4 1 1) ≡ fault 8 1 6 ∷ [] }
    ensures more { faults_of (counted 4 4 1) ≡ fault 8 1 6 ∷ [] }
    ensures second_fewer { faults_of (counted 4 2 0) ≡ fault 8 1 6 ∷ [] }
    ensures second_more { faults_of (counted 4 2 2) ≡ fault 8 1 6 ∷ [] }
{}

/// Without the flag counts are free.
pub fn without_the_flag()
    ensures { faults_of (counted 0 9 9) ≡ [] }
{}

/// Each internal page is faults_of by all that is below it.
pub fn levels()
    ensures right { faults_of (counted_twice 2 1) ≡ [] }
    ensures outer { faults_of (counted_twice 1 1) ≡ fault 8 1 6 ∷ [] }
    ensures inner { faults_of (counted_twice 2 2) ≡ fault 8 2 6 ∷ [] }
    ensures both { faults_of (counted_twice 3 0) ≡ fault 8 1 6 ∷ fault 8 2 6 ∷ [] }
{}

/// The counts in the tree of a set aren't looked at, with the flag neither; the set itself is wrong there.
pub fn sets()
    ensures { faults_of (split_set 4 "2" 9) ≡ fault 8 1 1 ∷ fault 8 1 2 ∷ [] }
{}
