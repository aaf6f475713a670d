ghost use Rattle.sample_contents.specs.Fields.{gone, live};
ghost use Rattle.sample_contents.specs.Separators.{split, split_by_chain, split_in_three, split_set, split_twice};
ghost use Rattle.sample_graphs.specs.Named.{fault};
ghost use Rattle.sample_graphs.specs.of_format.Terms.{faults_of};
ghost use Rattle.std.specs.Prelude.{◌≡◌, [], ◌∷◌};

/// Separators that are right: a key is the least below its child, or just above all before it; the first key is never compared.
pub fn edges()
    ensures three { faults_of (split_in_three "" "c" "e" (live "a" ∷ live "b" ∷ []) (live "c" ∷ live "d" ∷ []) (live "e" ∷ [])) ≡ [] }
    ensures least { faults_of (split "b" (live "a" ∷ []) (live "b" ∷ [])) ≡ [] }
    ensures just_above { faults_of (split "aa" (live "a" ∷ []) (live "b" ∷ [])) ≡ [] }
    ensures first { faults_of (split_in_three "z" "c" "e" (live "a" ∷ []) (live "c" ∷ []) (live "e" ∷ [])) ≡ [] }
    ensures nothing_before { faults_of (split "" [] (live "a" ∷ [])) ≡ [] }
{}

/// A key that isn't above that of the item before it.
pub fn falling()
    ensures rising { faults_of (split_in_three "" "c" "d" (live "a" ∷ []) [] (live "e" ∷ [])) ≡ [] }
    ensures same { faults_of (split_in_three "" "c" "c" (live "a" ∷ []) [] (live "e" ∷ [])) ≡ fault 8 1 4 ∷ [] }
    ensures less { faults_of (split_in_three "" "d" "c" (live "a" ∷ []) [] (live "e" ∷ [])) ≡ fault 8 1 4 ∷ [] }
{}

/// A key below the child, or below a later one, that is less.
pub fn less_below()
    ensures own_child { faults_of (split_in_three "" "c" "e" (live "a" ∷ []) (live "b" ∷ []) (live "e" ∷ [])) ≡ fault 8 1 4 ∷ [] }
    ensures later_child { faults_of (split_in_three "" "c" "d" (live "a" ∷ []) [] (live "b" ∷ [])) ≡ fault 8 1 4 ∷ [] }
{}

/// A key below an earlier child that isn't less.
pub fn not_less_before()
    ensures same { faults_of (split "c" (live "a" ∷ live "c" ∷ []) (live "d" ∷ [])) ≡ fault 8 1 4 ∷ [] }
    ensures above { faults_of (split "c" (live "a" ∷ live "d" ∷ []) (live "e" ∷ [])) ≡ fault 8 1 4 ∷ [] }
    ensures no_key { faults_of (split "" (live "a" ∷ []) (live "b" ∷ [])) ≡ fault 8 1 4 ∷ [] }
    ensures second { faults_of (split_in_three "" "b" "d" (live "a" ∷ []) (live "b" ∷ live "e" ∷ []) (live "f" ∷ [])) ≡ fault 8 1 4 ∷ [] }
{}

/// The keys of deleted pairs count.
pub fn deleted_pairs()
    ensures right { faults_of (split "c" (live "a" ∷ gone "b" ∷ []) (gone "c" ∷ live "d" ∷ [])) ≡ [] }
    ensures left { faults_of (split "c" (live "a" ∷ gone "d" ∷ []) (live "e" ∷ [])) ≡ fault 8 1 4 ∷ [] }
    ensures below { faults_of (split "c" (live "a" ∷ []) (gone "b" ∷ live "d" ∷ [])) ≡ fault 8 1 4 ∷ [] }
{}

/// Each internal page speaks of the pairs below it, and not of the keys of internal pages: over an empty leaf an inner separator
/// may be above the outer one.
pub fn levels()
    ensures right { faults_of (split_twice "r" "p" (live "a" ∷ []) (live "p" ∷ []) (live "r" ∷ [])) ≡ [] }
    ensures outer { faults_of (split_twice "m" "p" (live "a" ∷ []) (live "p" ∷ []) (live "q" ∷ [])) ≡ fault 8 1 4 ∷ [] }
    ensures inner { faults_of (split_twice "r" "q" (live "a" ∷ []) (live "p" ∷ []) (live "r" ∷ [])) ≡ fault 8 2 4 ∷ [] }
    ensures empty_leaf { faults_of (split_twice "m" "x" (live "a" ∷ []) [] (live "n" ∷ [])) ≡ [] }
{}

/// A separator in a chain, `abcde`.
pub fn chains()
    ensures right { faults_of (split_by_chain (live "abcd" ∷ []) (live "abd" ∷ [])) ≡ [] }
    ensures left { faults_of (split_by_chain (live "abd" ∷ []) (live "b" ∷ [])) ≡ fault 8 1 4 ∷ [] }
    ensures below { faults_of (split_by_chain (live "a" ∷ []) (live "abcd" ∷ [])) ≡ fault 8 1 4 ∷ [] }
{}

/// Separators and counts of the tree of a set aren't looked at.
pub fn sets()
    ensures right { faults_of (split_set 0x41 "2" 1) ≡ [] }
    ensures key { faults_of (split_set 0x41 "0" 9) ≡ [] }
{}
