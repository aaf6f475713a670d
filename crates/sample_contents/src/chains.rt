ghost use Rattle.sample_contents.specs.Chains.{chain_in_a_set, chain_of_data, chain_of_deleted_data, chain_of_deleted_record, chain_of_first_key};
ghost use Rattle.sample_contents.specs.Chains.{chain_of_hash_key, chain_of_key, chain_of_shared_key, chain_of_two, chain_of_two_leaves, empty_chain};
ghost use Rattle.sample_contents.specs.Chains.{long_value};
ghost use Rattle.sample_graphs.specs.Named.{fault};
ghost use Rattle.sample_graphs.specs.of_format.Terms.{Chain, chain, faults_of, file_of, pieces_of, value_of};
ghost use Rattle.std.specs.Prelude.{◌≡◌, codes, [], ◌∷◌};

/// A value of 5,000 bytes on eleven pages, and totals that are one off.
pub fn eleven_pages()
    ensures right { faults_of (long_value 5000) ≡ [] }
    ensures more { faults_of (long_value 5001) ≡ fault 6 1 1 ∷ [] }
    ensures less { faults_of (long_value 4999) ≡ fault 6 1 1 ∷ [] }
{}

/// The pages of a chain, what stands on them, and the value; none of its pages is full.
pub fn values()
    ensures pages { chain (file_of (chain_of_data 5)) 2 ≡ 2 ∷ 3 ∷ [] }
    ensures pieces { pieces_of (file_of (chain_of_data 5)) 2 ≡ codes "abc" ∷ codes "de" ∷ [] }
    ensures value { value_of (file_of (chain_of_data 5)) (Chain 2 5) ≡ codes "abcde" }
{}

/// The chain of a pair on a leaf: its data, live or deleted, its key, and a key that two pairs share.
pub fn pairs()
    ensures data { faults_of (chain_of_data 5) ≡ [] }
    ensures data_off { faults_of (chain_of_data 6) ≡ fault 6 1 1 ∷ [] }
    ensures deleted { faults_of (chain_of_deleted_data 5) ≡ [] }
    ensures deleted_off { faults_of (chain_of_deleted_data 4) ≡ fault 6 1 1 ∷ [] }
    ensures key { faults_of (chain_of_key 5) ≡ [] }
    ensures key_off { faults_of (chain_of_key 6) ≡ fault 6 1 1 ∷ [] }
    ensures shared { faults_of (chain_of_shared_key 5) ≡ [] }
    ensures shared_off { faults_of (chain_of_shared_key 4) ≡ fault 6 1 1 ∷ [] }
{}

/// Two items with one chain: each tells a total, and the fault stands at the page of the one that is wrong.
pub fn two_items()
    ensures right { faults_of (chain_of_two 5 5) ≡ [] }
    ensures second { faults_of (chain_of_two 5 6) ≡ fault 6 1 1 ∷ [] }
    ensures leaves { faults_of (chain_of_two_leaves 5 5) ≡ [] }
    ensures first_leaf { faults_of (chain_of_two_leaves 6 5) ≡ fault 6 2 1 ∷ [] }
    ensures second_leaf { faults_of (chain_of_two_leaves 5 6) ≡ fault 6 3 1 ∷ [] }
    ensures both { faults_of (chain_of_two_leaves 6 6) ≡ fault 6 2 1 ∷ fault 6 3 1 ∷ [] }
{}

/// The items of other pages.
pub fn other_pages()
    ensures first_key { faults_of (chain_of_first_key 5) ≡ [] }
    ensures first_key_off { faults_of (chain_of_first_key 4) ≡ fault 6 1 1 ∷ [] }
    ensures record { faults_of (chain_of_deleted_record 5) ≡ [] }
    ensures record_off { faults_of (chain_of_deleted_record 0) ≡ fault 6 1 1 ∷ [] }
    ensures set { faults_of (chain_in_a_set 5) ≡ [] }
    ensures set_off { faults_of (chain_in_a_set 6) ≡ fault 6 2 1 ∷ [] }
    ensures hash { faults_of (chain_of_hash_key 5) ≡ [] }
    ensures hash_off { faults_of (chain_of_hash_key 6) ≡ fault 6 2 1 ∷ [] }
{}

/// A chain without data.
pub fn no_data()
    ensures right { faults_of (empty_chain 0) ≡ [] }
    ensures off { faults_of (empty_chain 1) ≡ fault 6 1 1 ∷ [] }
{}
