ghost use Rattle.sample_pages.specs.of_format.Terms.{faults_of};
ghost use Rattle.sample_graphs.specs.Named.{fault};
ghost use Rattle.sample_graphs.specs.PageForms.{form_entry_count_one, form_index_room_one, form_item_extent_many, form_item_offset_many, form_item_type_one};
ghost use Rattle.sample_graphs.specs.PageForms.{form_level_many, form_overflow_room_many};
ghost use Rattle.sample_pages.specs.PageFaults.{form_entry_count, form_index_room, form_item_extent, form_item_offset, form_item_type, form_level};
ghost use Rattle.sample_pages.specs.PageFaults.{form_overflow_room};
ghost use Rattle.std.specs.Prelude.{◌≡◌, [], ◌∷◌};

/// Rows of the index, the level and the number of entries.
pub fn index()
    ensures index_room { faults_of form_index_room_one ≡ fault 2 2 19 ∷ [] }
    ensures index_room_many { faults_of form_index_room ≡ fault 2 1 19 ∷ fault 2 2 23 ∷ [] }
    ensures level { faults_of form_level ≡ fault 2 4 20 ∷ [] }
    ensures level_many { faults_of form_level_many ≡ fault 2 1 20 ∷ fault 2 5 1 ∷ [] }
    ensures entry_count { faults_of form_entry_count_one ≡ fault 2 2 21 ∷ [] }
    ensures entry_count_many { faults_of form_entry_count ≡ fault 2 2 21 ∷ fault 2 3 1 ∷ [] }
{}

/// Rows of items.
pub fn items()
    ensures item_offset { faults_of form_item_offset ≡ fault 2 1 22 ∷ [] }
    ensures item_offset_many { faults_of form_item_offset_many ≡ fault 2 1 22 ∷ fault 2 4 21 ∷ [] }
    ensures item_type { faults_of form_item_type_one ≡ fault 2 3 23 ∷ [] }
    ensures item_type_many { faults_of form_item_type ≡ fault 2 2 23 ∷ fault 2 4 2 ∷ [] }
    ensures item_extent { faults_of form_item_extent ≡ fault 2 3 24 ∷ [] }
    ensures item_extent_many { faults_of form_item_extent_many ≡ fault 2 2 24 ∷ fault 2 3 21 ∷ [] }
{}

/// The row of a chain's page.
pub fn overflow()
    ensures overflow_room { faults_of form_overflow_room ≡ fault 2 4 25 ∷ [] }
    ensures overflow_room_many { faults_of form_overflow_room_many ≡ fault 2 1 25 ∷ fault 2 3 23 ∷ [] }
{}
