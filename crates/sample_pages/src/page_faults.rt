ghost use Rattle.sample_pages.specs.PageFaults.{form_entry_count, form_index_room, form_item_extent, form_item_offset, form_item_type, form_level};
ghost use Rattle.sample_pages.specs.PageFaults.{form_overflow_room};
ghost use Rattle.sample_pages.specs.Verdicts.{form_codes, page_codes};
ghost use Rattle.std.specs.Prelude.{◌≡◌, Ok, None, Some, [], ◌∷◌};

/// Rows of the index, the level and the number of entries.
pub fn index()
    ensures index_room { form_codes form_index_room ≡ Ok (None ∷ Some 19 ∷ Some 23 ∷ []) }
    ensures level { form_codes form_level ≡ Ok (None ∷ None ∷ None ∷ None ∷ Some 20 ∷ None ∷ []) }
    ensures entry_count { form_codes form_entry_count ≡ Ok (None ∷ None ∷ Some 21 ∷ Some 1 ∷ None ∷ None ∷ []) }
{}

/// Rows of items, the last of which is that of a chain's page.
pub fn items()
    ensures item_offset { form_codes form_item_offset ≡ Ok (None ∷ Some 22 ∷ None ∷ None ∷ []) }
    ensures item_type { form_codes form_item_type ≡ Ok (None ∷ None ∷ Some 23 ∷ None ∷ Some 2 ∷ []) }
    ensures item_extent { form_codes form_item_extent ≡ Ok (None ∷ None ∷ None ∷ Some 24 ∷ []) }
    ensures overflow_room { form_codes form_overflow_room ≡ Ok (None ∷ None ∷ None ∷ None ∷ Some 25 ∷ None ∷ []) }
{}

/// The same rows, as a page's own call answers them.
pub fn pages_alone()
    ensures index_room { page_codes form_index_room ≡ Some 19 ∷ Some 23 ∷ [] }
    ensures level { page_codes form_level ≡ None ∷ None ∷ None ∷ Some 20 ∷ None ∷ [] }
    ensures entry_count { page_codes form_entry_count ≡ None ∷ Some 21 ∷ Some 1 ∷ None ∷ None ∷ [] }
    ensures item_offset { page_codes form_item_offset ≡ Some 22 ∷ None ∷ None ∷ [] }
    ensures item_type { page_codes form_item_type ≡ None ∷ Some 23 ∷ None ∷ Some 2 ∷ [] }
    ensures item_extent { page_codes form_item_extent ≡ None ∷ None ∷ Some 24 ∷ [] }
    ensures overflow_room { page_codes form_overflow_room ≡ None ∷ None ∷ None ∷ Some 25 ∷ None ∷ [] }
{}
