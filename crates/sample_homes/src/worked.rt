ghost use Rattle.std.specs.Prelude.{◌≡◌, ◌∷◌, [], Some, None};
ghost use Rattle.bdb_survey.specs.of_format.Terms.{overwritten};
ghost use Rattle.bdb_survey.specs.of_format.declared.kinds.Order.TheVariants.{Little};
ghost use Rattle.bdb_survey.specs.Salvage.{salvaged_file};
ghost use Rattle.sample_graphs.specs.Worked.{child_named_twice, shared_chain, small_hash_table};
ghost use Rattle.sample_homes.specs.Counted.{homes};

/// An internal page with two leaves; the same where it has lost the second child or the first, where it has no type, and where metadata have no magic
/// number or another page size.
pub fn trees()
    ensures whole { homes (salvaged_file Little 512 shared_chain) ≡ None ∷ Some (record { meta = 0; start = 0 }) ∷ Some (record { meta = 0; start = 0 })
        ∷ Some (record { meta = 0; start = 0 }) ∷ None ∷ [] }
    ensures second_lost { homes (salvaged_file Little 512 (overwritten shared_chain 992 (9 ∷ []))) ≡ None ∷ Some (record { meta = 0; start = 0 })
        ∷ Some (record { meta = 0; start = 0 }) ∷ Some (record { meta = 0; start = 0 }) ∷ None ∷ [] }
    ensures first_lost { homes (salvaged_file Little 512 (overwritten shared_chain 1016 (9 ∷ []))) ≡ None ∷ Some (record { meta = 0; start = 0 })
        ∷ Some (record { meta = 0; start = 0 }) ∷ Some (record { meta = 0; start = 0 }) ∷ None ∷ [] }
    ensures internal_lost { homes (salvaged_file Little 512 (overwritten shared_chain 537 (1 ∷ []))) ≡ None ∷ None ∷ None ∷ None ∷ None ∷ [] }
    ensures other_size { homes (salvaged_file Little 512 (overwritten shared_chain 20 (1 ∷ []))) ≡ None ∷ None ∷ None ∷ None ∷ None ∷ [] }
{}

/// A leaf that is named by nobody, and that no leaf names.
pub fn lost_leaf()
    ensures { homes (salvaged_file Little 512 child_named_twice) ≡ None ∷ Some (record { meta = 0; start = 0 }) ∷ Some (record { meta = 0; start = 0 }) ∷ None
        ∷ [] }
{}

/// A table.
pub fn tables()
    ensures { homes (salvaged_file Little 512 small_hash_table) ≡ None ∷ Some (record { meta = 0; start = 0 }) ∷ Some (record { meta = 0; start = 0 })
        ∷ Some (record { meta = 0; start = 0 }) ∷ None ∷ [] }
{}
