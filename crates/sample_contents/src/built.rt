ghost use Rattle.sample_contents.specs.Fields.{btree, leaf, pair, text};
ghost use Rattle.sample_graphs.specs.of_sample_pages.OnePair.{one_pair};
ghost use Rattle.std.specs.Prelude.{◌≡◌, bytes_eq, true, [], ◌∷◌};

/// The sample file, written from its fields.
pub fn one_pair()
    ensures { bytes_eq (btree 0 (leaf 1 0 0 (pair (text "a") (text "b") ∷ []) ∷ [])) one_pair ≡ true }
{}
