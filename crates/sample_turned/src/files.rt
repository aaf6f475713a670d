//! Whole files.
ghost use Rattle.std.specs.Prelude.{◌≡◌, Some, None};
ghost use Rattle.bdb_law_turned.specs.of_format.declared.kinds.Order.TheVariants.{Big, Little};
ghost use Rattle.bdb_law_turned.specs.Flipped.{flip_of, overlap_in};
ghost use Rattle.sample_pages.specs.OnePair.{one_pair, one_pair_big};
ghost use Rattle.sample_turned.specs.Samples.{overlapping};

/// The file of one pair, there and back.
pub fn one_pairs()
    ensures there { flip_of Big one_pair ≡ one_pair_big }
    ensures back { flip_of Little one_pair_big ≡ one_pair }
    ensures same { flip_of Little one_pair ≡ one_pair }
    ensures apart { overlap_in Big one_pair ≡ None }
{}

/// Where an item goes into the next one, its page is told, and in its own order the file stays.
pub fn overlaps()
    ensures other { overlap_in Big overlapping ≡ Some 1 }
    ensures own { overlap_in Little overlapping ≡ None }
    ensures same { flip_of Little overlapping ≡ overlapping }
{}
