ghost use Rattle.bdb_format.specs.Hashing.{group};
ghost use Rattle.bdb_format.specs.PageOf.{HeadersTurn, NumbersTurn, StandsForOne};
ghost use Rattle.std.specs.Prelude.{ℕ, ◌^◌, ◌<◌, ◌≤◌};

/// The bytes of a page stand for at most one page.
pub fn stands_for_one()
    ensures { StandsForOne }
{}

/// Numbers, and the numbers of a header, say the same in the other order where their bytes are byte-swapped
///.
pub fn turns()
    ensures numbers { NumbersTurn }
    ensures headers { HeadersTurn }
{}

/// The group of a bucket is the least `g` for which `2^g` is above the bucket.
pub fn groups(bucket: u32)
    ensures above { bucket < 2 ^ group bucket }
    ensures least { (g : ℕ) → bucket < 2 ^ g → group bucket ≤ g }
{}
