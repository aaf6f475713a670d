ghost use Rattle.std.specs.Prelude.{◌≡◌, ◌≢◌, ◌<◌, ◌++◌, ◌∷◌, [], ℕ, List, length, get_or, true};
ghost use Rattle.bdb_survey.specs.of_format.Terms.{File};
ghost use Rattle.bdb_homes.specs.Claims.{Claim, is_fit};
ghost use Rattle.bdb_homes.specs.Ups.{AreUps, is_claimed, up_by};
ghost use Rattle.bdb_homes.specs.declared.up.Up.TheVariants.{Nowhere};

/// The first page that claims a page.
#[derive(Clone, Copy, Debug)]
pub(crate) enum Up {
    Nowhere,
    /// Metadata.
    Metadata(u32),
    /// An internal page, and the records that it counts before this page.
    Holder { page: u32, before: u64 },
}

impl Up {
    pub(crate) fn is_claimed(self) -> bool
        ensures { result ≡ is_claimed self }
    {
        !matches!(self, Up::Nowhere)
    }
}

/// Notes who claims a page, if the page fits and nobody claims it yet.
#[tactic(auto, using(crate::proofs::UpLemmas::ups_same, crate::proofs::UpLemmas::ups_set, crate::proofs::UpLemmas::claimed_stays))]
pub(crate) fn note(ups: &mut [Up], page: u32, fits: bool, up: Up)
    requires { is_claimed up ≡ true }
    ensures ups { (file : File) (claims : List Claim) (claim : Claim) → claim.below.page ≡ page → up_by file claim ≡ up
        → (page < length ups.old → fits ≡ is_fit file claim) → AreUps file ups.old claims → AreUps file ups.new (claims ++ claim ∷ []) }
    ensures claimed { (p : ℕ) → is_claimed (get_or ups.old p Nowhere) ≡ true → is_claimed (get_or ups.new p Nowhere) ≡ true }
    ensures noted { page < length ups.old → fits ≡ true → is_claimed (get_or ups.new page Nowhere) ≡ true }
{
    let page = page as usize;
    if fits && page < ups.len() && !ups[page].is_claimed() {
        ups[page] = up;
    }
}
