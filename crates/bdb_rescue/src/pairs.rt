ghost use Rattle.std.specs.Prelude.{◌≡◌, if◌then◌else◌, []};
ghost use Rattle.std.specs.Iterator.{YieldsFirstBy, item_count};
ghost use Rattle.std.specs.List.{All, flat_map};
ghost use Rattle.bdb_rescue.specs.Entries.{pair_read};
ghost use Rattle.bdb_rescue.specs.Kept.{IsKeptPair, file_in, given_live, kept_pairs, left_of};

use crate::Salvaged;
use crate::entry::PairLeft;
use crate::kept::KeptPair;
use crate::places::Places;
use bdb_survey::Datum;
use std::marker::Model;

/// The stored pairs that are left.
#[derive(Drop)]
pub struct SalvagePairs<'s, 'a> {
    salvaged: &'s Salvaged<'a>,
    here: Option<PairLeft<'s, 'a>>,
    pairs: Places<'s, KeptPair>,
}

impl<'s, 'a> Model for SalvagePairs<'s, 'a> {
    ghost use Rattle.std.specs.Prelude.{List, ℕ};
    ghost use Rattle.std.specs.List.{All};
    ghost use Rattle.bdb_rescue.specs.Kept.{IsKeptPair, file_in, pairs_left};

    ghost Value = { List (List ℕ × List ℕ) };

    ghost view = { λ v. pairs_left (file_in v.salvaged.now) v.here v.pairs };

    ghost invariant = { λ v. All (IsKeptPair (file_in v.salvaged.now)) v.pairs };
}

impl<'s, 'a> SalvagePairs<'s, 'a> {
    /// The pairs at some places.
    pub(crate) fn among(
        salvaged: &'s Salvaged<'a>,
        pairs: Places<'s, KeptPair>,
    ) -> SalvagePairs<'s, 'a>
        requires { All (IsKeptPair (file_in salvaged.now)) pairs }
        ensures { result ≡ flat_map (given_live (file_in salvaged.now)) pairs.entry }
    {
        SalvagePairs {
            salvaged,
            here: None,
            pairs,
        }
    }

    /// All pairs.
    #[tactic(auto, using(crate::proofs::KeptLemmas::all_pairs))]
    pub(crate) fn over(salvaged: &'s Salvaged<'a>) -> SalvagePairs<'s, 'a>
        ensures { result ≡ flat_map (given_live (file_in salvaged.now)) (kept_pairs (file_in salvaged.now)) }
    {
        SalvagePairs::among(salvaged, Places::over(salvaged.kept_pairs()))
    }
}

/// What a kept pair gives; a deleted one gives nothing.
fn live_entry<'s, 'a>(salvaged: &'s Salvaged<'a>, pair: KeptPair) -> Option<PairLeft<'s, 'a>>
    requires { IsKeptPair (file_in salvaged.now) pair }
    ensures { left_of result ≡ given_live (file_in salvaged.now) pair }
{
    if pair.live {
        Some(PairLeft::of(salvaged, pair))
    } else {
        None
    }
}

/// The next pair of an entry, if there is one.
fn next_here<'s>(here: &mut Option<PairLeft<'s, '_>>) -> Option<(Datum<'s>, Datum<'s>)>
    ensures { YieldsFirstBy pair_read left_of here.old result here.new }
{
    match here {
        Some(entry) => entry.next(),
        None => None,
    }
}

impl<'s, 'a> Iterator for SalvagePairs<'s, 'a> {
    type Item = (Datum<'s>, Datum<'s>);

    ghost next_gives = { YieldsFirstBy pair_read (λ left. left) };

    ghost remaining = { item_count (λ left. left) };

    #[tactic(auto, using(crate::proofs::LeftLemmas::next_pairs, crate::proofs::LeftLemmas::pairs_rest, crate::proofs::LeftLemmas::first_pair))]
    fn next(&mut self) -> Option<(Datum<'s>, Datum<'s>)> {
        loop {
            match next_here(&mut self.here) {
                Some(pair) => return Some(pair),
                None => {}
            }
            let pair = self.pairs.next()?;
            self.here = live_entry(self.salvaged, pair);
        }
    }
}
