ghost use Rattle.std.specs.Prelude.{◌≡◌, map};
ghost use Rattle.std.specs.Iterator.{YieldsFirst, YieldsFirstBy, item_count};
ghost use Rattle.bdb_survey.specs.of_overflow.Datum.{datum_seen};
ghost use Rattle.bdb_rescue.specs.Kept.{IsKeptPair, file_in, kept_pairs, keyed};

use crate::Salvaged;
use crate::entry::{PairData, pair_data};
use crate::kept::KeptPair;
use crate::places::Places;
use bdb_survey::Datum;
use std::marker::Model;

/// A stored key, and its data that are left.
#[derive(Drop)]
pub struct SalvageEntry<'s, 'a> {
    key: Datum<'s>,
    values: PairData<'s, 'a>,
}

impl<'s, 'a> Model for SalvageEntry<'s, 'a> {
    ghost use Rattle.std.specs.Prelude.{List, ℕ};
    ghost use Rattle.bdb_survey.specs.of_overflow.Datum.{datum_seen};
    ghost use Rattle.bdb_rescue.specs.Entries.{data_left};

    ghost Value = { List ℕ × List (List ℕ) };

    ghost view = { λ v. (datum_seen v.key, data_left v.values) };
}

impl<'s, 'a> SalvageEntry<'s, 'a> {
    /// The key of a pair with its data; of a deleted one there are none.
    fn of(salvaged: &'s Salvaged<'a>, pair: KeptPair) -> SalvageEntry<'s, 'a>
        requires { IsKeptPair (file_in salvaged.now) pair }
        ensures { result ≡ keyed (file_in salvaged.now) pair }
    {
        SalvageEntry {
            key: salvaged.value_on(pair.page, 2 * u32::from(pair.index)),
            values: if pair.live {
                pair_data(salvaged, pair)
            } else {
                PairData::None
            },
        }
    }

    /// The key.
    pub fn key(&self) -> Datum<'s>
        ensures { datum_seen result ≡ self.now.0 }
    {
        self.key.again()
    }

    /// The next datum, or `None` after the last.
    pub fn next(&mut self) -> Option<Datum<'s>>
        ensures datum { YieldsFirstBy datum_seen (λ left. left) self.old.1 result self.new.1 }
        ensures key { self.new.0 ≡ self.old.0 }
    {
        self.values.next()
    }
}

/// The stored keys that are left, each with its data.
#[derive(Drop)]
pub struct SalvageEntries<'s, 'a> {
    salvaged: &'s Salvaged<'a>,
    pairs: Places<'s, KeptPair>,
}

impl<'s, 'a> Model for SalvageEntries<'s, 'a> {
    ghost use Rattle.std.specs.Prelude.{List, map, ℕ};
    ghost use Rattle.std.specs.List.{All};
    ghost use Rattle.bdb_rescue.specs.Kept.{IsKeptPair, file_in, keyed};

    ghost Value = { List (List ℕ × List (List ℕ)) };

    ghost view = { λ v. map (keyed (file_in v.salvaged.now)) v.pairs };

    ghost invariant = { λ v. All (IsKeptPair (file_in v.salvaged.now)) v.pairs };
}

impl<'s, 'a> SalvageEntries<'s, 'a> {
    /// All keys.
    #[tactic(auto, using(crate::proofs::KeptLemmas::all_pairs))]
    pub(crate) fn over(salvaged: &'s Salvaged<'a>) -> SalvageEntries<'s, 'a>
        ensures { result ≡ map (keyed (file_in salvaged.now)) (kept_pairs (file_in salvaged.now)) }
    {
        SalvageEntries {
            salvaged,
            pairs: Places::over(salvaged.kept_pairs()),
        }
    }
}

impl<'s, 'a> Iterator for SalvageEntries<'s, 'a> {
    type Item = SalvageEntry<'s, 'a>;

    ghost next_gives = { YieldsFirst (λ left. left) };

    ghost remaining = { item_count (λ left. left) };

    #[tactic(auto, using(crate::proofs::LeftLemmas::pairs_rest, crate::proofs::LeftLemmas::first_pair, crate::proofs::LeftLemmas::next_entries))]
    fn next(&mut self) -> Option<SalvageEntry<'s, 'a>> {
        let pair = self.pairs.next()?;
        Some(SalvageEntry::of(self.salvaged, pair))
    }
}
