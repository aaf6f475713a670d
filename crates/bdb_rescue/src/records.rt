ghost use Rattle.std.specs.Prelude.{◌≡◌, map};
ghost use Rattle.std.specs.Iterator.{YieldsFirstBy, item_count};
ghost use Rattle.std.specs.List.{All};
ghost use Rattle.bdb_rescue.specs.Entries.{record_read};
ghost use Rattle.bdb_rescue.specs.Kept.{IsKeptValue, file_in, numbered_at};

use crate::Salvaged;
use crate::kept::KeptValue;
use crate::places::Places;
use bdb_survey::Datum;
use std::marker::Model;

/// The loose records of a page that are left, each with its number.
#[derive(Drop)]
pub struct SalvageRecords<'s, 'a> {
    salvaged: &'s Salvaged<'a>,
    start: u32,
    places: Places<'s, KeptValue>,
}

impl<'s, 'a> Model for SalvageRecords<'s, 'a> {
    ghost use Rattle.std.specs.Prelude.{List, ℕ, map};
    ghost use Rattle.std.specs.List.{All};
    ghost use Rattle.bdb_rescue.specs.Kept.{IsKeptValue, file_in, numbered_at};

    ghost Value = { List (ℕ × List ℕ) };

    ghost view = { λ v. map (numbered_at (file_in v.salvaged.now) v.start) v.places };

    ghost invariant = { λ v. All (IsKeptValue (file_in v.salvaged.now)) v.places };
}

impl<'s, 'a> SalvageRecords<'s, 'a> {
    /// The records at some places of a page, where so many come before it.
    pub(crate) fn over(
        salvaged: &'s Salvaged<'a>,
        start: u32,
        places: &'s [KeptValue],
    ) -> SalvageRecords<'s, 'a>
        requires { All (IsKeptValue (file_in salvaged.now)) places.now }
        ensures { result ≡ map (numbered_at (file_in salvaged.now) start) places.now }
    {
        SalvageRecords {
            salvaged,
            start,
            places: Places::over(places),
        }
    }
}

impl<'s, 'a> Iterator for SalvageRecords<'s, 'a> {
    type Item = (u64, Datum<'s>);

    ghost next_gives = { YieldsFirstBy record_read (λ left. left) };

    ghost remaining = { item_count (λ left. left) };

    #[tactic(auto, using(crate::proofs::LeftLemmas::values_rest, crate::proofs::LeftLemmas::first_value))]
    fn next(&mut self) -> Option<(u64, Datum<'s>)> {
        let place = self.places.next()?;
        let number = u64::from(self.start) + u64::from(place.index) + 1;
        Some((number, self.salvaged.value(place)))
    }
}
