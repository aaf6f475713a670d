ghost use Rattle.std.specs.Prelude.{◌≡◌, map};
ghost use Rattle.std.specs.Iterator.{YieldsFirstBy, item_count};
ghost use Rattle.std.specs.List.{All};
ghost use Rattle.bdb_survey.specs.of_overflow.Datum.{datum_seen};
ghost use Rattle.bdb_rescue.specs.Kept.{IsKeptValue, file_in, value_at};

use crate::Salvaged;
use crate::kept::KeptValue;
use crate::places::Places;
use bdb_survey::Datum;
use std::marker::Model;

/// Values that are left: those of a set, or the loose records.
#[derive(Drop)]
pub struct SalvageValues<'s, 'a> {
    salvaged: &'s Salvaged<'a>,
    places: Places<'s, KeptValue>,
}

impl<'s, 'a> Model for SalvageValues<'s, 'a> {
    ghost use Rattle.std.specs.Prelude.{List, ℕ, map};
    ghost use Rattle.std.specs.List.{All};
    ghost use Rattle.bdb_rescue.specs.Kept.{IsKeptValue, file_in, value_at};

    ghost Value = { List (List ℕ) };

    ghost view = { λ v. map (value_at (file_in v.salvaged.now)) v.places };

    ghost invariant = { λ v. All (IsKeptValue (file_in v.salvaged.now)) v.places };
}

impl<'s, 'a> SalvageValues<'s, 'a> {
    /// The values at some places.
    pub(crate) fn over(salvaged: &'s Salvaged<'a>, places: &'s [KeptValue]) -> SalvageValues<'s, 'a>
        requires { All (IsKeptValue (file_in salvaged.now)) places.now }
        ensures { result ≡ map (value_at (file_in salvaged.now)) places.now }
    {
        SalvageValues {
            salvaged,
            places: Places::over(places),
        }
    }
}

impl<'s, 'a> Iterator for SalvageValues<'s, 'a> {
    type Item = Datum<'s>;

    ghost next_gives = { YieldsFirstBy datum_seen (λ left. left) };

    ghost remaining = { item_count (λ left. left) };

    #[tactic(auto, using(crate::proofs::LeftLemmas::values_rest, crate::proofs::LeftLemmas::first_value))]
    fn next(&mut self) -> Option<Datum<'s>> {
        let place = self.places.next()?;
        Some(self.salvaged.value(place))
    }
}
