ghost use Rattle.std.specs.Prelude.{◌≡◌};
ghost use Rattle.bdb_overflow.specs.Datum.{datum_seen};
ghost use Rattle.bdb_graph.specs.of_format.Terms.{less};
ghost use Rattle.std.specs.Str.{bytes_eq};

use crate::{Datum, compare_datum};
use std::cmp::Ordering;
use std::marker::Model;

/// Whether a value is less than another.
#[tactic(auto, using(crate::proofs::KeyLemmas::is_less))]
pub fn is_less(a: &Datum<'_>, b: &Datum<'_>) -> bool
    ensures { result ≡ less (datum_seen a.now) (datum_seen b.now) }
{
    matches!(compare_datum(a, b), Ordering::Less)
}

/// Whether two values are one.
#[tactic(auto, using(crate::proofs::KeyLemmas::is_same))]
pub fn is_same(a: &Datum<'_>, b: &Datum<'_>) -> bool
    ensures { result ≡ bytes_eq (datum_seen a.now) (datum_seen b.now) }
{
    matches!(compare_datum(a, b), Ordering::Equal)
}

/// A key, which is compared by its bytes.
#[derive(Drop)]
pub struct Key<'a> {
    datum: Datum<'a>,
}

impl<'a> Model for Key<'a> {
    ghost use Rattle.std.specs.Prelude.{List, ℕ};
    ghost use Rattle.bdb_overflow.specs.Datum.{datum_seen};

    ghost Value = { List ℕ };

    ghost view = { λ it. datum_seen it.datum };
}

impl<'a> Key<'a> {
    /// A value as a key.
    pub fn of(datum: Datum<'a>) -> Key<'a>
        ensures { result ≡ datum_seen datum.entry }
    {
        Key { datum }
    }
}

impl<'a> PartialEq for Key<'a> {
    ghost use Rattle.std.specs.Cmp;
    ghost use Rattle.std.specs.Cmp.Lexicographic.{nat_list_eq_equiv};
    ghost use Rattle.std.specs.Str.{bytes_eq};

    ghost eq = { bytes_eq };

    ghost laws = { Cmp.partial_equiv_from_equiv nat_list_eq_equiv };

    fn eq(&self, other: &Self) -> bool {
        is_same(&self.datum, &other.datum)
    }
}

impl<'a> Eq for Key<'a> {
    ghost use Rattle.std.specs.Cmp.Lexicographic.{nat_list_eq_equiv};

    ghost laws = { nat_list_eq_equiv };
}

impl<'a> PartialOrd for Key<'a> {
    ghost use Rattle.std.specs.Cmp.Lexicographic.{slice_cmp, texts_po};
    ghost use Rattle.std.specs.Ordering.{nat_cmp};
    ghost use Rattle.std.specs.Prelude.{Some};

    ghost partial_cmp = { λ x y. Some (slice_cmp nat_cmp x y) };

    ghost laws = { texts_po };

    fn partial_cmp(&self, other: &Self) -> Option<Ordering> {
        Some(self.cmp(other))
    }
}

impl<'a> Ord for Key<'a> {
    ghost use Rattle.std.specs.Cmp.Lexicographic.{nat_list_cmp_total, slice_cmp, texts_ties};
    ghost use Rattle.std.specs.Ordering.{nat_cmp};
    ghost use Rattle.std.proofs.Common.{refl};

    ghost cmp = { slice_cmp nat_cmp };

    ghost total = { nat_list_cmp_total };

    ghost matches_partial_cmp = { λ x y. refl };

    ghost matches_eq = { texts_ties };

    #[tactic(auto, using(crate::proofs::KeyLemmas::is_order))]
    fn cmp(&self, other: &Self) -> Ordering {
        compare_datum(&self.datum, &other.datum)
    }
}
