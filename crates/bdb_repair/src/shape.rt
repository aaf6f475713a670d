ghost use Rattle.std.specs.Prelude.{◌≡◌};
ghost use Rattle.bdb_repair.specs.Shapes.{are_several, are_sorted, duplicates_of, kind_of, shaped_settings};

use bdb_model::{Duplicates, Kind, Settings, Shape, plain_settings};
use bdb_rescue::Guess;

fn kind_of(shape: Shape) -> Kind
    ensures { result ≡ kind_of shape }
{
    match shape {
        Shape::Btree(_) => Kind::Btree,
        Shape::Hash(_) => Kind::Hash,
        Shape::Recno => Kind::Recno,
    }
}

// The data of its keys; records have none beside them.
fn duplicates_of(shape: Shape) -> Duplicates
    ensures { result ≡ duplicates_of shape }
{
    match shape {
        Shape::Btree(duplicates) | Shape::Hash(duplicates) => duplicates,
        Shape::Recno => Duplicates::No,
    }
}

fn are_several(duplicates: Duplicates) -> bool
    ensures { result ≡ are_several duplicates }
{
    match duplicates {
        Duplicates::No => false,
        Duplicates::Unsorted | Duplicates::Sorted => true,
    }
}

fn are_sorted(duplicates: Duplicates) -> bool
    ensures { result ≡ are_sorted duplicates }
{
    match duplicates {
        Duplicates::No | Duplicates::Unsorted => false,
        Duplicates::Sorted => true,
    }
}

/// As the image is read, with the kind and the duplicates of a shape, and no other setting.
pub(crate) fn shaped_settings(guess: Guess, shape: Shape) -> Settings
    ensures { result ≡ shaped_settings guess shape }
{
    Settings {
        duplicates: are_several(duplicates_of(shape)),
        sorted: are_sorted(duplicates_of(shape)),
        ..plain_settings(kind_of(shape), guess.page_size, guess.order)
    }
}
