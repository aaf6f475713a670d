//! The one database that an image is repaired into, by the options of `repair`.
ghost use Rattle.std.specs.Prelude.{◌≡◌, option_copied};
ghost use Rattle.bdb_tool_words.specs.Commands.{duplicates_named, record_shape, shape_asked, shape_named};

use bdb_model::{Duplicates, Shape};

/// The data of a key by the options `--duplicates` and `--dupsort`; the second stands for both, as in a header.
pub(crate) fn duplicates_named(several: bool, sorted: bool) -> Duplicates
    ensures { result ≡ duplicates_named several sorted }
{
    match (several, sorted) {
        (_, true) => Duplicates::Sorted,
        (true, false) => Duplicates::Unsorted,
        (false, false) => Duplicates::No,
    }
}

// Records, which have no data beside them.
fn record_shape(duplicates: Duplicates) -> Option<Shape>
    ensures { result ≡ record_shape duplicates }
{
    match duplicates {
        Duplicates::No => Some(Shape::Recno),
        Duplicates::Unsorted | Duplicates::Sorted => None,
    }
}

// The shape of the kind that a word names.
fn shape_named(word: &[u8], duplicates: Duplicates) -> Option<Shape>
    ensures { result ≡ shape_named word.now duplicates }
{
    if word == b"btree".as_slice() {
        Some(Shape::Btree(duplicates))
    } else if word == b"hash".as_slice() {
        Some(Shape::Hash(duplicates))
    } else if word == b"recno".as_slice() {
        record_shape(duplicates)
    } else {
        None
    }
}

/// The shape of a kind, where one is given; without a kind no duplicates are.
pub(crate) fn shape_asked(kind: Option<&[u8]>, duplicates: Duplicates) -> Option<Option<Shape>>
    ensures { result ≡ shape_asked (option_copied kind.entry) duplicates }
{
    match (kind, duplicates) {
        (Some(word), _) => Some(Some(shape_named(word, duplicates)?)),
        (None, Duplicates::No) => Some(None),
        (None, Duplicates::Unsorted | Duplicates::Sorted) => None,
    }
}
