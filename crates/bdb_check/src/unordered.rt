ghost use Rattle.std.specs.Prelude.{◌≡◌, [], ℕ};
ghost use Rattle.bdb_any_order.specs.AnyOrder.{is_of_order, is_row};
ghost use Rattle.bdb_any_order.specs.Noted.{HasNotedOthers};
ghost use Rattle.bdb_recno.specs.of_format.Terms.{fault_at};
ghost use Rattle.bdb_recno.specs.of_format.declared.rows.Row.TheVariants.{Contents};

use bdb_recno::{ContentsRow, FaultSink, Row};
use std::alloc::AllocError;

/// A sink that takes no notice of rows of order. All others are noted in the sink behind it.
#[derive(Drop)]
pub(crate) struct Unordered<F> {
    found: F,
    is_empty: bool,
}

/// Whether a row of stage 8 says in which order keys or data stand.
fn tells_order(row: ContentsRow) -> bool
    ensures { (page : ℕ) → result ≡ is_of_order (fault_at (Contents row) page) }
{
    match row {
        ContentsRow::KeyOrder | ContentsRow::Separator | ContentsRow::DuplicateOrder => true,
        ContentsRow::Duplicates
        | ContentsRow::DuplicateKind
        | ContentsRow::Count
        | ContentsRow::RecordLength
        | ContentsRow::Bucket
        | ContentsRow::KeyTwice => false,
    }
}

/// Whether a row of any stage says so.
fn is_of_order(row: Row) -> bool
    ensures { (page : ℕ) → result ≡ is_of_order (fault_at row page) }
{
    match row {
        Row::Contents(row) => tells_order(row),
        _ => false,
    }
}

impl<F: FaultSink> Unordered<F> {
    /// Nothing was noted yet, nor in the sink behind it.
    pub(crate) fn before(found: F) -> Unordered<F>
        requires { F.has_noted found [] }
        ensures { HasNotedOthers F.has_noted result.found result.is_empty [] }
    {
        Unordered {
            found,
            is_empty: true,
        }
    }

    /// The sink behind it.
    pub(crate) fn into_sink(self) -> F
        ensures { result ≡ self.found }
    {
        self.found
    }
}

impl<F: FaultSink> FaultSink for Unordered<F> {
    ghost has_noted = { λ sink faults. HasNotedOthers F.has_noted sink.found sink.is_empty faults };

    ghost takes_memory = { F.takes_memory };

    fn note(&mut self, row: Row, page: u32) -> Result<(), AllocError> {
        self.is_empty = false;
        if is_of_order(row) {
            return Ok(());
        }
        self.found.note(row, page)
    }

    fn is_empty(&self) -> bool {
        self.is_empty
    }
}
