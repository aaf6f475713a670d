ghost use Rattle.std.specs.Prelude.{IsTrue, OnErr, OnOk};
ghost use Rattle.bdb_faults.specs.Notes.{Notes};
ghost use Rattle.bdb_format.specs.Terms.{fault_if};

use crate::FaultSink;
use bdb_format::Row;
use std::alloc::AllocError;

/// Notes a row at a page, where it holds there. An error means that memory ran out.
#[tactic(auto, using(crate::proofs::SinkLemmas::notes_nothing))]
pub fn note_if<F: FaultSink>(
    found: &mut F,
    row: Row,
    page: u32,
    holds: bool,
) -> Result<(), AllocError>
    ensures noted { OnOk result (Notes (F.has_noted found.old) (F.has_noted found.new) (fault_if row page holds)) }
    ensures refused { OnErr result (IsTrue F.takes_memory) }
{
    if holds {
        found.note(row, page)?;
    }
    Ok(())
}
