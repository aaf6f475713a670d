ghost use Rattle.std.specs.Prelude.{OnOk};
ghost use Rattle.bdb_recno.specs.of_faults.Notes.{NotesAll};
ghost use Rattle.bdb_recno.specs.of_format.Terms.{file_of, structure_faults};

use bdb_recno::{FaultSink, Linked, note_chains, note_trees};
use std::alloc::{AllocError, Global};

/// Notes the faults of stage 6: chains without their lengths, and leaves without their kinds or neighbours. An error is want
/// of memory.
pub(crate) fn note_structure<F: FaultSink>(
    alloc: Global,
    linked: &Linked<'_>,
    found: &mut F,
) -> Result<(), AllocError>
    ensures { OnOk result (NotesAll (F.has_noted found.old) (F.has_noted found.new) (structure_faults (file_of linked.now))) }
{
    note_chains(linked, found)?;
    note_trees(alloc, linked, found)?;
    Ok(())
}
