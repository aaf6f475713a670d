ghost use Rattle.std.specs.Prelude.{◌≡◌, [], OnOk};
ghost use Rattle.bdb_btree.specs.of_faults.Notes.{NotesAll};
ghost use Rattle.bdb_master.specs.Entries.{master_entries};
ghost use Rattle.bdb_format.specs.Terms.{file_of, master_faults, structure_faults};

use crate::counts::note_naming;
use crate::entry::MasterEntry;
use crate::repeats::note_repeats;
use crate::targets::note_targets;
use bdb_btree::{FaultSink, Linked};
use std::alloc::{AllocError, Global};

/// Notes the faults of stage 7, by the entries of the master. An error means that memory ran out: a byte for each page, and
/// what the keys take.
pub fn note_master<F: FaultSink>(
    alloc: Global,
    linked: &Linked<'_>,
    entries: &[MasterEntry<'_>],
    found: &mut F,
) -> Result<(), AllocError>
    requires structure { structure_faults (file_of linked.now) ≡ [] }
    requires entries { entries.now ≡ master_entries (file_of linked.now) }
    ensures { OnOk result (NotesAll (F.has_noted found.old) (F.has_noted found.new) (master_faults (file_of linked.now))) }
{
    note_naming(alloc, linked, entries, found)?;
    note_targets(linked, entries, found)?;
    note_repeats(alloc, linked, found)?;
    Ok(())
}
