ghost use Rattle.std.specs.Prelude.{◌≡◌, [], IfErr, IsTrue, OnOk};
ghost use Rattle.bdb_faults.specs.Notes.{HasNoted};
ghost use Rattle.bdb_faults.specs.Notes.{NotesAll};
ghost use Rattle.bdb_tree.specs.of_image.Linked.{HasMetadata};
ghost use Rattle.bdb_tree.specs.of_format.Terms.{BtreeFields, IsFirstOf, database_faults, file_of, is_recno, structure_faults};

use crate::counts::note_counts;
use crate::lengths::note_lengths;
use crate::page::pages_of;
use bdb_faults::{FaultSink, First, NamedList, checked};
use bdb_tree::{BtreeMeta, CheckError, Linked};
use std::alloc::AllocError;

/// The contents of a recno: the counts of its internal pages and, where records have a fixed length, the
/// lengths of the live ones. A refusal is the first fault. No memory is taken.
pub fn check(linked: &Linked<'_>, meta: &BtreeMeta) -> Result<(), CheckError>
    requires meta { HasMetadata (file_of linked.now) (BtreeFields meta.now) }
    requires recno { IsTrue (is_recno meta.now) }
    requires stage { structure_faults (file_of linked.now) ≡ [] }
    ensures accepted { OnOk result (database_faults (file_of linked.now) (BtreeFields meta.now) ≡ []) }
    ensures refusal { IfErr result (IsFirstOf (database_faults (file_of linked.now) (BtreeFields meta.now))) }
{
    let mut first = First::new();
    let answer = note_contents(linked, meta, &mut first);
    checked(first, answer)
}

/// Notes each row on what a recno holds at each page where it holds, in a list of all. An error means that memory ran out.
pub fn all_faults(
    linked: &Linked<'_>,
    meta: &BtreeMeta,
    found: &mut NamedList,
) -> Result<(), AllocError>
    requires meta { HasMetadata (file_of linked.now) (BtreeFields meta.now) }
    requires recno { IsTrue (is_recno meta.now) }
    requires stage { structure_faults (file_of linked.now) ≡ [] }
    ensures { OnOk result (NotesAll (HasNoted found.old) (HasNoted found.new) (database_faults (file_of linked.now) (BtreeFields meta.now))) }
{
    note_contents(linked, meta, found)
}

/// Notes each row on what a recno holds at each page where it holds: the counts of its internal pages and, where records
/// have a fixed length, the lengths of the live ones. An error means that memory ran out, the sink's: no other is taken.
pub fn note_contents<F: FaultSink>(
    linked: &Linked<'_>,
    meta: &BtreeMeta,
    found: &mut F,
) -> Result<(), AllocError>
    requires meta { HasMetadata (file_of linked.now) (BtreeFields meta.now) }
    requires recno { IsTrue (is_recno meta.now) }
    requires stage { structure_faults (file_of linked.now) ≡ [] }
    ensures { OnOk result (NotesAll (F.has_noted found.old) (F.has_noted found.new) (database_faults (file_of linked.now) (BtreeFields meta.now))) }
{
    let forest = pages_of(linked, meta);
    note_counts(&forest, meta.root, found)?;
    note_lengths(linked, &forest, meta, found)?;
    Ok(())
}
