ghost use Rattle.std.specs.Prelude.{◌≡◌, [], IfErr, OnOk};
ghost use Rattle.bdb_faults.specs.Notes.{HasNoted};
ghost use Rattle.bdb_faults.specs.Notes.{NotesAll};
ghost use Rattle.bdb_overflow.specs.of_format.Terms.{IsFirstOf, file_of, tree_faults};

use crate::trees::{note_all_sets, note_metas};
use bdb_faults::{FaultSink, First, NamedList, checked};
use bdb_overflow::{CheckError, Linked};
use std::alloc::{AllocError, Global};

/// Notes each row on leaves of trees at each page where it holds, in any order and repeats allowed: a type that the
/// tree hasn't, and a neighbour that isn't the one in the tree. An error means that memory ran out: the sink's, or that of
/// the leaves of one tree at a time.
pub fn note_trees<F: FaultSink>(
    alloc: Global,
    linked: &Linked<'_>,
    found: &mut F,
) -> Result<(), AllocError>
    ensures { OnOk result (NotesAll (F.has_noted found.old) (F.has_noted found.new) (tree_faults (file_of linked.now))) }
{
    note_metas(alloc, linked, found)?;
    note_all_sets(alloc, &linked.forest(), found)?;
    Ok(())
}

/// Notes each row on leaves of trees at each page where it holds, in a list of all. An error means that memory ran out.
pub fn tree_faults(
    alloc: Global,
    linked: &Linked<'_>,
    found: &mut NamedList,
) -> Result<(), AllocError>
    ensures { OnOk result (NotesAll (HasNoted found.old) (HasNoted found.new) (tree_faults (file_of linked.now))) }
{
    note_trees(alloc, linked, found)
}

/// Checks that each leaf of a tree has a type that the tree may have, and names its neighbours in the tree. A
/// refusal is the first fault: the least page, and there the least code. It keeps the leaves of one tree at a
/// time; `Memory` means that memory ran out.
pub fn check_trees(alloc: Global, linked: &Linked<'_>) -> Result<(), CheckError>
    ensures accepted { OnOk result (tree_faults (file_of linked.now) ≡ []) }
    ensures refusal { IfErr result (IsFirstOf (tree_faults (file_of linked.now))) }
{
    let mut first = First::new();
    let answer = note_trees(alloc, linked, &mut first);
    checked(first, answer)
}
