ghost use Rattle.std.specs.Prelude.{◌≡◌, ◌≤◌, [], IfErr, IsTrue, OnErr, OnOk, Some};
ghost use Rattle.bdb_graph.specs.of_faults.Notes.{HasNoted};
ghost use Rattle.bdb_graph.specs.of_faults.Notes.{Notes, NotesAll};
ghost use Rattle.bdb_graph.specs.of_format.Terms.{chain_faults, file_of, first_fault};
ghost use Rattle.bdb_graph.specs.of_image.Linked.{IsForest};
ghost use Rattle.bdb_overflow.specs.Lengths.{faults_at};

use crate::lengths::has_wrong;
use bdb_graph::{
    Fault, FaultSink, First, FirstError, Linked, NamedList, Row, StructureRow, judged,
};
use std::alloc::AllocError;

/// Checks that each chain has the length that the items that name it tell. A refusal is the first fault: the
/// least page of which an item tells another. No memory is taken.
pub fn check_chains(linked: &Linked<'_>) -> Result<(), Fault>
    ensures accepted { OnOk result (chain_faults (file_of linked.now) ≡ []) }
    ensures refusal { IfErr result (λ fault. first_fault (chain_faults (file_of linked.now)) ≡ Some fault) }
{
    let mut first = First::new();
    let answer = note_chains(linked, &mut first);
    match judged(first, answer) {
        Ok(()) => Ok(()),
        Err(FirstError::Fault(named)) => Err(named.fault()),
        // Such a sink takes no memory.
        Err(FirstError::Memory) => unreachable!(),
    }
}

/// Notes each page of which an item tells another length than its chain has, in a list of all. An error means
/// that memory ran out.
pub fn chain_faults(linked: &Linked<'_>, found: &mut NamedList) -> Result<(), AllocError>
    ensures { OnOk result (NotesAll (HasNoted found.old) (HasNoted found.new) (chain_faults (file_of linked.now))) }
{
    note_chains(linked, found)
}

/// Notes each page of which an item tells another length than its chain has. An error means that memory ran
/// out for the sink; no other memory is taken.
#[tactic(auto, using(crate::proofs::UnchainedLemmas::nothing_to_note))]
pub fn note_chains<F: FaultSink>(linked: &Linked<'_>, found: &mut F) -> Result<(), AllocError>
    ensures noted { OnOk result (NotesAll (F.has_noted found.old) (F.has_noted found.new) (chain_faults (file_of linked.now))) }
    ensures refused { OnErr result (IsTrue F.takes_memory) }
{
    let forest = linked.forest();
    // Most files have no chain, and then no item needs another look.
    if !forest.has_chains() {
        return Ok(());
    }
    note_pages(linked, found)
}

/// The same, page by page.
fn note_pages<F: FaultSink>(linked: &Linked<'_>, found: &mut F) -> Result<(), AllocError>
    ensures noted { OnOk result (NotesAll (F.has_noted found.old) (F.has_noted found.new) (chain_faults (file_of linked.now))) }
    ensures refused { OnErr result (IsTrue F.takes_memory) }
{
    let last = linked.head().last;
    for page in 0..=last {
        note_page(linked, page, found)?;
    }
    Ok(())
}

/// Notes a page, where an item of it tells another length than its chain has.
fn note_page<F: FaultSink>(linked: &Linked<'_>, page: u32, found: &mut F) -> Result<(), AllocError>
    requires forest { IsForest linked.now }
    requires there { page ≤ (file_of linked.now).last }
    ensures noted { OnOk result (Notes (F.has_noted found.old) (F.has_noted found.new) (faults_at (file_of linked.now) page)) }
    ensures refused { OnErr result (IsTrue F.takes_memory) }
{
    if has_wrong(linked, page) {
        found.note(Row::Structure(StructureRow::ChainLength), page)?;
    }
    Ok(())
}
