ghost use Rattle.std.specs.Prelude.{◌≡◌, ◌≤◌, ◌+◌, [], ◌∷◌, IfErr, IfOk, OnOk};
ghost use Rattle.bdb_image.specs.of_faults.Refusals.{IsAllOf};
ghost use Rattle.bdb_image.specs.of_faults.Notes.{NotesAll};
ghost use Rattle.bdb_image.specs.of_format.Terms.{IsFirstOf, faults_in, file_of, reference_faults};
ghost use Rattle.bdb_graph.specs.Owned.{AreFew, AreOwned};
ghost use Rattle.bdb_graph.specs.Walked.{IsWalked};

use crate::blanks::blanks_of;
use crate::chain_lengths::lengths_of;
use crate::owned::note_owners;
use crate::reach::note_reach;
use crate::roles::Roles;
use crate::tally::{Kinds, note_references};
use crate::{Forest, Formed, Linked};
use bdb_image::{
    AllError, CheckError, FaultSink, First, Judge, NamedList, Steps, check_error, judged, metas_of,
};
use std::alloc::{AllocError, Global};
use std::sync::ledger::Ledger;

/// The image as one whose pages are a forest. A refusal has what holds of the first of stages 3 to 5 that has any: a reference
/// that doesn't fit, a page without an owner or with too many, or one that isn't reached. It takes at most a step for
/// each page up to the last, which are no more than the whole pages of the image, and 16 bytes for each while it
/// runs, 24 where the file has a table; and the judge's memory. The answer keeps 4 bytes for each page, how many owners it has, the number of each
/// metadata page, in 4 bytes, and where an item names a chain 4 bytes more for each page, the lengths of chains.
pub fn link_by<'a, J: Judge + Drop, L: Ledger>(
    alloc: Global,
    formed: Formed<'a>,
    steps: &mut Steps<L>,
) -> Result<Linked<'a>, J::Refusal>
    ensures linked { IfOk result (λ linked. linked ≡ formed.entry) }
    ensures accepted { OnOk result (faults_in (3 ∷ 4 ∷ 5 ∷ []) formed.entry ≡ []) }
    ensures refusal { IfErr result (J.refuses (faults_in (3 ∷ 4 ∷ 5 ∷ []) formed.entry)) }
    ensures cost { steps.new ≤ steps.old + ((file_of formed.entry).last + 1) }
{
    let mut found = J::begin(alloc);
    let answer = note_graph(alloc, &formed, steps, &mut found);
    let walk = match judged(found, answer) {
        Ok(walk) => walk,
        Err(refusal) => return Err(refusal),
    };
    match walked(alloc, formed, walk) {
        Ok(linked) => Ok(linked),
        Err(_) => Err(J::memory()),
    }
}

/// Links an image as `link_by` does. An error is the first fault: the least page, and there the least row, of the first stage that has one. `Memory` means that
/// memory ran out.
pub fn link<'a, L: Ledger>(
    alloc: Global,
    formed: Formed<'a>,
    steps: &mut Steps<L>,
) -> Result<Linked<'a>, CheckError>
    ensures linked { IfOk result (λ linked. linked ≡ formed.entry) }
    ensures accepted { OnOk result (faults_in (3 ∷ 4 ∷ 5 ∷ []) formed.entry ≡ []) }
    ensures refusal { IfErr result (IsFirstOf (faults_in (3 ∷ 4 ∷ 5 ∷ []) formed.entry)) }
    ensures cost { steps.new ≤ steps.old + ((file_of formed.entry).last + 1) }
{
    match link_by::<First, L>(alloc, formed, steps) {
        Ok(linked) => Ok(linked),
        Err(error) => Err(check_error(error)),
    }
}

/// Links an image as `link_by` does. An error is the list of all rows that hold in the first stage that has
/// one, by page and then by row, each once. `Memory` means that memory ran out, that for the list too.
pub fn link_all<'a, L: Ledger>(
    alloc: Global,
    formed: Formed<'a>,
    steps: &mut Steps<L>,
) -> Result<Linked<'a>, AllError>
    ensures linked { IfOk result (λ linked. linked ≡ formed.entry) }
    ensures accepted { OnOk result (faults_in (3 ∷ 4 ∷ 5 ∷ []) formed.entry ≡ []) }
    ensures refusal { IfErr result (IsAllOf (faults_in (3 ∷ 4 ∷ 5 ∷ []) formed.entry)) }
    ensures cost { steps.new ≤ steps.old + ((file_of formed.entry).last + 1) }
{
    link_by::<NamedList, L>(alloc, formed, steps)
}

/// What the walk over the references of a file tells: what they name, and how many owners each page has.
#[derive(Drop)]
struct Walk {
    kinds: Kinds,
    owned: Vec<u32>,
}

/// The image as one whose pages are a forest, with what its references tell.
fn walked<'a>(alloc: Global, formed: Formed<'a>, walk: Walk) -> Result<Linked<'a>, AllocError>
    requires walked { IsWalked formed walk.kinds }
    requires owned { AreOwned (file_of formed) walk.owned.items }
    ensures { IfOk result (λ linked. linked ≡ formed.entry) }
{
    let metas = metas_of(alloc, &formed)?;
    let lengths = lengths_of(alloc, &formed, walk.kinds)?;
    let blanks = if lengths.has_blank {
        Some(blanks_of(alloc, &formed)?)
    } else {
        None
    };
    Ok(Linked::over(
        Forest::over(formed, walk.kinds, blanks),
        metas,
        walk.owned,
        lengths.kept,
    ))
}

/// Notes the faults of the first of stages 3 to 5 that has any, in one step for each page, and tells what the
/// references tell. An error means that memory ran out. It takes 16 bytes for each page, 24 where the file has a table.
fn note_graph<L: Ledger, F: FaultSink>(
    alloc: Global,
    formed: &Formed<'_>,
    steps: &mut Steps<L>,
    found: &mut F,
) -> Result<Walk, AllocError>
    requires new { F.has_noted found.old [] }
    ensures noted { OnOk result (NotesAll (F.has_noted found.old) (F.has_noted found.new) (faults_in (3 ∷ 4 ∷ 5 ∷ []) formed.now)) }
    ensures walked { IfOk result (λ walk. faults_in (3 ∷ 4 ∷ 5 ∷ []) formed.now ≡ [] → IsWalked formed.now walk.kinds) }
    ensures owned { IfOk result (λ walk. faults_in (3 ∷ 4 ∷ 5 ∷ []) formed.now ≡ [] → AreOwned (file_of formed.now) walk.owned.items) }
    ensures cost { steps.new ≤ steps.old + ((file_of formed.now).last + 1) }
{
    let (tallies, kinds) = note_references(alloc, formed, steps, found)?;
    if !found.is_empty() {
        return Ok(Walk {
            kinds,
            owned: Vec::new(alloc),
        });
    }
    let roles = Roles::of(formed.again(), tallies);
    note_roles(alloc, &roles, found)?;
    let owned = roles.counts(alloc)?;
    Ok(Walk { kinds, owned })
}

/// Notes the faults of stage 4, or else of stage 5. An error means that memory ran out.
fn note_roles<F: FaultSink>(
    alloc: Global,
    roles: &Roles<'_>,
    found: &mut F,
) -> Result<(), AllocError>
    requires new { F.has_noted found.old [] }
    requires fit { reference_faults (file_of roles.now) ≡ [] }
    ensures noted { OnOk result (NotesAll (F.has_noted found.old) (F.has_noted found.new) (faults_in (4 ∷ 5 ∷ []) roles.now)) }
    ensures few { OnOk result (AreFew (file_of roles.now) ((file_of roles.now).last + 1)) }
{
    note_owners(roles, found)?;
    if found.is_empty() {
        note_reach(alloc, roles, found)?;
    }
    Ok(())
}
