ghost use Rattle.std.specs.Prelude.{◌≡◌, ◌≤◌, ◌<◌, ◌+◌, ℕ, true, length, List, [], ◌∷◌, ◌++◌, map, IfOk, OnOk};
ghost use Rattle.bdb_image.specs.of_faults.Notes.{NotesAll};
ghost use Rattle.bdb_graph.specs.Leaps.{AreKnownIfAny, full_at, is_full};
ghost use Rattle.bdb_image.specs.Noted.{misfits_of};
ghost use Rattle.bdb_graph.specs.Tallies.{AreTallies, AreTalliesOf, IsTally, first_of, owner};
ghost use Rattle.bdb_image.specs.of_format.Terms.{Owner, all_references, file_of, fit_code, is_head_reference, reference_faults, refs};
ghost use Rattle.bdb_graph.specs.Walked.{AreKinds, is_set_reference};

use crate::table::{BucketPages, tally_table};
use crate::{Formed, references};
use bdb_image::{FaultSink, Misfits, Reference, Sort, Steps, misfit};
use std::alloc::{AllocError, Global};
use std::sync::ledger::Ledger;

/// What is counted of the references to a page, in 12 bytes.
#[derive(Clone, Copy, Debug)]
pub(crate) struct Tally {
    /// How many there are; from 2^32 - 1 on it stands still, and on a full page it may stand still before.
    pub(crate) count: u32,
    /// The page that holds the first, where there is one.
    first: u32,
    /// Each of them names the page as the head of a chain.
    pub(crate) heads_alone: bool,
}

/// What some reference of the file names: the head of a chain, the root of a set.
#[derive(Clone, Copy, Debug)]
pub struct Kinds {
    chains: bool,
    sets: bool,
}

impl Kinds {
    /// No reference yet.
    fn none() -> Kinds
        ensures { AreKinds result [] }
    {
        Kinds {
            chains: false,
            sets: false,
        }
    }

    /// The kinds after one more reference.
    fn with(self, sort: Sort) -> Kinds
        ensures { (os : List Owner) (o : Owner) → o.reference.sort ≡ sort → AreKinds self os → AreKinds result (os ++ o ∷ []) }
    {
        Kinds {
            chains: self.chains || is_head(sort),
            sets: self.sets || is_set(sort),
        }
    }

    /// Whether some reference names the head of a chain.
    pub(crate) fn chains(self) -> bool
        ensures { result ≡ self.chains }
    {
        self.chains
    }

    /// Whether some reference names the root of a set.
    pub(crate) fn sets(self) -> bool
        ensures { result ≡ self.sets }
    {
        self.sets
    }
}

impl Tally {
    /// The page that holds the first reference, if there is one.
    pub(crate) fn first(self) -> Option<u32>
        ensures { result ≡ first_of self }
    {
        if self.count == 0 {
            None
        } else {
            Some(self.first)
        }
    }

    /// Whether there are two and more, not all of them to the head of a chain: of such a page no more is told.
    pub(crate) fn is_full(self) -> bool
        ensures { result ≡ is_full self }
    {
        self.count > 1 && !self.heads_alone
    }
}

/// Notes the references that don't fit, and tells the tallies of pages 0 to the last: the one walk over the
/// references of the file, with one step for each page. An error means that memory ran out. It takes 12 bytes for each page, and
/// as many more while it runs over a file with a table.
pub(crate) fn note_references<L: Ledger, F: FaultSink>(
    alloc: Global,
    formed: &Formed<'_>,
    steps: &mut Steps<L>,
    found: &mut F,
) -> Result<(Vec<Tally>, Kinds), AllocError>
    ensures noted { OnOk result (NotesAll (F.has_noted found.old) (F.has_noted found.new) (reference_faults (file_of formed.now))) }
    ensures tallies { IfOk result (λ walk. AreTalliesOf (file_of formed.now) walk.0.items) }
    ensures kinds { IfOk result (λ walk. AreKinds walk.1 (all_references (file_of formed.now))) }
    ensures cost { steps.new ≤ steps.old + ((file_of formed.now).last + 1) }
{
    let pages = formed.head().last + 1;
    let mut tallies = vec![in alloc; no_owner(); pages as usize]?;
    let mut kinds = Kinds::none();
    let mut known = None;
    for page in 0..pages {
        let misfits = tally_page(
            alloc,
            formed,
            &mut tallies,
            &mut known,
            &mut kinds,
            page,
            steps,
        )?;
        misfits.note(page, found)?;
    }
    Ok((tallies, kinds))
}

/// Adds the references of one page to the tallies of the pages that they name, in one step: those to the buckets of a
/// table by runs, the others one by one. The answer is with which rows they fail.
fn tally_page<L: Ledger>(
    alloc: Global,
    formed: &Formed<'_>,
    tallies: &mut [Tally],
    known: &mut Option<BucketPages>,
    kinds: &mut Kinds,
    holder: u32,
    steps: &mut Steps<L>,
) -> Result<Misfits, AllocError>
    requires holder { holder ≤ (file_of formed.now).last }
    requires len { length tallies.old ≡ (file_of formed.now).last + 1 }
    requires known { AreKnownIfAny (file_of formed.now) tallies.old known.old }
    ensures kinds { OnOk result ((os : List Owner) → AreKinds kinds.old os → AreKinds kinds.new (os ++ map (owner holder) (refs (file_of formed.now) holder))) }
    ensures tallies { OnOk result ((os : List Owner) → AreTallies tallies.old os
        → AreTallies tallies.new (os ++ map (owner holder) (refs (file_of formed.now) holder))) }
    ensures known { OnOk result (AreKnownIfAny (file_of formed.now) tallies.new known.new) }
    ensures misfits { IfOk result (λ misfits. misfits ≡ misfits_of (fit_code (file_of formed.now) holder) (refs (file_of formed.now) holder)) }
    ensures cost { steps.new ≡ steps.old + 1 }
{
    let (others, buckets) = references(formed, holder, steps).apart();
    let mut misfits = Misfits::none();
    for reference in others {
        note(tallies, holder, reference);
        *kinds = kinds.with(reference.sort);
        misfits = misfits.with(misfit(formed, holder, reference));
    }
    let of_table = tally_table(alloc, formed, tallies, known, holder, buckets)?;
    Ok(misfits.both(of_table))
}

/// Adds a reference to the tally of the page that it names, if that page is there. A full page stays so.
fn note(tallies: &mut [Tally], holder: u32, reference: Reference)
    ensures tallies { (os : List Owner) → AreTallies tallies.old os → AreTallies tallies.new (os ++ owner holder reference ∷ []) }
    ensures full { (p : ℕ) → full_at tallies.old p ≡ true → full_at tallies.new p ≡ true }
{
    if reference.target < tallies.len() as u64 {
        note_at(tallies, reference.target as usize, holder, reference.sort);
    }
}

/// Adds a reference to the tally of a page. A full page stays so.
pub(crate) fn note_at(tallies: &mut [Tally], page: usize, holder: u32, sort: Sort)
    requires { page < length tallies.old }
    ensures tallies { (os : List Owner) (o : Owner) → o.holder ≡ holder → o.reference.sort ≡ sort → o.reference.target ≡ page
        → AreTallies tallies.old os → AreTallies tallies.new (os ++ o ∷ []) }
    ensures full { (p : ℕ) → full_at tallies.old p ≡ true → full_at tallies.new p ≡ true }
{
    tallies[page] = with_owner(tallies[page], holder, sort);
}

/// The tally of a page without owners.
fn no_owner() -> Tally
    ensures { IsTally result [] }
{
    Tally {
        count: 0,
        first: 0,
        heads_alone: true,
    }
}

/// The tally after one more owner.
fn with_owner(tally: Tally, holder: u32, sort: Sort) -> Tally
    ensures tally { (os : List Owner) (o : Owner) → o.holder ≡ holder → o.reference.sort ≡ sort → IsTally tally os → IsTally result (os ++ o ∷ []) }
    ensures full { is_full tally ≡ true → is_full result ≡ true }
{
    Tally {
        count: tally.count.saturating_add(1),
        first: if tally.count == 0 {
            holder
        } else {
            tally.first
        },
        heads_alone: tally.heads_alone && is_head(sort),
    }
}

/// A reference of this sort is to the head of a chain.
fn is_head(sort: Sort) -> bool
    ensures { result ≡ is_head_reference sort }
{
    matches!(sort, Sort::OverflowHead)
}

/// A reference of this sort is to the root of a set.
fn is_set(sort: Sort) -> bool
    ensures { result ≡ is_set_reference sort }
{
    matches!(sort, Sort::DuplicateRoot)
}
