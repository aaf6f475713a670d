ghost use Rattle.std.specs.Prelude.{◌≡◌, ◌≤◌, ◌+◌, OnOk, [], length};
ghost use Rattle.bdb_image.specs.of_faults.Notes.{NotesAll};
ghost use Rattle.bdb_graph.specs.Marks.{AreSettled, HasWay, IsFit, IsOnMarks};
ghost use Rattle.bdb_image.specs.of_format.Terms.{file_of, reach_faults, reaches, reference_faults};

use crate::roles::Roles;
use bdb_image::{FaultSink, ReachRow, Row, note_if};
use std::alloc::{AllocError, Global};

/// What is known of a page: nothing, that it stands on the way up that is open, or whether it reaches.
#[derive(Clone, Copy, Debug)]
pub(crate) enum Mark {
    Open,
    Way,
    Known(bool),
}

/// Notes the pages from 1 on that don't reach an anchor or a reserve by the holders of first references. An error is
/// lack of memory. It takes a byte for each page, and comes to each page twice at most, besides the end of each
/// way: once on the way up, and once to mark it, whether it reaches or not.
#[tactic(auto, using(crate::proofs::ReachLemmas::fit_file))]
pub(crate) fn note_reach<F: FaultSink>(
    alloc: Global,
    roles: &Roles<'_>,
    found: &mut F,
) -> Result<(), AllocError>
    requires fit { reference_faults (file_of roles.now) ≡ [] }
    ensures { OnOk result (NotesAll (F.has_noted found.old) (F.has_noted found.new) (reach_faults (file_of roles.now))) }
{
    let mut marks = vec![in alloc; Mark::Open; roles.head().last as usize + 1]?;
    for page in 1..roles.head().last + 1 {
        let reached = reaches(roles, &mut marks, page);
        note_if(found, Row::Reach(ReachRow::Unreached), page, !reached)?;
    }
    Ok(())
}

/// Whether a page reaches. It and all pages above it are marked so.
fn reaches(roles: &Roles<'_>, marks: &mut [Mark], page: u32) -> bool
    requires { IsOnMarks (file_of roles.now) marks.old page }
    ensures reach { result ≡ reaches (file_of roles.now) page }
    ensures settled { AreSettled (file_of roles.now) marks.new }
{
    let reached = leads_up(roles, marks, page);
    mark_way(roles, marks, page, reached);
    reached
}

/// Goes up from a page by the holders of first references, and marks the way, to a page of which it's known whether
/// it reaches, one of this way, or one that has no holder. Whether the page there reaches, and so the one below.
fn leads_up(roles: &Roles<'_>, marks: &mut [Mark], from: u32) -> bool
    requires { IsOnMarks (file_of roles.now) marks.old from }
    ensures reach { result ≡ reaches (file_of roles.now) from }
    ensures way { HasWay from (file_of roles.now) marks.new }
{
    let mut at = from;
    'up: loop {
        match marks[at as usize] {
            Mark::Open => {
                marks[at as usize] = Mark::Way;
                match roles.first_holder(at) {
                    Some(holder) => at = holder,
                    None => return roles.is_top(at),
                }
            }
            Mark::Way => return false,
            Mark::Known(reached) => return reached,
        }
    }
}

/// Marks the pages of a way, from a page up to one that is marked before, as ones that reach or don't.
fn mark_way(roles: &Roles<'_>, marks: &mut [Mark], from: u32, reached: bool)
    requires page { from ≤ (file_of roles.now).last }
    requires fit { IsFit (file_of roles.now) }
    requires len { length marks.old ≡ (file_of roles.now).last + 1 }
    requires way { HasWay from (file_of roles.now) marks.old }
    requires reach { reached ≡ reaches (file_of roles.now) from }
    ensures { AreSettled (file_of roles.now) marks.new }
{
    let mut at = from;
    'up: loop {
        match marks[at as usize] {
            Mark::Known(_) => return,
            Mark::Open | Mark::Way => {
                marks[at as usize] = Mark::Known(reached);
                match roles.first_holder(at) {
                    Some(holder) => at = holder,
                    None => return,
                }
            }
        }
    }
}
