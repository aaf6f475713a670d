ghost use Rattle.std.specs.Prelude.{◌≡◌, ◌≤◌, ◌+◌, ◌&&◌, ◌||◌, not, IsTrue, OnErr, OnOk};
ghost use Rattle.bdb_image.specs.of_faults.Notes.{NotesAll};
ghost use Rattle.bdb_image.specs.of_format.Terms.{file_of, is_anchor, is_owned_twice, is_reserve, is_shared_too_often, is_unowned, ownership_faults};
ghost use Rattle.bdb_image.specs.of_format.Terms.{ownership_rows};
ghost use Rattle.bdb_image.specs.of_format.ByPage.{holding};
ghost use Rattle.bdb_image.specs.Noted.{page_faults};
ghost use Rattle.bdb_graph.specs.Owned.{AreFew, IsFew};

use crate::roles::Roles;
use bdb_image::{FaultSink, OwnershipRow, Row, note_if};
use std::alloc::AllocError;

/// Notes the pages from 1 on that have no owner and need one, or more than they may have.
pub(crate) fn note_owners<F: FaultSink>(roles: &Roles<'_>, found: &mut F) -> Result<(), AllocError>
    ensures noted { OnOk result (NotesAll (F.has_noted found.old) (F.has_noted found.new) (ownership_faults (file_of roles.now))) }
    ensures few { OnOk result (AreFew (file_of roles.now) ((file_of roles.now).last + 1)) }
    ensures refused { OnErr result (IsTrue F.takes_memory) }
{
    for page in 1..roles.head().last + 1 {
        note_owned(roles, page, found)?;
    }
    Ok(())
}

/// Notes the rows of ownership that hold at a page.
fn note_owned<F: FaultSink>(roles: &Roles<'_>, page: u32, found: &mut F) -> Result<(), AllocError>
    requires { page ≤ (file_of roles.now).last }
    ensures noted { OnOk result (NotesAll (F.has_noted found.old) (F.has_noted found.new)
        (page_faults 4 page (holding (ownership_rows (file_of roles.now) page)))) }
    ensures few { OnOk result (IsFew (file_of roles.now) page) }
    ensures refused { OnErr result (IsTrue F.takes_memory) }
{
    note_if(
        found,
        Row::Ownership(OwnershipRow::NoOwner),
        page,
        lacks_owner(roles, page),
    )?;
    note_if(
        found,
        Row::Ownership(OwnershipRow::TooMany),
        page,
        has_too_many(roles, page),
    )?;
    Ok(())
}

/// Whether a page without an owner is neither an anchor nor a reserve.
#[tactic(auto, using(bdb_image::proofs::RoleLemmas::counts_none))]
fn lacks_owner(roles: &Roles<'_>, page: u32) -> bool
    requires { page ≤ (file_of roles.now).last }
    ensures { result ≡ (not (is_anchor (file_of roles.now) page) && not (is_reserve (file_of roles.now) page) && is_unowned (file_of roles.now) page) }
{
    roles.tally(page).count == 0 && !roles.is_top(page)
}

/// Whether a page has more owners than it may have: a chain as many as its head counts, another page one.
fn has_too_many(roles: &Roles<'_>, page: u32) -> bool
    requires { page ≤ (file_of roles.now).last }
    ensures many { result ≡ (is_shared_too_often (file_of roles.now) page || is_owned_twice (file_of roles.now) page) }
    ensures few { IsFew (file_of roles.now) page }
{
    let tally = roles.tally(page);
    if tally.heads_alone {
        tally.count > u32::from(roles.page(page).entries())
    } else {
        tally.count > 1
    }
}
