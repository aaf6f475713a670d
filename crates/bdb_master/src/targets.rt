ghost use Rattle.std.specs.Prelude.{◌≡◌, OnOk};
ghost use Rattle.std.specs.Option.{option_map};
ghost use Rattle.bdb_btree.specs.of_faults.Notes.{NotesAll};
ghost use Rattle.bdb_format.specs.Terms.{fault_seen, file_of, is_meta, is_named_kind};
ghost use Rattle.bdb_master.specs.Entries.{by_target, target_fault};
ghost use Rattle.bdb_btree.specs.of_form.Seen.{page_seen};

use crate::entry::MasterEntry;
use crate::noting::note_given;
use bdb_btree::{FaultSink, Linked, PageView};
use bdb_format::{MasterRow, Named, Row};
use std::alloc::AllocError;

fn is_meta(view: &PageView<'_>) -> bool
    ensures { result ≡ is_meta (page_seen view.now) }
{
    matches!(view, PageView::Meta(_))
}

/// Whether this page is a metadata page above page 0.
#[tactic(auto, using(crate::proofs::TargetLemmas::not_there))]
fn is_named_kind(linked: &Linked<'_>, page: u32) -> bool
    ensures { result ≡ is_named_kind (file_of linked.now) page }
{
    if page > linked.head().last {
        return false;
    }
    page > 0 && is_meta(&linked.page(page))
}

/// The fault of a master's pair on this page that names another, if it has one.
fn target_fault(linked: &Linked<'_>, page: u32, names: Option<u32>) -> Option<Named>
    ensures { option_map fault_seen result ≡ target_fault (file_of linked.now) page names }
{
    match names {
        Some(named) if is_named_kind(linked, named) => None,
        Some(_) => Some(Row::Master(MasterRow::EntryTarget).at(page)),
        None => Some(Row::Master(MasterRow::EntrySize).at(page)),
    }
}

/// Notes the master's pairs that name no metadata page above page 0.
pub(crate) fn note_targets<F: FaultSink>(
    linked: &Linked<'_>,
    entries: &[MasterEntry<'_>],
    found: &mut F,
) -> Result<(), AllocError>
    ensures { OnOk result (NotesAll (F.has_noted found.old) (F.has_noted found.new) (by_target (file_of linked.now) entries.now)) }
{
    for entry in entries {
        note_given(target_fault(linked, entry.page(), entry.names()), found)?;
    }
    Ok(())
}
