ghost use Rattle.std.specs.Prelude.{◌≡◌, [], None, OnOk, Some, if◌then◌else◌};
ghost use Rattle.bdb_btree.specs.Held.{AreKeyed};
ghost use Rattle.std.specs.Option.{option_map};
ghost use Rattle.bdb_btree.specs.of_faults.Notes.{NotesAll};
ghost use Rattle.bdb_format.specs.Terms.{fault_seen, file_of, structure_faults};
ghost use Rattle.bdb_master.specs.Entries.{by_repeat, fault_at, live_entries, master_entries};

use crate::entry::master_of;
use crate::noting::note_given;
use crate::seen_names::SeenNames;
use bdb_btree::{FaultSink, Forest, HeldPairs, Linked, pairs};
use bdb_format::{Fault, MasterRow, Named, Row};
use bdb_overflow::{is_deleted, leaf_held};
use std::alloc::{AllocError, Global};

/// The fault of a pair on this leaf, unless its key is new.
fn repeat_on(page: u32, is_new: bool) -> Option<Named>
    ensures { option_map fault_seen result ≡ (if is_new then None else Some (fault_at page 4)) }
{
    if is_new {
        return None;
    }
    Some(Row::Master(MasterRow::NameTwice).at(page))
}

/// Notes those of these pairs that are live and have the key of an earlier one. An error means that memory ran out.
#[tactic(auto, using(bdb_btree::proofs::HeldLemmas::first_keyed, bdb_btree::proofs::HeldLemmas::rest_keyed))]
fn note_repeated<'a, F: FaultSink>(
    alloc: Global,
    forest: Forest<'a>,
    pairs: HeldPairs<'a>,
    found: &mut F,
) -> Result<(), AllocError>
    requires { AreKeyed (file_of forest) pairs }
    ensures { OnOk result (NotesAll (F.has_noted found.old) (F.has_noted found.new) (by_repeat (live_entries (file_of forest.entry) pairs.entry))) }
{
    let mut names = SeenNames::new(alloc, forest);
    for pair in pairs {
        if !is_deleted(&pair.value) {
            let is_new = names.add(leaf_held(&pair.key))?;
            note_given(repeat_on(pair.page, is_new), found)?;
        }
    }
    Ok(())
}

/// Notes the master's pairs that have the key of an earlier one. An error means that memory ran out.
pub(crate) fn note_repeats<F: FaultSink>(
    alloc: Global,
    linked: &Linked<'_>,
    found: &mut F,
) -> Result<(), AllocError>
    requires { structure_faults (file_of linked.now) ≡ [] }
    ensures { OnOk result (NotesAll (F.has_noted found.old) (F.has_noted found.new) (by_repeat (master_entries (file_of linked.now)))) }
{
    if let Some(meta) = master_of(linked) {
        note_repeated(alloc, linked.forest(), pairs(linked, &meta), found)?;
    }
    Ok(())
}
