ghost use Rattle.std.specs.Prelude.{◌≡◌, [], ◌∷◌, IfErr, IfOk, OnOk};
ghost use Rattle.bdb_any_order.specs.AnyOrder.{stages_by};
ghost use Rattle.bdb_recno.specs.of_faults.Notes.{HasJust};
ghost use Rattle.bdb_master.specs.Entries.{master_entries};
ghost use Rattle.bdb_recno.specs.of_format.Terms.{file_of};

use crate::contents::note_contents;
use crate::structure::note_structure;
use bdb_any_order::Rows;
use bdb_master::{MasterEntry, master_entries, note_master};
use bdb_recno::{FaultSink, Judge, Linked};
use std::alloc::{AllocError, Global};

/// A sink after stages 6 to 8, and the entries of the master where none of them has faults that count.
#[derive(Drop)]
pub(crate) struct Checked<'a, F> {
    pub(crate) found: F,
    pub(crate) entries: Vec<MasterEntry<'a>>,
}

/// Notes the faults of the first of stages 6 to 8 that has any that count. An error means that memory ran out. While it runs it takes a byte
/// for each page, memory for each live pair of the master, and what the checks of trees and of each database take.
pub(crate) fn note_file<'a, F: FaultSink + Drop>(
    alloc: Global,
    linked: &Linked<'a>,
    rows: Rows,
    found: F,
) -> Result<Checked<'a, F>, AllocError>
    requires { F.has_noted found [] }
    ensures noted { IfOk result (λ checked. HasJust (F.has_noted checked.found) (stages_by rows (6 ∷ 7 ∷ []) linked.now)) }
    ensures entries { IfOk result (λ checked. stages_by rows (6 ∷ 7 ∷ []) linked.now ≡ [] → checked.entries.items ≡ master_entries (file_of linked.now)) }
{
    let mut found = found;
    note_structure(alloc, linked, &mut found)?;
    if !found.is_empty() {
        let entries = Vec::new(alloc);
        return Ok(Checked { found, entries });
    }
    let entries = master_entries(alloc, linked)?;
    note_master(alloc, linked, &entries, &mut found)?;
    if found.is_empty() {
        found = note_contents(alloc, linked, rows, found)?;
    }
    Ok(Checked { found, entries })
}

/// The entries of the master of a file in which no row of stages 6 to 8 that counts holds. A refusal has what holds of the
/// first stage that has any.
pub fn entries_by<'a, J: Judge + Drop>(
    alloc: Global,
    linked: &Linked<'a>,
    rows: Rows,
) -> Result<Vec<MasterEntry<'a>>, J::Refusal>
    ensures entries { IfOk result (λ entries. entries.items ≡ master_entries (file_of linked.now)) }
    ensures accepted { OnOk result (stages_by rows (6 ∷ 7 ∷ []) linked.now ≡ []) }
    ensures refusal { IfErr result (J.refuses (stages_by rows (6 ∷ 7 ∷ []) linked.now)) }
{
    let Ok(checked) = note_file(alloc, linked, rows, J::begin(alloc)) else {
        return Err(J::memory());
    };
    let Checked { found, entries } = checked;
    match found.judge() {
        Ok(()) => Ok(entries),
        Err(refusal) => Err(refusal),
    }
}
