//! Lists of faults beside tables of them.

ghost use Rattle.std.specs.Prelude.{◌≡◌, IsTrue, Some, map, slice_get};
ghost use Rattle.std.specs.List.{Contains};
ghost use Rattle.bdb_tree.specs.of_format.declared.kinds.Fault.{Fault as FaultSeen};
ghost use Rattle.test_images.specs.Rows.{HasRows, row_fault};

use bdb_tree::{Fault, NamedList};

// Whether both are the same.
fn is_same(a: Fault, b: Fault) -> bool
    ensures { IsTrue result → a ≡ b }
{
    a == b
}

// Whether a list has this one at a place, from 0.
fn is_at(list: &NamedList, i: usize, fault: Fault) -> bool
    ensures { IsTrue result → slice_get list.now i ≡ Some fault }
{
    match list.get(i) {
        Some(found) => is_same(found.fault(), fault),
        None => false,
    }
}

/// Whether a list has these, in this order, and no others.
#[tactic(auto, using(crate::proofs::RowLemmas::same_list))]
pub fn is_list_of(list: &NamedList, faults: &[Fault]) -> bool
    ensures { IsTrue result → list.now ≡ faults.now }
{
    if list.len() != faults.len() {
        return false;
    }
    for (i, fault) in faults.iter().enumerate() {
        if !is_at(list, i, *fault) {
            return false;
        }
    }
    true
}

// The fault of a row of a stage.
fn row_fault(stage: u8, row: (u32, u8)) -> Fault
    ensures { result ≡ row_fault stage row }
{
    let (page, code) = row;
    Fault { stage, page, code }
}

// Whether a list has this one.
fn has(list: &NamedList, fault: Fault) -> bool
    ensures { IsTrue result → Contains list.now fault }
{
    for i in 0..list.len() {
        if is_at(list, i, fault) {
            return true;
        }
    }
    false
}

// Whether this one is the fault of a row.
fn is_of_rows(fault: Fault, stage: u8, rows: &[(u32, u8)]) -> bool
    ensures { IsTrue result → Contains (map (row_fault stage) rows.now) fault }
{
    for row in rows {
        if is_same(row_fault(stage, *row), fault) {
            return true;
        }
    }
    false
}

// Whether a list has the fault of each row.
fn has_each_row(list: &NamedList, stage: u8, rows: &[(u32, u8)]) -> bool
    ensures { IsTrue result → (fault : FaultSeen) → Contains (map (row_fault stage) rows.now) fault → Contains list.now fault }
{
    for row in rows {
        if !has(list, row_fault(stage, *row)) {
            return false;
        }
    }
    true
}

// Whether the member at a place, if there is one, is the fault of a row.
fn is_of_rows_at(list: &NamedList, i: usize, stage: u8, rows: &[(u32, u8)]) -> bool
    ensures { IsTrue result → (fault : FaultSeen) → slice_get list.now i ≡ Some fault → Contains (map (row_fault stage) rows.now) fault }
{
    match list.get(i) {
        Some(found) => is_of_rows(found.fault(), stage, rows),
        None => true,
    }
}

// Whether a list has no other faults than those of rows.
#[tactic(auto, using(crate::proofs::RowLemmas::each_member))]
fn has_only_rows(list: &NamedList, stage: u8, rows: &[(u32, u8)]) -> bool
    ensures { IsTrue result → (fault : FaultSeen) → Contains list.now fault → Contains (map (row_fault stage) rows.now) fault }
{
    for i in 0..list.len() {
        if !is_of_rows_at(list, i, stage, rows) {
            return false;
        }
    }
    true
}

/// Whether a list has these pages and codes of a stage, in any order and repeats allowed, and no others.
pub fn has_rows(list: &NamedList, stage: u8, rows: &[(u32, u8)]) -> bool
    ensures { IsTrue result → HasRows list.now stage rows.now }
{
    has_each_row(list, stage, rows) && has_only_rows(list, stage, rows)
}
