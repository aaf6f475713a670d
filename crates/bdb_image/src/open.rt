ghost use Rattle.std.specs.Prelude.{◌≡◌, ◌≤◌, ◌^◌, [], ◌∷◌, ◌<◌, IfErr, IfOk, IsTrue, OnErr, OnOk, length, option_map, option_to_list, true};
ghost use Rattle.std.specs.Result.{result_err};
ghost use Rattle.bdb_faults.specs.Notes.{NotesAll};
ghost use Rattle.bdb_faults.specs.Refusals.{IsAllOf};
ghost use Rattle.bdb_image.specs.Formed.{IsAccepted, IsRead};
ghost use Rattle.bdb_image.specs.Noted.{page_faults};
ghost use Rattle.bdb_slots.specs.Plain.{ArePlain, IsPlainIn};
ghost use Rattle.bdb_faults.specs.of_format.Terms.{as_verdict, faults_in, form_code, form_faults, is_page_size, tail_faults, verdict_in};

use crate::Formed;
use crate::formed::page_bytes;
use crate::page::page_row;
use crate::plain::is_plain;
use bdb_faults::{
    AllError, FaultSink, FileRow, First, Head, Judge, NamedList, Row, Verdict, first_verdict,
    judged, note_if,
};
use bdb_slots::is_zero;
use std::alloc::{AllocError, Global};

/// The image as one on which no row of the first two stages holds. A refusal has what holds of the first of them that has
/// any: page 0 has one row in stage 1 at most, and each page one in stage 2. The pages are read where they lie; no memory is
/// taken but the judge's.
pub fn open_by<'a, J: Judge + Drop>(
    alloc: Global,
    image: &'a [u8],
) -> Result<Formed<'a>, J::Refusal>
    requires { length image.now ≤ 2 ^ 30 }
    ensures formed { IfOk result (λ formed. formed ≡ image.now) }
    ensures accepted { OnOk result (faults_in (1 ∷ 2 ∷ []) image.now ≡ []) }
    ensures refusal { IfErr result (J.refuses (faults_in (1 ∷ 2 ∷ []) image.now)) }
    ensures want { IfErr result (λ refusal. J.wants_memory refusal ≡ true → IsTrue J.takes_memory) }
{
    let mut found = J::begin(alloc);
    let answer = note_form(image, &mut found);
    match judged(found, answer) {
        Ok(read) => Ok(formed_by(image, read)),
        Err(refusal) => Err(refusal),
    }
}

/// Opens an image as `open_by` does. An error is the verdict on it.
#[tactic(auto, using(bdb_faults::proofs::FirstLemmas::first_judged))]
pub fn open_image<'a>(alloc: Global, image: &'a [u8]) -> Result<Formed<'a>, Verdict>
    requires { length image.now ≤ 2 ^ 30 }
    ensures formed { IfOk result (λ formed. formed ≡ image.now) }
    ensures accepted { OnOk result (faults_in (1 ∷ 2 ∷ []) image.now ≡ []) }
    ensures verdict { result_err result ≡ option_map as_verdict (verdict_in (1 ∷ 2 ∷ []) image.now) }
{
    match open_by::<First>(alloc, image) {
        Ok(formed) => Ok(formed),
        Err(error) => Err(first_verdict(error)),
    }
}

/// Opens an image as `open_by` does. An error is the list of all rows that hold in the first stage that has one, by page and then by row, each once; or
/// `Memory`: memory for the list ran out.
pub fn open_all<'a>(alloc: Global, image: &'a [u8]) -> Result<Formed<'a>, AllError>
    requires { length image.now ≤ 2 ^ 30 }
    ensures formed { IfOk result (λ formed. formed ≡ image.now) }
    ensures accepted { OnOk result (faults_in (1 ∷ 2 ∷ []) image.now ≡ []) }
    ensures refusal { IfErr result (IsAllOf (faults_in (1 ∷ 2 ∷ []) image.now)) }
{
    open_by::<NamedList>(alloc, image)
}

/// What is read of the pages while their form is tested.
#[derive(Clone, Copy, Debug)]
struct Read {
    head: Head,
    /// No item names another page.
    plain: bool,
}

/// The image as one without a fault of the two stages, by what was read of its pages.
fn formed_by<'a>(image: &'a [u8], read: Option<Read>) -> Formed<'a>
    requires read { IsRead image.now read }
    requires form { faults_in (1 ∷ 2 ∷ []) image.now ≡ [] }
    ensures { result ≡ image.now }
{
    match read {
        Some(read) => Formed::over(image, read.head, read.plain),
        None => unreachable!(),
    }
}

/// Notes the faults of the first of stages 1 and 2 that has any, and tells what the pages say, where page 0 has
/// no fault of stage 1.
fn note_form<F: FaultSink>(image: &[u8], found: &mut F) -> Result<Option<Read>, AllocError>
    requires size { length image.now ≤ 2 ^ 30 }
    requires new { F.has_noted found.old [] }
    ensures noted { OnOk result (NotesAll (F.has_noted found.old) (F.has_noted found.new) (faults_in (1 ∷ 2 ∷ []) image.now)) }
    ensures read { IfOk result (IsRead image.now) }
    ensures refused { OnErr result (IsTrue F.takes_memory) }
{
    match bdb_meta::checked_head(image) {
        Ok(head) => {
            let plain = note_pages(image, &head, found)?;
            Ok(Some(Read { head, plain }))
        }
        Err(row) => {
            found.note(Row::File(row), 0)?;
            Ok(None)
        }
    }
}

/// Notes the pages above the last one that aren't zero pages, or else the faults of form. Tells whether no item names
/// another page, where that is seen.
fn note_pages<F: FaultSink>(image: &[u8], head: &Head, found: &mut F) -> Result<bool, AllocError>
    requires accepted { IsAccepted image.now head.now }
    requires new { F.has_noted found.old [] }
    ensures plain { IfOk result (λ plain. plain ≡ true → ArePlain head.now image.now) }
    ensures noted { OnOk result (NotesAll (F.has_noted found.old) (F.has_noted found.new) (faults_in (1 ∷ 2 ∷ []) image.now)) }
    ensures refused { OnErr result (IsTrue F.takes_memory) }
{
    note_tail(image, head, found)?;
    if !found.is_empty() {
        return Ok(false);
    }
    note_forms(image, head, found)
}

/// Notes the pages above the last one that aren't zero pages.
fn note_tail<F: FaultSink>(image: &[u8], head: &Head, found: &mut F) -> Result<(), AllocError>
    requires { IsAccepted image.now head.now }
    ensures noted { OnOk result (NotesAll (F.has_noted found.old) (F.has_noted found.new) (tail_faults image.now)) }
    ensures refused { OnErr result (IsTrue F.takes_memory) }
{
    for number in head.last + 1..head.pages {
        let is_used = !is_zero(page_bytes(image, head, number));
        note_if(found, Row::File(FileRow::Tail), number, is_used)?;
    }
    Ok(())
}

/// Notes the faults of form of the pages up to the last one. Tells whether no item names another page: asked of each page
/// while its items are at hand, up to the first that has such an item.
fn note_forms<F: FaultSink>(image: &[u8], head: &Head, found: &mut F) -> Result<bool, AllocError>
    requires { IsAccepted image.now head.now }
    ensures plain { IfOk result (λ plain. plain ≡ true → ArePlain head.now image.now) }
    ensures noted { OnOk result (NotesAll (F.has_noted found.old) (F.has_noted found.new) (form_faults image.now)) }
    ensures refused { OnErr result (IsTrue F.takes_memory) }
{
    let mut plain = true;
    for number in 0..head.last + 1 {
        plain = note_page(page_bytes(image, head, number), head, number, plain, found)?;
    }
    Ok(plain)
}

/// Notes the fault of form of a page up to the last one, if it has one. Tells whether it and those before it are plain.
fn note_page<F: FaultSink>(
    page: &[u8],
    head: &Head,
    number: u32,
    plain: bool,
    found: &mut F,
) -> Result<bool, AllocError>
    requires size { IsTrue (is_page_size (length page.now)) }
    requires last { head.now.last < 2 ^ 21 }
    ensures plain { IfOk result (λ still. still ≡ true → (plain ≡ true) × IsPlainIn head.now page.now) }
    ensures noted { OnOk result (NotesAll (F.has_noted found.old) (F.has_noted found.new)
        (page_faults 2 number (option_to_list (form_code head.now number page.now)))) }
    ensures refused { OnErr result (IsTrue F.takes_memory) }
{
    match page_row(page, head, number) {
        Some(row) => {
            found.note(Row::Form(row), number)?;
            Ok(false)
        }
        None => Ok(plain && is_plain(page, head, number)),
    }
}
