//! What holds at the pages of a file is told, with its status.
ghost use Rattle.std.specs.Prelude.{◌≡◌, ◌⊎◌, ◌<◌, length, ℕ};
ghost use Rattle.bdb_model.specs.Change.{change};
ghost use Rattle.bdb_model.specs.Lines.{memory_line};
ghost use Rattle.bdb_tool_lines.specs.Telling.{first_status, judgement_line, judgement_status, faults_text};
ghost use Rattle.bdb_tool_lines.specs.Finished.{IsRefused, Tells};
ghost use Rattle.bdb_faults.specs.of_format.Terms.{LeftOut, judgement_seen, unsupported_name};
ghost use Rattle.bdb_model.specs.Answers.{unsupported_line};

use crate::finish::tell_memory;
use crate::room::Room;
use crate::status::{FAULT, UNSUPPORTED, WRITE_FAULT};
use crate::telling::{tell_all, tell_one};
use bdb_faults::{FileRow, FirstError, FormRow, Named, NamedList, Row};
use bdb_io::Sink;
use bdb_model::Unsupported;
use std::alloc::Global;

/// The status that the first of what is told gives.
fn status_of(first: Named) -> u8
    ensures { result ≡ judgement_status (judgement_seen first) }
{
    match first.row.entry().case {
        None => FAULT,
        Some(_) => UNSUPPORTED,
    }
}

/// The status that the first of a list gives.
fn status_of_first(all: &NamedList) -> u8
    requires { 0 < length all.now }
    ensures { result ≡ first_status all.now }
{
    match all.get(0) {
        Some(first) => status_of(first),
        None => unreachable!(),
    }
}

/// Tells what holds at a page.
#[tactic(auto, using(crate::proofs::RefusalLemmas::told_whole, crate::proofs::RefusalLemmas::told_in_part))]
fn tell_named<E: Sink>(alloc: Global, named: Named, err: &mut E) -> u8
    ensures { Tells (judgement_line (judgement_seen named)) (judgement_status (judgement_seen named)) (change E.written E.faults err.old err.new) result
        ⊎ Tells memory_line 7 (change E.written E.faults err.old err.new) result }
{
    let Ok(mut room) = Room::new(alloc) else {
        return tell_memory(err);
    };
    match tell_one(err, &mut room, named) {
        Ok(()) => status_of(named),
        Err(_) => WRITE_FAULT,
    }
}

/// Writes a line to `err` for each row that holds at the pages of a file, at least one, and answers the status by the first: a fault or an
/// unsupported case. Where memory runs out the line of that is written instead; where a write fails the status says so.
#[tactic(auto, using(crate::proofs::RefusalLemmas::told_whole, crate::proofs::RefusalLemmas::told_in_part))]
pub fn tell_list<E: Sink>(alloc: Global, all: &NamedList, err: &mut E) -> u8
    requires { 0 < length all.now }
    ensures { Tells (faults_text all.now) (first_status all.now) (change E.written E.faults err.old err.new) result
        ⊎ Tells memory_line 7 (change E.written E.faults err.old err.new) result }
{
    let Ok(mut room) = Room::new(alloc) else {
        return tell_memory(err);
    };
    match tell_all(err, &mut room, all) {
        Ok(()) => status_of_first(all),
        Err(_) => WRITE_FAULT,
    }
}

/// Writes the line of why a file isn't sound to `err`, by the first row that holds, and answers its status: a fault, an unsupported case, or that
/// memory ran out; or that of a write fault.
pub fn refuse<E: Sink>(alloc: Global, error: FirstError, err: &mut E) -> u8
    ensures { IsRefused error (change E.written E.faults err.old err.new) result }
{
    match error {
        FirstError::Fault(named) => tell_named(alloc, named, err),
        FirstError::Memory => tell_memory(err),
    }
}

/// The row of a case that isn't supported: of the file, or else of the form of a page.
fn case_row(case: Unsupported) -> Row
    ensures { (page : ℕ) → judgement_seen (record { row = result; page = page }) ≡ LeftOut case page }
{
    match case {
        Unsupported::Version => Row::File(FileRow::Version),
        Unsupported::Heap => Row::File(FileRow::Heap),
        Unsupported::LargePage => Row::File(FileRow::LargePage),
        Unsupported::Encryption => Row::File(FileRow::Encryption),
        Unsupported::Checksum => Row::File(FileRow::Checksum),
        Unsupported::Partition => Row::File(FileRow::Partition),
        Unsupported::Extent => Row::Form(FormRow::Extent),
        Unsupported::Compression => Row::Form(FormRow::Compression),
        Unsupported::OwnHash => Row::Form(FormRow::OwnHash),
        Unsupported::WrappedQueue => Row::Form(FormRow::WrappedQueue),
    }
}

/// The name of an unsupported case in its line, as the fault table has it.
pub fn case_name(case: Unsupported) -> &'static str
    ensures { result.now ≡ unsupported_name case }
{
    case_row(case).entry().name
}

/// Writes the line of an unsupported case that page 0 names to `err`, and answers its status, 3; or that of memory that ran out, or of a write fault.
pub fn tell_case<E: Sink>(alloc: Global, case: Unsupported, err: &mut E) -> u8
    ensures { Tells (unsupported_line case 0) 3 (change E.written E.faults err.old err.new) result
        ⊎ Tells memory_line 7 (change E.written E.faults err.old err.new) result }
{
    tell_named(alloc, case_row(case).at(0), err)
}
