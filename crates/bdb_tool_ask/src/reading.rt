//! The commands that read a file whose databases can be read, by the rows that count: `verify`, `list`, `get` and `dump`.
ghost use Rattle.std.specs.Prelude.{◌≡◌, ◌≤◌, ◌^◌, IsTrue, List, Option, Some, is_some, length, not, option_copied, ℕ};
ghost use Rattle.bdb_tool_words.specs.of_text_format.Terms.{bytes_spelled};
ghost use Rattle.bdb_file.specs.of_any_order.AnyOrder.{faults_by_rows, verdict_by};
ghost use Rattle.bdb_file.specs.of_format.Terms.{head_of};
ghost use Rattle.bdb_tool_dump.specs.of_tool_lines.Printing.{Writes};
ghost use Rattle.bdb_tool_ask.specs.FileAnswers.{asked_answer, dumped, judged_answer, sound_line, verified};
ghost use Rattle.bdb_tool_words.specs.of_model.Change.{change};
ghost use Rattle.bdb_tool_words.specs.Commands.{Dump, Get, ListAll, Request as ModelRequest, key_request, text_request};
ghost use Rattle.bdb_tool_words.specs.Commands.{asked_name};
ghost use Rattle.bdb_tool_dump.specs.of_tool_lines.Finished.{Finishes};
ghost use Rattle.bdb_tool_words.specs.WordsSeen.{reading_seen};

use crate::looking::answer_sought;
use crate::spelled::name_sought;
use crate::text::sound_line;
use bdb_file::{AllError, First, NamedList, Readable, Rows, Steps, verify_by};
use bdb_swap::Sink;
use bdb_tool_dump::status::NOT_FOUND;
use bdb_tool_dump::{
    Cut, put, refuse, report, tell, tell_list, tell_memory, write_list, write_section,
    write_sections,
};
use bdb_tool_words::{Lookup, Reading, Selection};
use std::alloc::Global;
use std::sync::ledger::Ledger;

/// Writes the line of a file on which no row that counts holds.
#[tactic(auto, using(crate::proofs::Below::no_line, crate::proofs::Below::same_text))]
fn print_sound<K: Sink>(alloc: Global, readable: &Readable<'_>, out: &mut K) -> Result<(), Cut>
    ensures { Writes (sound_line (head_of readable.now).pages) (change K.written K.faults out.old out.new) result }
{
    match sound_line(alloc, readable.head().pages) {
        Ok(line) => put(out, line.as_bytes()),
        Err(_) => Err(Cut::Memory),
    }
}

/// Dumps the database with a name.
fn dump_named<K: Sink, E: Sink>(
    alloc: Global,
    readable: &Readable<'_>,
    name: &[u8],
    print: bool,
    out: &mut K,
    err: &mut E,
) -> u8
    ensures { Finishes (dumped print readable.now (Some name.now)) (change K.written K.faults out.old out.new)
        (change E.written E.faults err.old err.new) result }
{
    match readable.by_name(Some(name)) {
        Some(db) => report(write_section(alloc, out, readable, db, print), err),
        None => tell(err, b"not found\n", NOT_FOUND),
    }
}

/// Dumps the database with the name that is asked for, or all.
fn dump_selected<K: Sink, E: Sink>(
    alloc: Global,
    readable: &Readable<'_>,
    selection: &Selection<'_>,
    out: &mut K,
    err: &mut E,
) -> u8
    requires { IsTrue (is_some (text_request (asked_name (option_copied selection.now.name)) selection.now.print)) }
    ensures { (name : Option (List ℕ)) → asked_name (option_copied selection.now.name) ≡ Some name
        → Finishes (dumped selection.now.print readable.now name) (change K.written K.faults out.old out.new)
        (change E.written E.faults err.old err.new) result }
{
    let Ok(name) = name_sought(alloc, selection.name) else {
        return tell_memory(err);
    };
    match name {
        Some(name) => dump_named(alloc, readable, name.as_slice(), selection.print, out, err),
        None => report(write_sections(alloc, out, readable, selection.print), err),
    }
}

/// Answers `verify`: all that holds is told.
fn answer_verify<K: Sink, E: Sink, L: Ledger>(
    alloc: Global,
    image: &[u8],
    rows: Rows,
    out: &mut K,
    err: &mut E,
    steps: &mut Steps<L>,
) -> u8
    requires { length image.now ≤ 2 ^ 30 }
    ensures { Finishes (verified (faults_by_rows rows image.now) image.now) (change K.written K.faults out.old out.new)
        (change E.written E.faults err.old err.new) result }
{
    match verify_by::<NamedList, L>(alloc, image, rows, steps) {
        Ok(readable) => report(print_sound(alloc, &readable, out), err),
        Err(AllError::Faults(all)) => tell_list(alloc, &all, err),
        Err(AllError::Memory) => tell_memory(err),
    }
}

/// Answers `list`.
fn answer_list<K: Sink, E: Sink, L: Ledger>(
    alloc: Global,
    image: &[u8],
    rows: Rows,
    out: &mut K,
    err: &mut E,
    steps: &mut Steps<L>,
) -> u8
    requires { length image.now ≤ 2 ^ 30 }
    ensures { Finishes (judged_answer (verdict_by rows image.now) ListAll image.now) (change K.written K.faults out.old out.new)
        (change E.written E.faults err.old err.new) result }
{
    match verify_by::<First, L>(alloc, image, rows, steps) {
        Ok(readable) => report(write_list(alloc, out, &readable), err),
        Err(error) => refuse(alloc, error, err),
    }
}

/// Answers `dump`.
fn answer_dump<K: Sink, E: Sink, L: Ledger>(
    alloc: Global,
    image: &[u8],
    rows: Rows,
    selection: &Selection<'_>,
    out: &mut K,
    err: &mut E,
    steps: &mut Steps<L>,
) -> u8
    requires size { length image.now ≤ 2 ^ 30 }
    requires seen { IsTrue (is_some (text_request (asked_name (option_copied selection.now.name)) selection.now.print)) }
    ensures { (name : Option (List ℕ)) → asked_name (option_copied selection.now.name) ≡ Some name
        → Finishes (judged_answer (verdict_by rows image.now) (Dump name selection.now.print) image.now) (change K.written K.faults out.old out.new)
        (change E.written E.faults err.old err.new) result }
{
    match verify_by::<First, L>(alloc, image, rows, steps) {
        Ok(readable) => dump_selected(alloc, &readable, selection, out, err),
        Err(error) => refuse(alloc, error, err),
    }
}

/// Answers `get`, by going over the list.
fn answer_get<K: Sink, E: Sink, L: Ledger>(
    alloc: Global,
    image: &[u8],
    rows: Rows,
    lookup: &Lookup<'_>,
    out: &mut K,
    err: &mut E,
    steps: &mut Steps<L>,
) -> u8
    requires size { length image.now ≤ 2 ^ 30 }
    requires seen { IsTrue (is_some (key_request (asked_name (option_copied lookup.now.name)) (bytes_spelled (not lookup.now.hex) lookup.now.key.now)
        lookup.now.print)) }
    ensures { (name : Option (List ℕ)) (key : List ℕ) → asked_name (option_copied lookup.now.name) ≡ Some name
        → bytes_spelled (not lookup.now.hex) lookup.now.key.now ≡ Some key
        → Finishes (judged_answer (verdict_by rows image.now) (Get name key lookup.now.print) image.now) (change K.written K.faults out.old out.new)
        (change E.written E.faults err.old err.new) result }
{
    match verify_by::<First, L>(alloc, image, rows, steps) {
        Ok(readable) => answer_sought(alloc, &readable, lookup, out, err),
        Err(error) => refuse(alloc, error, err),
    }
}

/// Answers `verify`, `list`, `get` or `dump` by the rows that count: writes the answer to `out` or lines to `err`, and answers the exit status. Where
/// one of these rows holds for the file, `verify` tells all that hold in the first stage that has one, and the others the first.
pub fn answer_reading<K: Sink, E: Sink, L: Ledger>(
    alloc: Global,
    image: &[u8],
    rows: Rows,
    reading: &Reading<'_>,
    out: &mut K,
    err: &mut E,
    steps: &mut Steps<L>,
) -> u8
    requires size { length image.now ≤ 2 ^ 30 }
    requires seen { IsTrue (is_some (reading_seen reading.now)) }
    ensures { (asked : ModelRequest) → reading_seen reading.now ≡ Some asked
        → Finishes (asked_answer rows asked image.now) (change K.written K.faults out.old out.new) (change E.written E.faults err.old err.new) result }
{
    match reading {
        Reading::Verify => answer_verify(alloc, image, rows, out, err, steps),
        Reading::List => answer_list(alloc, image, rows, out, err, steps),
        Reading::Get(lookup) => answer_get(alloc, image, rows, lookup, out, err, steps),
        Reading::Dump(selection) => answer_dump(alloc, image, rows, selection, out, err, steps),
    }
}
