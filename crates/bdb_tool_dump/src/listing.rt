// What `list` and `get` print.
ghost use Rattle.std.specs.Prelude.{◌≡◌, ◌++◌};
ghost use Rattle.bdb_tool_print.specs.of_model.Answers.{list_text, value_line, values_text};
ghost use Rattle.bdb_tool_print.specs.of_model.Change.{change};
ghost use Rattle.bdb_databases.specs.of_format.Terms.{databases, file_of};
ghost use Rattle.bdb_databases.specs.of_overflow.Datum.{datum_seen};
ghost use Rattle.bdb_tool_print.specs.Printers.{Adds};
ghost use Rattle.bdb_tool_print.specs.of_tool_lines.Printing.{Writes};

use bdb_databases::{Datum, Found, Readable};
use bdb_tool_print::{Cut, Printer, Sink, print_to};
use std::alloc::Global;

/// Prints the line of each database.
fn database_lines<K: Sink>(printer: &mut Printer<'_, K>, readable: &Readable<'_>) -> Result<(), Cut>
    ensures { Adds K.written K.faults printer.old printer.new (list_text (databases (file_of readable.now))) result }
{
    for i in 0..readable.databases() {
        let db = readable.database(i);
        let kind = readable.settings(db).kind;
        printer.database_line(kind, readable.name(db))?;
    }
    Ok(())
}

/// Prints values, each on a line of its own.
fn value_lines<K: Sink>(
    printer: &mut Printer<'_, K>,
    values: &mut Found<'_>,
    print: bool,
) -> Result<(), Cut>
    ensures { Adds K.written K.faults printer.old printer.new (values_text print values.old) result }
{
    for value in values {
        printer.found_line(value, print)?;
    }
    Ok(())
}

/// Prints a value and others, each on a line of its own.
#[tactic(auto, using(bdb_tool_print::proofs::PrinterLemmas::then_adds, bdb_tool_print::proofs::PrinterLemmas::adds_cut), unfolding(crate::specs::Below::values_text))]
fn found_lines<K: Sink>(
    printer: &mut Printer<'_, K>,
    first: &Datum<'_>,
    others: &mut Found<'_>,
    print: bool,
) -> Result<(), Cut>
    ensures { Adds K.written K.faults printer.old printer.new (value_line print (datum_seen first.now) ++ values_text print others.old) result }
{
    printer.value_line(first, print)?;
    value_lines(printer, others, print)
}

/// The same, of values that are given up.
fn found<K: Sink>(
    printer: &mut Printer<'_, K>,
    first: Datum<'_>,
    mut others: Found<'_>,
    print: bool,
) -> Result<(), Cut>
    ensures { Adds K.written K.faults printer.old printer.new (value_line print (datum_seen first.entry) ++ values_text print others.entry) result }
{
    found_lines(printer, &first, &mut others, print)
}

/// Writes the lines of `list`, one for each database: its kind and, if it has one, its name, printed. An error means that a write
/// failed, or that memory ran out.
#[tactic(auto, using(bdb_tool_print::proofs::PrinterLemmas::all_cut))]
pub fn write_list<K: Sink>(alloc: Global, out: &mut K, readable: &Readable<'_>) -> Result<(), Cut>
    ensures { Writes (list_text (databases (file_of readable.now))) (change K.written K.faults out.old out.new) result }
{
    print_to!(alloc, out, printer => database_lines(&mut printer, readable)?)
}

/// Writes the data of a key, each on a line, printed or else spelled by digits. An error means that a write failed, or that memory ran out.
#[tactic(auto, using(bdb_tool_print::proofs::PrinterLemmas::all_cut))]
pub fn write_found<K: Sink>(
    alloc: Global,
    out: &mut K,
    first: Datum<'_>,
    others: Found<'_>,
    print: bool,
) -> Result<(), Cut>
    ensures { Writes (value_line print (datum_seen first.entry) ++ values_text print others.entry) (change K.written K.faults out.old out.new) result }
{
    print_to!(alloc, out, printer => found(&mut printer, first, others, print)?)
}
