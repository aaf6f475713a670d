// What `dump` prints.
ghost use Rattle.std.specs.Prelude.{◌≡◌, ◌++◌, ◌<◌, length};
ghost use Rattle.std.specs.List.{flat_map};
ghost use Rattle.bdb_databases.specs.Named.{database_at};
ghost use Rattle.bdb_tool_print.specs.of_model.Change.{change};
ghost use Rattle.bdb_databases.specs.of_format.Terms.{databases, file_of, list_of};
ghost use Rattle.bdb_tool_print.specs.of_text_format.Terms.{data_end, database_text, dump_text, line};
ghost use Rattle.bdb_tool_print.specs.Printers.{Adds, pair_text};
ghost use Rattle.bdb_tool_print.specs.of_tool_lines.Printing.{Writes};

use bdb_databases::{Db, Readable, Scan};
use bdb_tool_print::{Cut, Printer, Sink, print_to};
use std::alloc::Global;

/// Prints the data lines of a list.
fn pairs<K: Sink>(printer: &mut Printer<'_, K>, list: &mut Scan<'_>, print: bool) -> Result<(), Cut>
    ensures { Adds K.written K.faults printer.old printer.new (flat_map (pair_text print) list.old) result }
{
    while let Some((key, value)) = list.next() {
        printer.pair(key, value, print)?;
    }
    Ok(())
}

/// Prints the data lines of a list, and the line that ends them.
#[tactic(auto, using(bdb_tool_print::proofs::PrinterLemmas::then_adds, bdb_tool_print::proofs::PrinterLemmas::adds_cut))]
fn data<K: Sink>(printer: &mut Printer<'_, K>, list: &mut Scan<'_>, print: bool) -> Result<(), Cut>
    ensures { Adds K.written K.faults printer.old printer.new (flat_map (pair_text print) list.old ++ line data_end) result }
{
    pairs(printer, list, print)?;
    printer.text(b"DATA=END\n")
}

/// Prints the data lines of the list of a database, and the line that ends them.
fn database_data<K: Sink>(
    printer: &mut Printer<'_, K>,
    readable: &Readable<'_>,
    db: Db,
    print: bool,
) -> Result<(), Cut>
    requires { db < length (databases (file_of readable.now)) }
    ensures { Adds K.written K.faults printer.old printer.new
        (flat_map (pair_text print) (list_of (file_of readable.now) (database_at (file_of readable.now) db).fields) ++ line data_end) result }
{
    match readable.scan(printer.alloc, db) {
        Ok(mut list) => data(printer, &mut list, print),
        Err(_) => Err(Cut::Memory),
    }
}

/// Prints the section of a database.
#[tactic(auto, using(bdb_tool_print::proofs::DumpLemmas::section_by_parts, bdb_tool_print::proofs::PrinterLemmas::then_adds, bdb_tool_print::proofs::PrinterLemmas::adds_cut))]
fn database_section<K: Sink>(
    printer: &mut Printer<'_, K>,
    readable: &Readable<'_>,
    db: Db,
    print: bool,
) -> Result<(), Cut>
    requires { db < length (databases (file_of readable.now)) }
    ensures { Adds K.written K.faults printer.old printer.new (database_text print readable.now (database_at (file_of readable.now) db)) result }
{
    printer.header(readable.name(db), &readable.settings(db), print)?;
    database_data(printer, readable, db, print)
}

/// Prints the section of each database.
fn sections<K: Sink>(
    printer: &mut Printer<'_, K>,
    readable: &Readable<'_>,
    print: bool,
) -> Result<(), Cut>
    ensures { Adds K.written K.faults printer.old printer.new (dump_text print readable.now (databases (file_of readable.now))) result }
{
    for i in 0..readable.databases() {
        database_section(printer, readable, readable.database(i), print)?;
    }
    Ok(())
}

/// Writes the section of a database: its header, its data lines, printed or else spelled by digits, and `DATA=END`. An error means that a write failed, or that
/// memory ran out.
#[tactic(auto, using(bdb_tool_print::proofs::PrinterLemmas::all_cut))]
pub fn write_section<K: Sink>(
    alloc: Global,
    out: &mut K,
    readable: &Readable<'_>,
    db: Db,
    print: bool,
) -> Result<(), Cut>
    requires { db < length (databases (file_of readable.now)) }
    ensures { Writes (database_text print readable.now (database_at (file_of readable.now) db)) (change K.written K.faults out.old out.new) result }
{
    print_to!(alloc, out, printer => database_section(&mut printer, readable, db, print)?)
}

/// Writes the section of each database. An error means that a write failed, or that memory ran out.
#[tactic(auto, using(bdb_tool_print::proofs::PrinterLemmas::all_cut))]
pub fn write_sections<K: Sink>(
    alloc: Global,
    out: &mut K,
    readable: &Readable<'_>,
    print: bool,
) -> Result<(), Cut>
    ensures { Writes (dump_text print readable.now (databases (file_of readable.now))) (change K.written K.faults out.old out.new) result }
{
    print_to!(alloc, out, printer => sections(&mut printer, readable, print)?)
}
