// What `salvage` prints database by database, and what belongs to none.
ghost use Rattle.std.specs.Prelude.{◌≡◌, ◌<◌, ◌^◌, ◌++◌, Some, codes, length, map, option_map};
ghost use Rattle.std.specs.List.{enumerate_from, flat_map};
ghost use Rattle.bdb_tool_lines.specs.of_model.Change.{change};
ghost use Rattle.bdb_text.specs.of_text_format.Terms.{data_end, header_text, line, section_text};
ghost use Rattle.bdb_range.specs.of_overflow.Datum.{datum_seen};
ghost use Rattle.bdb_tool_print.specs.Printers.{Adds, pair_text};
ghost use Rattle.bdb_tool_lines.specs.Printing.{Writes};
ghost use Rattle.bdb_damage.specs.of_rescue.Text.{bytes_pair, loose_section, loose_settings, numbered_record, stored_section};
ghost use Rattle.bdb_damage.specs.of_apart.Given.{pairs_left, records_left};
ghost use Rattle.bdb_damage.specs.of_apart.Text.{apart_text, db_section, list_given, rest_text};

use crate::print_to;
use crate::printing::Printer;
use crate::salvaging::{loose_settings, stored_settings};
use bdb_damage::{Apart, Database, Databases, Pairs, PairsLeft, Records, RecordsLeft, bytes_in};
use bdb_range::{Datum, KeyView, Settings};
use bdb_tool_lines::{Cut, Sink};
use std::alloc::Global;

impl<'k, K: Sink> Printer<'k, K> {
    /// Prints the header of a section whose name is a key.
    fn keyed_header(&mut self, key: &Datum<'_>, settings: &Settings, print: bool) -> Result<(), Cut>
        ensures { Adds K.written K.faults self.old self.new (header_text print (Some (datum_seen key.now)) settings.now) result }
    {
        let mut room = Vec::new(self.alloc);
        match bytes_in(key.again(), &mut room) {
            Ok(name) => self.header(Some(name), settings, print),
            Err(_) => Err(Cut::Memory),
        }
    }

    /// Prints the header of the section of a database with this name, if it has one.
    fn named_header(
        &mut self,
        name: Option<Datum<'_>>,
        settings: &Settings,
        print: bool,
    ) -> Result<(), Cut>
        ensures { Adds K.written K.faults self.old self.new (header_text print (option_map datum_seen name.entry) settings.now) result }
    {
        match name {
            Some(name) => self.keyed_header(&name, settings, print),
            None => self.header(None, settings, print),
        }
    }

    /// Prints the data lines of the pairs of a database.
    fn given_pairs(&mut self, pairs: &mut Pairs<'_, '_, '_>, print: bool) -> Result<(), Cut>
        ensures { Adds K.written K.faults self.old self.new (flat_map (pair_text print) (map bytes_pair pairs.old)) result }
    {
        for (key, value) in pairs {
            self.pair(KeyView::Bytes(key), value, print)?;
        }
        Ok(())
    }

    /// Prints the data lines of the records of a database.
    fn given_records(&mut self, records: &mut Records<'_, '_, '_>, print: bool) -> Result<(), Cut>
        ensures { Adds K.written K.faults self.old self.new (flat_map (pair_text print) (map numbered_record records.old)) result }
    {
        for (number, value) in records {
            self.pair(KeyView::Number(number), value, print)?;
        }
        Ok(())
    }

    /// Prints the data lines of a database.
    fn given_lines(&mut self, db: &Database<'_, '_, '_>, print: bool) -> Result<(), Cut>
        ensures { Adds K.written K.faults self.old self.new (flat_map (pair_text print) (list_given db.now)) result }
    {
        if db.has_records() {
            self.given_records(&mut db.records(), print)
        } else {
            self.given_pairs(&mut db.pairs(), print)
        }
    }

    /// Prints the data lines of a database, and the line that ends them.
    #[tactic(auto, using(crate::proofs::PrinterLemmas::then_adds, crate::proofs::PrinterLemmas::adds_cut))]
    fn given_data(&mut self, db: &Database<'_, '_, '_>, print: bool) -> Result<(), Cut>
        ensures { Adds K.written K.faults self.old self.new (flat_map (pair_text print) (list_given db.now) ++ line data_end) result }
    {
        self.given_lines(db, print)?;
        self.text(b"DATA=END\n")
    }

    /// Prints the section of a database.
    #[tactic(auto, using(crate::proofs::DumpLemmas::section_by_parts, crate::proofs::PrinterLemmas::then_adds, crate::proofs::PrinterLemmas::adds_cut))]
    fn given_section(&mut self, db: &Database<'_, '_, '_>, print: bool) -> Result<(), Cut>
        ensures { Adds K.written K.faults self.old self.new (db_section print db.now) result }
    {
        self.named_header(db.name(), &db.settings(), print)?;
        self.given_data(db, print)
    }

    /// Prints the sections of databases.
    fn given_sections(&mut self, dbs: &mut Databases<'_, '_, '_>, print: bool) -> Result<(), Cut>
        ensures { Adds K.written K.faults self.old self.new (flat_map (db_section print) dbs.old) result }
    {
        for db in dbs {
            self.given_section(&db, print)?;
        }
        Ok(())
    }

    /// Prints what is salvaged of each database.
    #[tactic(auto, unfolding(crate::specs::Below::apart_text))]
    fn apart(&mut self, apart: &Apart<'_, '_>, print: bool) -> Result<(), Cut>
        ensures { Adds K.written K.faults self.old self.new (apart_text print apart.now.guess apart.now.image) result }
    {
        self.given_sections(&mut apart.databases(), print)
    }

    /// Prints the data lines of the pairs that belong to no database.
    fn pairs_left(&mut self, pairs: &mut PairsLeft<'_, '_, '_>, print: bool) -> Result<(), Cut>
        ensures { Adds K.written K.faults self.old self.new (flat_map (pair_text print) (map bytes_pair pairs.old)) result }
    {
        for (key, value) in pairs {
            self.pair(KeyView::Bytes(key), value, print)?;
        }
        Ok(())
    }

    /// Prints them, and the line that ends them.
    #[tactic(auto, using(crate::proofs::PrinterLemmas::then_adds, crate::proofs::PrinterLemmas::adds_cut))]
    fn pairs_left_data(&mut self, pairs: &mut PairsLeft<'_, '_, '_>, print: bool) -> Result<(), Cut>
        ensures { Adds K.written K.faults self.old self.new (flat_map (pair_text print) (map bytes_pair pairs.old) ++ line data_end) result }
    {
        self.pairs_left(pairs, print)?;
        self.text(b"DATA=END\n")
    }

    /// Prints their section.
    #[tactic(auto, using(crate::proofs::DumpLemmas::section_by_parts, crate::proofs::PrinterLemmas::then_adds, crate::proofs::PrinterLemmas::adds_cut))]
    fn pairs_left_section(&mut self, apart: &Apart<'_, '_>, print: bool) -> Result<(), Cut>
        ensures { Adds K.written K.faults self.old self.new (stored_section print apart.now.guess (pairs_left apart.now)) result }
    {
        self.header(Some(b"salvaged"), &stored_settings(apart.guess()), print)?;
        self.pairs_left_data(&mut apart.pairs_left(), print)
    }

    /// Prints the data lines of the records that belong to no database, which are numbered from 1.
    fn records_left(
        &mut self,
        records: &mut RecordsLeft<'_, '_, '_>,
        print: bool,
    ) -> Result<(), Cut>
        requires { length records.old < 2 ^ 32 }
        ensures { Adds K.written K.faults self.old self.new
            (flat_map (pair_text print) (map numbered_record (enumerate_from 1 records.old))) result }
    {
        let mut number = 0;
        for record in records {
            number += 1;
            self.pair(KeyView::Number(number), record, print)?;
        }
        Ok(())
    }

    /// Prints them, and the line that ends them.
    #[tactic(auto, using(crate::proofs::PrinterLemmas::then_adds, crate::proofs::PrinterLemmas::adds_cut))]
    fn records_left_data(
        &mut self,
        records: &mut RecordsLeft<'_, '_, '_>,
        print: bool,
    ) -> Result<(), Cut>
        requires { length records.old < 2 ^ 32 }
        ensures { Adds K.written K.faults self.old self.new
            (flat_map (pair_text print) (map numbered_record (enumerate_from 1 records.old)) ++ line data_end) result }
    {
        self.records_left(records, print)?;
        self.text(b"DATA=END\n")
    }

    /// Prints their section.
    #[tactic(auto, using(crate::proofs::DumpLemmas::section_by_parts, crate::proofs::PrinterLemmas::then_adds, crate::proofs::PrinterLemmas::adds_cut))]
    fn numbered_section(&mut self, apart: &Apart<'_, '_>, print: bool) -> Result<(), Cut>
        ensures { Adds K.written K.faults self.old self.new (section_text print (Some (codes "loose")) (loose_settings apart.now.guess)
            (map numbered_record (enumerate_from 1 (records_left apart.now)))) result }
    {
        self.header(Some(b"loose"), &loose_settings(apart.guess()), print)?;
        self.records_left_data(&mut apart.records_left(), print)
    }

    /// Prints their section, where there is one.
    fn records_left_section(&mut self, apart: &Apart<'_, '_>, print: bool) -> Result<(), Cut>
        ensures { Adds K.written K.faults self.old self.new (loose_section print apart.now.guess (records_left apart.now)) result }
    {
        match apart.records_left().next() {
            Some(_) => self.numbered_section(apart, print),
            None => Ok(()),
        }
    }

    /// Prints what belongs to no database.
    #[tactic(auto, using(crate::proofs::PrinterLemmas::then_adds, crate::proofs::PrinterLemmas::adds_cut), unfolding(crate::specs::Below::rest_text))]
    fn rest(&mut self, apart: &Apart<'_, '_>, print: bool) -> Result<(), Cut>
        ensures { Adds K.written K.faults self.old self.new (rest_text print apart.now.guess apart.now.image) result }
    {
        self.pairs_left_section(apart, print)?;
        self.records_left_section(apart, print)
    }
}

/// Writes what `salvage --apart` gives: a section for each database that is found, with what is salvaged of it. `print` says whether data lines are
/// printed, or else spelled by digits. An error means that a write failed, or that memory ran out.
#[tactic(auto, using(crate::proofs::PrinterLemmas::all_cut))]
pub fn write_apart<K: Sink>(
    alloc: Global,
    out: &mut K,
    apart: &Apart<'_, '_>,
    print: bool,
) -> Result<(), Cut>
    ensures { Writes (apart_text print apart.now.guess apart.now.image) (change K.written K.faults out.old out.new) result }
{
    print_to!(alloc, out, printer => printer.apart(apart, print)?)
}

/// Writes what `salvage --rest` gives, the pairs and records that belong to no database that is found: the section `salvaged` and, if there are such
/// records, the section `loose`. `print` says whether data lines are printed, or else spelled by digits. An error means that a write failed, or that
/// memory ran out.
#[tactic(auto, using(crate::proofs::PrinterLemmas::all_cut))]
pub fn write_rest<K: Sink>(
    alloc: Global,
    out: &mut K,
    apart: &Apart<'_, '_>,
    print: bool,
) -> Result<(), Cut>
    ensures { Writes (rest_text print apart.now.guess apart.now.image) (change K.written K.faults out.old out.new) result }
{
    print_to!(alloc, out, printer => printer.rest(apart, print)?)
}
