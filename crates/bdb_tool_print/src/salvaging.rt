// What `salvage` prints.
ghost use Rattle.std.specs.Prelude.{◌≡◌, ◌<◌, ◌≤◌, ◌^◌, ◌++◌, Some, codes, length, map};
ghost use Rattle.std.specs.List.{enumerate_from, flat_map};
ghost use Rattle.bdb_tool_lines.specs.of_model.Change.{change};
ghost use Rattle.bdb_text.specs.of_text_format.Terms.{data_end, line, section_text};
ghost use Rattle.bdb_range.specs.of_overflow.Datum.{datum_seen};
ghost use Rattle.bdb_tool_print.specs.Printers.{Adds, pair_text};
ghost use Rattle.bdb_tool_lines.specs.Printing.{Writes};
ghost use Rattle.bdb_damage.specs.of_rescue.Text.{bytes_pair, loose_section, loose_settings, numbered_record, salvage_text};
ghost use Rattle.bdb_damage.specs.of_rescue.Text.{stored_section, stored_settings};
ghost use Rattle.bdb_damage.specs.of_rescue.Kept.{file_in};
ghost use Rattle.bdb_damage.specs.of_survey.Salvage.{loose};

use crate::print_to;
use crate::printing::Printer;
use bdb_damage::{Guess, SalvagePairs, SalvageValues, Salvaged};
use bdb_range::{Datum, KeyView, Kind, Settings, plain_settings};
use bdb_tool_lines::{Cut, Sink};
use std::alloc::Global;

// The settings of the section of the loose records.
pub(crate) fn loose_settings(guess: Guess) -> Settings
    ensures { result ≡ loose_settings guess }
{
    plain_settings(Kind::Recno, guess.page_size, guess.order)
}

// The settings of the section of the stored pairs.
pub(crate) fn stored_settings(guess: Guess) -> Settings
    ensures { result ≡ stored_settings guess }
{
    Settings {
        kind: Kind::Btree,
        duplicates: true,
        ..loose_settings(guess)
    }
}

impl<'k, K: Sink> Printer<'k, K> {
    /// Prints the data lines of stored pairs.
    pub(crate) fn stored_pairs(
        &mut self,
        pairs: &mut SalvagePairs<'_, '_>,
        print: bool,
    ) -> Result<(), Cut>
        ensures { Adds K.written K.faults self.old self.new (flat_map (pair_text print) (map bytes_pair pairs.old)) result }
    {
        for (key, value) in pairs {
            self.pair(KeyView::Bytes(key), value, print)?;
        }
        Ok(())
    }

    /// Prints the data lines of stored pairs, and the line that ends them.
    #[tactic(auto, using(crate::proofs::PrinterLemmas::then_adds, crate::proofs::PrinterLemmas::adds_cut))]
    fn stored_data(&mut self, pairs: &mut SalvagePairs<'_, '_>, print: bool) -> Result<(), Cut>
        ensures { Adds K.written K.faults self.old self.new (flat_map (pair_text print) (map bytes_pair pairs.old) ++ line data_end) result }
    {
        self.stored_pairs(pairs, print)?;
        self.text(b"DATA=END\n")
    }

    /// Prints the section of stored pairs.
    #[tactic(auto, using(crate::proofs::DumpLemmas::section_by_parts, crate::proofs::PrinterLemmas::then_adds, crate::proofs::PrinterLemmas::adds_cut))]
    fn pairs_section(
        &mut self,
        guess: Guess,
        pairs: &mut SalvagePairs<'_, '_>,
        print: bool,
    ) -> Result<(), Cut>
        ensures { Adds K.written K.faults self.old self.new (stored_section print guess pairs.old) result }
    {
        self.header(Some(b"salvaged"), &stored_settings(guess), print)?;
        self.stored_data(pairs, print)
    }

    /// The same, of pairs that are given up.
    fn stored_section(
        &mut self,
        guess: Guess,
        mut pairs: SalvagePairs<'_, '_>,
        print: bool,
    ) -> Result<(), Cut>
        ensures { Adds K.written K.faults self.old self.new (stored_section print guess pairs.entry) result }
    {
        self.pairs_section(guess, &mut pairs, print)
    }

    /// Prints the data lines of records, which are numbered from 1.
    fn records(&mut self, records: SalvageValues<'_, '_>, print: bool) -> Result<(), Cut>
        requires { length records < 2 ^ 32 }
        ensures { Adds K.written K.faults self.old self.new
            (flat_map (pair_text print) (map numbered_record (enumerate_from 1 records.entry))) result }
    {
        let mut number = 0;
        for record in records {
            number += 1;
            self.pair(KeyView::Number(number), record, print)?;
        }
        Ok(())
    }

    /// Prints the data lines of records, and the line that ends them.
    #[tactic(auto, using(crate::proofs::PrinterLemmas::then_adds, crate::proofs::PrinterLemmas::adds_cut))]
    fn records_data(&mut self, records: SalvageValues<'_, '_>, print: bool) -> Result<(), Cut>
        requires { length records < 2 ^ 32 }
        ensures { Adds K.written K.faults self.old self.new
            (flat_map (pair_text print) (map numbered_record (enumerate_from 1 records.entry)) ++ line data_end) result }
    {
        self.records(records, print)?;
        self.text(b"DATA=END\n")
    }

    /// Prints the section of records.
    #[tactic(auto, using(crate::proofs::DumpLemmas::section_by_parts, crate::proofs::PrinterLemmas::then_adds, crate::proofs::PrinterLemmas::adds_cut))]
    fn records_section(
        &mut self,
        guess: Guess,
        records: SalvageValues<'_, '_>,
        print: bool,
    ) -> Result<(), Cut>
        requires { length records < 2 ^ 32 }
        ensures { Adds K.written K.faults self.old self.new
            (section_text print (Some (codes "loose")) (loose_settings guess) (map numbered_record (enumerate_from 1 records.entry))) result }
    {
        self.header(Some(b"loose"), &loose_settings(guess), print)?;
        self.records_data(records, print)
    }

    /// Prints the section of the loose records, where there is one.
    fn loose_section(&mut self, salvaged: &Salvaged<'_>, print: bool) -> Result<(), Cut>
        requires { length salvaged.now.image ≤ 2 ^ 30 }
        ensures { Adds K.written K.faults self.old self.new (loose_section print salvaged.now.guess (loose (file_in salvaged.now))) result }
    {
        match salvaged.loose().next() {
            Some(_) => self.records_section(salvaged.guess(), salvaged.loose(), print),
            None => Ok(()),
        }
    }

    /// Prints what is salvaged.
    #[tactic(auto, using(crate::proofs::PrinterLemmas::then_adds, crate::proofs::PrinterLemmas::adds_cut), unfolding(crate::specs::Below::salvage_text))]
    fn salvaged(&mut self, salvaged: &Salvaged<'_>, print: bool) -> Result<(), Cut>
        requires { length salvaged.now.image ≤ 2 ^ 30 }
        ensures { Adds K.written K.faults self.old self.new (salvage_text print salvaged.now.guess salvaged.now.image) result }
    {
        self.stored_section(salvaged.guess(), salvaged.pairs(), print)?;
        self.loose_section(salvaged, print)
    }
}

/// Writes what `salvage` gives: the section `salvaged` with the stored pairs and, if there are loose records, the section `loose` with them. `print`
/// says whether data lines are printed, or else spelled by digits. An error means that a write failed, or that memory ran out.
#[tactic(auto, using(crate::proofs::PrinterLemmas::all_cut))]
pub fn write_salvaged<K: Sink>(
    alloc: Global,
    out: &mut K,
    salvaged: &Salvaged<'_>,
    print: bool,
) -> Result<(), Cut>
    requires { length salvaged.now.image ≤ 2 ^ 30 }
    ensures { Writes (salvage_text print salvaged.now.guess salvaged.now.image) (change K.written K.faults out.old out.new) result }
{
    print_to!(alloc, out, printer => printer.salvaged(salvaged, print)?)
}
