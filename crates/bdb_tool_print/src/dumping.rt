// The lines of a dump text.
ghost use Rattle.std.specs.Prelude.{◌≡◌, option_copied};
ghost use Rattle.bdb_text.specs.of_text_format.Terms.{data_line, header_text, key_bytes, line};
ghost use Rattle.bdb_range.specs.of_overflow.Datum.{datum_seen, key_view_seen};
ghost use Rattle.bdb_tool_print.specs.Printers.{Adds, pair_text};
ghost use Rattle.std.specs.Fmt.{decimal};

use crate::printing::Printer;
use bdb_range::{Datum, KeyView, Settings};
use bdb_text::{SHORT_VALUE, header_text, number_text};
use bdb_tool_lines::{Cut, Sink};

impl<'k, K: Sink> Printer<'k, K> {
    /// Prints the data line of any value.
    #[tactic(auto, using(crate::proofs::PrinterLemmas::then_adds_byte, crate::proofs::PrinterLemmas::byte_cut))]
    fn any_line(&mut self, value: &Datum<'_>, print: bool) -> Result<(), Cut>
        ensures { Adds K.written K.faults self.old self.new (line (data_line print (datum_seen value.now))) result }
    {
        self.text(b" ")?;
        self.value_line(value, print)
    }

    /// Prints the data line of a value.
    fn data_line(&mut self, value: &Datum<'_>, print: bool) -> Result<(), Cut>
        ensures { Adds K.written K.faults self.old self.new (line (data_line print (datum_seen value.now))) result }
    {
        match value {
            Datum::Inline(bytes) if !print && bytes.len() <= SHORT_VALUE => self.short_line(bytes),
            _ => self.any_line(value, print),
        }
    }

    /// Prints the data line of a number, which is spelled as the bytes of its digits.
    fn number_line(&mut self, number: u32, print: bool) -> Result<(), Cut>
        ensures { Adds K.written K.faults self.old self.new (line (data_line print (decimal number))) result }
    {
        match number_text(self.alloc, number) {
            Ok(digits) => self.data_line(&Datum::Inline(digits.as_slice()), print),
            Err(_) => Err(Cut::Memory),
        }
    }

    /// Prints the data line of a key.
    fn key_line(&mut self, key: &KeyView<'_>, print: bool) -> Result<(), Cut>
        ensures { Adds K.written K.faults self.old self.new (line (data_line print (key_bytes (key_view_seen key.now)))) result }
    {
        match key {
            KeyView::Bytes(key) => self.data_line(key, print),
            KeyView::Number(number) => self.number_line(*number, print),
        }
    }

    /// Prints the data lines of a key and of a value.
    fn both_lines(&mut self, key: &KeyView<'_>, value: &Datum<'_>, print: bool) -> Result<(), Cut>
        ensures { Adds K.written K.faults self.old self.new (pair_text print (key_view_seen key.now, datum_seen value.now)) result }
    {
        self.key_line(key, print)?;
        self.data_line(value, print)
    }

    /// Adds the two data lines of a pair, printed or else spelled by digits: that of its key (of a record's number, that of its decimal digits) and
    /// that of its datum. An error means that a write failed, or that memory ran out.
    pub fn pair(&mut self, key: KeyView<'_>, value: Datum<'_>, print: bool) -> Result<(), Cut>
        ensures { Adds K.written K.faults self.old self.new (pair_text print (key_view_seen key.entry, datum_seen value.entry)) result }
    {
        self.both_lines(&key, &value, print)
    }

    /// Adds the header of the section of a database, from `VERSION=3` to `HEADER=END`. An error means that a write failed, or that memory ran out.
    pub fn header(
        &mut self,
        name: Option<&[u8]>,
        settings: &Settings,
        print: bool,
    ) -> Result<(), Cut>
        ensures { Adds K.written K.faults self.old self.new (header_text print (option_copied name.entry) settings.now) result }
    {
        match header_text(self.alloc, name, settings, print) {
            Ok(header) => self.text(header.as_slice()),
            Err(_) => Err(Cut::Memory),
        }
    }
}
