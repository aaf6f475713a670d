// What `range` prints.
ghost use Rattle.std.specs.Prelude.{◌≡◌};
ghost use Rattle.bdb_tool_lines.specs.of_model.Answers.{pair_lines, pairs_text, value_line};
ghost use Rattle.bdb_tool_lines.specs.of_model.Change.{change};
ghost use Rattle.bdb_text.specs.of_text_format.Terms.{key_bytes};
ghost use Rattle.bdb_range.specs.of_overflow.Datum.{datum_seen, key_view_seen};
ghost use Rattle.bdb_tool_print.specs.Printers.{Adds};
ghost use Rattle.bdb_tool_lines.specs.Printing.{Writes};
ghost use Rattle.std.specs.Fmt.{decimal};

use crate::print_to;
use crate::printing::Printer;
use bdb_range::{Datum, KeyView, RangePairs};
use bdb_text::number_text;
use bdb_tool_lines::{Cut, Sink};
use std::alloc::Global;

impl<'k, K: Sink> Printer<'k, K> {
    /// Prints a number on a line of its own: it's spelled as the bytes of its digits.
    fn number_alone(&mut self, number: u32, print: bool) -> Result<(), Cut>
        ensures { Adds K.written K.faults self.old self.new (value_line print (decimal number)) result }
    {
        match number_text(self.alloc, number) {
            Ok(digits) => self.value_line(&Datum::Inline(digits.as_slice()), print),
            Err(_) => Err(Cut::Memory),
        }
    }

    /// Prints a key on a line of its own.
    fn key_alone(&mut self, key: &KeyView<'_>, print: bool) -> Result<(), Cut>
        ensures { Adds K.written K.faults self.old self.new (value_line print (key_bytes (key_view_seen key.now))) result }
    {
        match key {
            KeyView::Bytes(key) => self.value_line(key, print),
            KeyView::Number(number) => self.number_alone(*number, print),
        }
    }

    /// Prints a pair, the key and the datum each on a line.
    fn pair_lines(&mut self, key: &KeyView<'_>, value: &Datum<'_>, print: bool) -> Result<(), Cut>
        ensures { Adds K.written K.faults self.old self.new (pair_lines print (key_view_seen key.now, datum_seen value.now)) result }
    {
        self.key_alone(key, print)?;
        self.value_line(value, print)
    }

    /// Prints a pair of a range.
    fn pair_of_range(&mut self, key: KeyView<'_>, value: Datum<'_>, print: bool) -> Result<(), Cut>
        ensures { Adds K.written K.faults self.old self.new (pair_lines print (key_view_seen key.entry, datum_seen value.entry)) result }
    {
        self.pair_lines(&key, &value, print)
    }

    /// Prints pairs.
    fn range_lines(&mut self, pairs: &mut RangePairs<'_, '_>, print: bool) -> Result<(), Cut>
        ensures { Adds K.written K.faults self.old self.new (pairs_text print pairs.old) result }
    {
        for (key, value) in pairs {
            self.pair_of_range(key, value, print)?;
        }
        Ok(())
    }

    /// The same, of pairs that are given up.
    fn pairs_text(&mut self, mut pairs: RangePairs<'_, '_>, print: bool) -> Result<(), Cut>
        ensures { Adds K.written K.faults self.old self.new (pairs_text print pairs.entry) result }
    {
        self.range_lines(&mut pairs, print)
    }
}

/// Writes the pairs of a range: the spellings of the key and of the datum each on a line, printed or else by digits. An error means that a write
/// failed, or that memory ran out.
#[tactic(auto, using(crate::proofs::PrinterLemmas::all_cut))]
pub fn write_pairs<K: Sink>(
    alloc: Global,
    out: &mut K,
    pairs: RangePairs<'_, '_>,
    print: bool,
) -> Result<(), Cut>
    ensures { Writes (pairs_text print pairs.entry) (change K.written K.faults out.old out.new) result }
{
    print_to!(alloc, out, printer => printer.pairs_text(pairs, print)?)
}
