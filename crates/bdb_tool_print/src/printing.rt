ghost use Rattle.std.specs.Prelude.{◌≡◌, ◌≤◌, [], false, length, OnOk};
ghost use Rattle.bdb_tool_lines.specs.of_model.Answers.{value_line};
ghost use Rattle.bdb_range.specs.of_format.Terms.{joined};
ghost use Rattle.bdb_text.specs.of_text_format.Terms.{data_line, line, spelling};
ghost use Rattle.bdb_range.specs.of_overflow.Datum.{datum_seen};
ghost use Rattle.bdb_tool_print.specs.Printers.{Adds};

use bdb_range::{Bytes, Datum, Pieces};
use bdb_text::{SHORT_VALUE, push_line_text, push_short_line};
use bdb_tool_lines::{Cut, Sink, put_all};
use std::alloc::Global;

/// How many bytes are gathered before they are written.
const PIECE: usize = 65536;

/// A text on its way to a sink: what was added is written to it, or pending. What is pending is written once it has 65536 bytes.
#[derive(Drop)]
pub struct Printer<'k, K: Sink> {
    pub alloc: Global,
    pub out: &'k mut K,
    pub pending: &'k mut Bytes,
}

/// Prints lines to a sink by a printer, and then writes what is pending of them. A `?` behind the lines ends the function where they aren't printed.
#[macro_export]
macro_rules! print_to {
    ($alloc:expr, $out:expr, $printer:ident => $lines:expr) => {{
        let mut pending = $crate::Bytes::new($alloc);
        let mut $printer = $crate::Printer {
            alloc: $alloc,
            out: $out,
            pending: &mut pending,
        };
        $lines;
        $printer.flush()
    }};
}

impl<'k, K: Sink> Printer<'k, K> {
    /// Writes what is pending, and then nothing is. An error is a write that failed.
    pub fn flush(&mut self) -> Result<(), Cut>
        ensures prints { Adds K.written K.faults self.old self.new [] result }
        ensures empty { OnOk result (self.new.pending.now ≡ []) }
    {
        match put_all(self.out, self.pending.as_slice()) {
            Ok(()) => {
                self.pending.clear();
                Ok(())
            }
            Err(_) => Err(Cut::WriteFault),
        }
    }

    /// Writes what is pending once it's enough for a piece.
    fn pass_on(&mut self) -> Result<(), Cut>
        ensures { Adds K.written K.faults self.old self.new [] result }
    {
        if self.pending.as_slice().len() < PIECE {
            return Ok(());
        }
        self.flush()
    }

    /// Adds a text as it is. An error means that a write failed, or that memory ran out.
    pub fn text(&mut self, text: &[u8]) -> Result<(), Cut>
        ensures { Adds K.written K.faults self.old self.new text.now result }
    {
        match self.pending.push_all(text) {
            Ok(()) => self.pass_on(),
            Err(_) => Err(Cut::Memory),
        }
    }

    /// Adds the spelling of bytes: printed, or else by digits. An error means that a write failed, or that memory ran out.
    pub fn spelled(&mut self, bytes: &[u8], print: bool) -> Result<(), Cut>
        ensures { Adds K.written K.faults self.old self.new (spelling print bytes.now) result }
    {
        match push_line_text(self.pending, bytes, print) {
            Ok(()) => self.pass_on(),
            Err(_) => Err(Cut::Memory),
        }
    }

    /// Adds the data line of a value of at most 127 bytes: a space, its spelling by digits and a line feed. It is put together before it is added,
    /// since most lines are such. An error means that a write failed, or that memory ran out.
    pub fn short_line(&mut self, value: &[u8]) -> Result<(), Cut>
        requires { length value.now ≤ SHORT_VALUE }
        ensures { Adds K.written K.faults self.old self.new (line (data_line false value.now)) result }
    {
        match push_short_line(self.pending, value) {
            Ok(()) => self.pass_on(),
            Err(_) => Err(Cut::Memory),
        }
    }

    /// Prints the spelling of the pieces of a value, one after another.
    fn pieces(&mut self, pieces: Pieces<'_>, print: bool) -> Result<(), Cut>
        ensures { Adds K.written K.faults self.old self.new (spelling print (joined pieces.entry)) result }
    {
        for piece in pieces {
            self.spelled(piece, print)?;
        }
        Ok(())
    }

    /// Adds the spelling of a value: printed, or else by digits. An error means that a write failed, or that memory ran out.
    pub fn datum(&mut self, value: &Datum<'_>, print: bool) -> Result<(), Cut>
        ensures { Adds K.written K.faults self.old self.new (spelling print (datum_seen value.now)) result }
    {
        match value {
            Datum::Inline(bytes) => self.spelled(bytes, print),
            Datum::Chained(pieces) => self.pieces(pieces.again(), print),
        }
    }

    /// Adds the line of a value: its spelling, printed or else by digits, and a line feed. An error means that a write failed, or that memory ran
    /// out.
    #[tactic(auto, using(crate::proofs::PrinterLemmas::then_adds, crate::proofs::PrinterLemmas::adds_cut))]
    pub fn value_line(&mut self, value: &Datum<'_>, print: bool) -> Result<(), Cut>
        ensures { Adds K.written K.faults self.old self.new (value_line print (datum_seen value.now)) result }
    {
        self.datum(value, print)?;
        self.text(b"\n")
    }

    /// As `value_line`, of a value that is dropped. An error means that a write failed, or that memory ran out.
    pub fn found_line(&mut self, value: Datum<'_>, print: bool) -> Result<(), Cut>
        ensures { Adds K.written K.faults self.old self.new (value_line print (datum_seen value.entry)) result }
    {
        self.value_line(&value, print)
    }
}
