ghost use Rattle.std.specs.Prelude.{◌≢◌};
ghost use Rattle.bdb_model.specs.Change.{change};
ghost use Rattle.bdb_model.specs.Lines.{memory_line};
ghost use Rattle.bdb_tool_lines.specs.Finished.{Reports, Tells};
ghost use Rattle.bdb_tool_lines.specs.Printing.{Writes};

use crate::cut::Cut;
use crate::status::{DONE, MEMORY, WRITE_FAULT};
use bdb_io::{Sink, put_all};

/// Writes an error line to `err`, and answers its status; or that of a write fault where the line isn't written whole.
pub fn tell<E: Sink>(err: &mut E, text: &[u8], status: u8) -> u8
    requires { status ≢ 5 }
    ensures { Tells text.now status (change E.written E.faults err.old err.new) result }
{
    match put_all(err, text) {
        Ok(()) => status,
        Err(_) => WRITE_FAULT,
    }
}

/// Writes the line that memory ran out to `err`, and answers its status; or that of a write fault where the line isn't written whole.
pub fn tell_memory<E: Sink>(err: &mut E) -> u8
    ensures { Tells memory_line 7 (change E.written E.faults err.old err.new) result }
{
    tell(err, b"out of memory\n", MEMORY)
}

/// Writes a text to the output, or a prefix of it where a write fails, which is the one error.
#[tactic(auto, using(crate::proofs::FinishLemmas::line_written, crate::proofs::FinishLemmas::line_cut))]
pub fn put<K: Sink>(out: &mut K, text: &[u8]) -> Result<(), Cut>
    ensures { Writes text.now (change K.written K.faults out.old out.new) result }
{
    match put_all(out, text) {
        Ok(()) => Ok(()),
        Err(_) => Err(Cut::WriteFault),
    }
}

/// The status of an answer that was written to the output: `DONE`, or why it wasn't written whole, with the line that says so on `err`.
#[tactic(auto, using(crate::proofs::Below::appends_nothing))]
pub fn report<E: Sink>(written: Result<(), Cut>, err: &mut E) -> u8
    ensures { Reports written (change E.written E.faults err.old err.new) result }
{
    match written {
        Ok(()) => DONE,
        Err(Cut::WriteFault) => {
            let _ = put_all(err, b"write fault\n");
            WRITE_FAULT
        }
        Err(Cut::Memory) => tell_memory(err),
    }
}
