//! The command that puts a file into a byte order.
ghost use Rattle.std.specs.Prelude.{◌⊎◌};
ghost use Rattle.bdb_tool_ask.specs.FileAnswers.{converted, overlap_line};
ghost use Rattle.bdb_tool_words.specs.of_model.Change.{change};
ghost use Rattle.bdb_stat.specs.of_law_turned.Flipped.{overlap_in};
ghost use Rattle.bdb_tool_words.specs.of_model.Lines.{memory_line};
ghost use Rattle.bdb_tool_dump.specs.of_tool_lines.Finished.{Finishes, Tells};

use crate::text::overlap_line;
use bdb_file::{Order, Sound};
use bdb_swap::{FlipError, Sink, flip};
use bdb_tool_dump::status::OVERLAP;
use bdb_tool_dump::{put, report, tell, tell_memory};
use std::alloc::Global;

/// Tells the page on which items overlap.
#[tactic(auto, using(crate::proofs::ConvertLemmas::line_told))]
fn tell_overlap<E: Sink>(alloc: Global, page: u32, err: &mut E) -> u8
    ensures { Tells (overlap_line page) 13 (change E.written E.faults err.old err.new) result ⊎ Tells memory_line 7 (change E.written E.faults err.old err.new)
        result }
{
    match overlap_line(alloc, page) {
        Ok(line) => tell(err, line.as_bytes(), OVERLAP),
        Err(_) => tell_memory(err),
    }
}

/// Answers `convert`. Nothing is written before the image stands whole.
#[tactic(auto, using(crate::proofs::ConvertLemmas::no_memory_finishes))]
pub(crate) fn answer_convert<K: Sink, E: Sink>(
    alloc: Global,
    sound: &Sound<'_>,
    order: Order,
    out: &mut K,
    err: &mut E,
) -> u8
    ensures { Finishes (converted (overlap_in order sound.now) order sound.now) (change K.written K.faults out.old out.new)
        (change E.written E.faults err.old err.new) result }
{
    let linked = sound.linked();
    let forest = linked.forest();
    match flip(alloc, linked, forest.image(), order) {
        Ok(image) => report(put(out, image.bytes()), err),
        Err(FlipError::Overlap(page)) => tell_overlap(alloc, page, err),
        Err(FlipError::Memory) => tell_memory(err),
    }
}
