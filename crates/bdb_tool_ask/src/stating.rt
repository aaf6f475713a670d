//! The command that tells what the pages of a file are.
ghost use Rattle.std.specs.Prelude.{◌≡◌, IfOk, string_bytes};
ghost use Rattle.bdb_file.specs.of_format.Terms.{file_of};
ghost use Rattle.bdb_tool_dump.specs.of_tool_lines.Printing.{Writes};
ghost use Rattle.bdb_tool_ask.specs.FileAnswers.{stat_text};
ghost use Rattle.bdb_tool_words.specs.of_model.Answers.{done};
ghost use Rattle.bdb_tool_words.specs.of_model.Change.{change};
ghost use Rattle.bdb_tool_dump.specs.of_tool_lines.Finished.{Finishes};
ghost use Rattle.bdb_tool_ask.specs.Figures.{figures_text, last_figures, other_figures, tree_figures};

use bdb_file::Sound;
use bdb_stat::{Stat, stat};
use bdb_swap::Sink;
use bdb_tool_dump::{put, report};
use bdb_tool_print::Cut;
use std::alloc::{AllocError, Global};

/// The lines of all pages, and of those of trees.
fn tree_figures(alloc: Global, stat: &Stat) -> Result<String, AllocError>
    ensures { IfOk result (λ text. string_bytes text ≡ tree_figures stat.now) }
{
    let Stat {
        pages,
        meta,
        internal,
        leaf,
        ..
    } = *stat;
    format!(in alloc; "pages {pages}\nmeta {meta}\ninternal {internal}\nleaf {leaf}\n")
}

/// The lines of other pages.
fn other_figures(alloc: Global, stat: &Stat) -> Result<String, AllocError>
    ensures { IfOk result (λ text. string_bytes text ≡ other_figures stat.now) }
{
    let Stat {
        hash,
        overflow,
        free,
        reserve,
        ..
    } = *stat;
    format!(in alloc; "hash {hash}\noverflow {overflow}\nfree {free}\nreserve {reserve}\n")
}

/// The lines of pages of queues, of those above the last page, and of all pages together.
fn last_figures(alloc: Global, stat: &Stat) -> Result<String, AllocError>
    ensures { IfOk result (λ text. string_bytes text ≡ last_figures stat.now) }
{
    let Stat {
        queue,
        tail,
        levels,
        unused,
        ..
    } = *stat;
    format!(in alloc; "queue {queue}\ntail {tail}\nlevels {levels}\nunused {unused}\n")
}

/// The lines of the figures.
fn figures_text(alloc: Global, stat: &Stat) -> Result<String, AllocError>
    ensures { IfOk result (λ text. string_bytes text ≡ figures_text stat.now) }
{
    let trees = tree_figures(alloc, stat)?;
    let others = other_figures(alloc, stat)?;
    let last = last_figures(alloc, stat)?;
    format!(in alloc; "{trees}{others}{last}")
}

/// Writes the figures of a sound file, a line each.
fn print_figures<K: Sink>(alloc: Global, sound: &Sound<'_>, out: &mut K) -> Result<(), Cut>
    ensures { Writes (stat_text (file_of sound.now)) (change K.written K.faults out.old out.new) result }
{
    let linked = sound.linked();
    let forest = linked.forest();
    let Ok(figures) = stat(alloc, linked, forest.image()) else {
        return Err(Cut::Memory);
    };
    match figures_text(alloc, &figures) {
        Ok(text) => put(out, text.as_bytes()),
        Err(_) => Err(Cut::Memory),
    }
}

/// Answers `stat`.
#[tactic(auto, using(crate::proofs::Below::written_finishes))]
pub(crate) fn answer_stat<K: Sink, E: Sink>(
    alloc: Global,
    sound: &Sound<'_>,
    out: &mut K,
    err: &mut E,
) -> u8
    ensures { Finishes (done (stat_text (file_of sound.now))) (change K.written K.faults out.old out.new) (change E.written E.faults err.old err.new) result }
{
    report(print_figures(alloc, sound, out), err)
}
