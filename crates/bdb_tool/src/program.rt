ghost use Rattle.std.specs.Prelude.{◌≡◌, ◌⊎◌, ◌≤◌, ◌^◌, List, Some, false, is_some, length, true, ℕ};
ghost use Rattle.bdb_repair.specs.of_model.Change.{change};
ghost use Rattle.bdb_repair.specs.of_model.Lines.{memory_line};
ghost use Rattle.bdb_tool_words.specs.Commands.{command_on};
ghost use Rattle.bdb_tool.specs.Claims.{RunReads};
ghost use Rattle.bdb_tool.specs.Outputs.{Asked, asked_alone};
ghost use Rattle.bdb_tool.specs.Parts.{EndsOnto, IsToldOfBase, IsToldStop, too_long_line};
ghost use Rattle.bdb_tool_ask.specs.of_tool_lines.Finished.{Tells};
ghost use Rattle.bdb_tool.specs.Runs.{RunsAs, RunsOn, base_change};
ghost use Rattle.bdb_tool_words.specs.WordsSeen.{AreOnto};

use crate::answer::answer;
use crate::building::answer_onto;
use crate::task::{Stop, input_of, task_of};
use crate::text::too_long_line;
use bdb_repair::{Image, PureSource, Sink, Source, Steps, Words};
use bdb_tool_ask::status::{READ_FAULT, TOO_LARGE};
use bdb_tool_ask::{tell, tell_memory, tell_usage};
use bdb_tool_words::base_limit;
use std::alloc::Global;
use std::sync::ledger::{Blank, Ledger};

/// All that the program does. Reads the source if the arguments ask for it, and then the base, a second file, if they ask for one that is handed in;
/// writes the answer to `out` and lines on what is wrong to `err`; and answers the exit status, one of the constants in `status`. `steps` counts the
/// pages whose references are read; of `salvage`, `survey` and `repair --apart` those that are read for claims, each whole page of the input at most once.
pub fn run<S: Source, B: Source, K: Sink, E: Sink, L: Ledger>(
    alloc: Global,
    words: &Words,
    source: &mut S,
    base: Option<&mut B>,
    out: &mut K,
    err: &mut E,
    steps: &mut Steps<L>,
) -> u8
    ensures runs { RunsOn words.now (change S.left S.faults source.old source.new) (base_change B.left B.faults base.entry base.exit)
        (change K.written K.faults out.old out.new) (change E.written E.faults err.old err.new) result }
    ensures cost { RunReads (command_on words.now (is_some base.entry)) (change S.left S.faults source.old source.new) steps.old steps.new }
{
    match base {
        Some(base) => run_with(alloc, words, source, base, out, err, steps),
        None => run_alone(alloc, words, source, out, err, steps),
    }
}

/// `run` without a base, and with a counter of its own, which nobody reads.
pub fn run_counted<L: Ledger, S: Source, K: Sink, E: Sink>(
    alloc: Global,
    words: &Words,
    source: &mut S,
    out: &mut K,
    err: &mut E,
    blank: Blank,
) -> u8
    requires name { blank.name ≡ L.name }
    requires parts { blank.parts ≡ L.parts }
    requires one { L.parts ≡ 1 }
    ensures { RunsAs (asked_alone words.now) (change S.left S.faults source.old source.new) (change K.written K.faults out.old out.new)
        (change E.written E.faults err.old err.new) result }
{
    let mut steps = Steps::<L>::new(blank);
    run::<S, PureSource, K, E, L>(alloc, words, source, None, out, err, &mut steps)
}

/// `run` with a base, and with a counter of its own, which nobody reads.
pub fn run_onto<L: Ledger, S: Source, B: Source, K: Sink, E: Sink>(
    alloc: Global,
    words: &Words,
    source: &mut S,
    base: &mut B,
    out: &mut K,
    err: &mut E,
    blank: Blank,
) -> u8
    requires name { blank.name ≡ L.name }
    requires parts { blank.parts ≡ L.parts }
    requires one { L.parts ≡ 1 }
    ensures { RunsOn words.now (change S.left S.faults source.old source.new) (Some (change B.left B.faults base.old base.new))
        (change K.written K.faults out.old out.new) (change E.written E.faults err.old err.new) result }
{
    let mut steps = Steps::<L>::new(blank);
    run::<S, B, K, E, L>(alloc, words, source, Some(base), out, err, &mut steps)
}

// A run without a base, or with one that the words don't ask for.
fn run_alone<S: Source, K: Sink, E: Sink, L: Ledger>(
    alloc: Global,
    words: &Words,
    source: &mut S,
    out: &mut K,
    err: &mut E,
    steps: &mut Steps<L>,
) -> u8
    ensures runs { (asked : Asked) → asked.command ≡ command_on words.now false
        → RunsAs asked (change S.left S.faults source.old source.new) (change K.written K.faults out.old out.new) (change E.written E.faults err.old err.new)
        result }
    ensures cost { RunReads (command_on words.now false) (change S.left S.faults source.old source.new) steps.old steps.new }
{
    match task_of(alloc, words, source) {
        Ok(task) => answer(alloc, task, out, err, steps),
        Err(stop) => stopped(alloc, stop, err),
    }
}

// A run with a base.
fn run_with<S: Source, B: Source, K: Sink, E: Sink, L: Ledger>(
    alloc: Global,
    words: &Words,
    source: &mut S,
    base: &mut B,
    out: &mut K,
    err: &mut E,
    steps: &mut Steps<L>,
) -> u8
    ensures runs { RunsOn words.now (change S.left S.faults source.old source.new) (Some (change B.left B.faults base.old base.new))
        (change K.written K.faults out.old out.new) (change E.written E.faults err.old err.new) result }
    ensures cost { RunReads (command_on words.now true) (change S.left S.faults source.old source.new) steps.old steps.new }
{
    match base_limit(words) {
        Some(limit) => load_onto(alloc, limit, source, base, out, err, steps),
        None => run_alone(alloc, words, source, out, err, steps),
    }
}

// Loads a text onto a base, each of at most so many bytes.
fn load_onto<S: Source, B: Source, K: Sink, E: Sink, L: Ledger>(
    alloc: Global,
    limit: u32,
    source: &mut S,
    base: &mut B,
    out: &mut K,
    err: &mut E,
    steps: &mut Steps<L>,
) -> u8
    requires { limit ≤ 2 ^ 30 }
    ensures { (words : List (List ℕ)) → AreOnto words limit → RunsOn words (change S.left S.faults source.old source.new)
        (Some (change B.left B.faults base.old base.new)) (change K.written K.faults out.old out.new) (change E.written E.faults err.old err.new) result }
{
    match input_of(alloc, source, limit) {
        Ok(text) => load_text_onto(alloc, text, limit, base, out, err, steps),
        Err(stop) => stopped(alloc, stop, err),
    }
}

// Loads a text onto a base that is read now.
fn load_text_onto<B: Source, K: Sink, E: Sink, L: Ledger>(
    alloc: Global,
    text: Image,
    limit: u32,
    base: &mut B,
    out: &mut K,
    err: &mut E,
    steps: &mut Steps<L>,
) -> u8
    requires text { length text ≤ 2 ^ 30 }
    requires limit { limit ≤ 2 ^ 30 }
    ensures { EndsOnto limit text (change B.left B.faults base.old base.new) (change K.written K.faults out.old out.new)
        (change E.written E.faults err.old err.new) result }
{
    match input_of(alloc, base, limit) {
        Ok(image) => answer_onto(alloc, text, image, limit, out, err, steps),
        Err(stop) => tell_unread_base(alloc, stop, err),
    }
}

// Tells that the input is longer than this many bytes, or the base is.
fn tell_too_long<E: Sink>(alloc: Global, is_base: bool, limit: u32, err: &mut E) -> u8
    ensures { Tells (too_long_line is_base limit) 6 (change E.written E.faults err.old err.new) result
        ⊎ Tells memory_line 7 (change E.written E.faults err.old err.new) result }
{
    match too_long_line(alloc, is_base, limit) {
        Ok(line) => tell(err, line.as_bytes(), TOO_LARGE),
        Err(_) => tell_memory(err),
    }
}

// Tells why a base isn't read.
fn tell_unread_base<E: Sink>(alloc: Global, stop: Stop, err: &mut E) -> u8
    ensures { IsToldOfBase stop (change E.written E.faults err.old err.new) result }
{
    match stop {
        Stop::TooLarge(limit) => tell_too_long(alloc, true, limit, err),
        Stop::Usage | Stop::ReadFault | Stop::Memory => stopped(alloc, stop, err),
    }
}

// Tells why there was no task, and answers the status.
fn stopped<E: Sink>(alloc: Global, stop: Stop, err: &mut E) -> u8
    ensures { IsToldStop stop (change E.written E.faults err.old err.new) result }
{
    match stop {
        Stop::Usage => tell_usage(err),
        Stop::TooLarge(limit) => tell_too_long(alloc, false, limit, err),
        Stop::ReadFault => tell(err, b"read fault\n", READ_FAULT),
        Stop::Memory => tell_memory(err),
    }
}
