//! The commands that build a file.
ghost use Rattle.std.specs.Prelude.{◌≤◌, ◌^◌, length};
ghost use Rattle.bdb_repair.specs.of_model.Change.{change};
ghost use Rattle.bdb_repair.specs.of_format.Terms.{verdict_of};
ghost use Rattle.bdb_tool.specs.Ontos.{IsOntoBy};
ghost use Rattle.bdb_tool.specs.Parts.{Ends, IsImageTold, IsRefusalTold};
ghost use Rattle.bdb_tool_words.specs.WordsSeen.{IsFitTrial};
ghost use Rattle.bdb_tool_build.specs.Loads.{IsTextAnswer};
ghost use Rattle.bdb_tool_build.specs.Trials.{IsTrialAnswer};

use bdb_repair::{Image, Sink, Steps};
use bdb_tool_ask::status::{BAD_TEXT, TOO_LARGE};
use bdb_tool_ask::{put, refuse, report, tell, tell_memory};
use bdb_tool_build::{Refusal, load_text, load_text_onto, open_base, trial_text};
use bdb_tool_words::Trial;
use std::alloc::Global;
use std::sync::ledger::Ledger;

// Tells why nothing is built.
fn tell_refusal<E: Sink>(refusal: Refusal, err: &mut E) -> u8
    ensures { IsRefusalTold refusal (change E.written E.faults err.old err.new) result }
{
    match refusal {
        Refusal::Faulty(line) => tell(err, line.as_bytes(), BAD_TEXT),
        Refusal::TooLarge(line) => tell(err, line.as_bytes(), TOO_LARGE),
        Refusal::Memory => tell_memory(err),
    }
}

// Writes an image that was built, or tells why there is none.
fn answer_built<K: Sink, E: Sink>(built: Result<Image, Refusal>, out: &mut K, err: &mut E) -> u8
    ensures { IsImageTold built (change K.written K.faults out.old out.new) (change E.written E.faults err.old err.new) result }
{
    match built {
        Ok(image) => report(put(out, image.bytes()), err),
        Err(refusal) => tell_refusal(refusal, err),
    }
}

/// Answers `load` of a text, which is given up once it is read. Nothing is written before the image stands whole.
pub(crate) fn answer_load<K: Sink, E: Sink>(
    alloc: Global,
    text: Image,
    limit: u32,
    out: &mut K,
    err: &mut E,
) -> u8
    requires text { length text ≤ 2 ^ 30 }
    requires limit { limit ≤ 2 ^ 30 }
    ensures { Ends (IsTextAnswer limit text) (change K.written K.faults out.old out.new) (change E.written E.faults err.old err.new) result }
{
    let built = load_text(alloc, text, limit);
    answer_built(built, out, err)
}

/// Answers `load` of a text onto a base, whose databases are copied out of its image one at a time. Nothing is written before the image of the answer
/// stands whole.
pub(crate) fn answer_onto<K: Sink, E: Sink, L: Ledger>(
    alloc: Global,
    text: Image,
    image: Image,
    limit: u32,
    out: &mut K,
    err: &mut E,
    steps: &mut Steps<L>,
) -> u8
    requires text { length text ≤ 2 ^ 30 }
    requires image { length image ≤ 2 ^ 30 }
    requires limit { limit ≤ 2 ^ 30 }
    ensures { Ends (IsOntoBy limit (verdict_of image) text image) (change K.written K.faults out.old out.new)
        (change E.written E.faults err.old err.new) result }
{
    match open_base(alloc, image.bytes(), steps) {
        Ok(sound) => {
            let built = load_text_onto(alloc, text, &sound, limit);
            answer_built(built, out, err)
        }
        Err(error) => refuse(alloc, error, err),
    }
}

/// Answers `trial`.
pub(crate) fn answer_trial<K: Sink, E: Sink, L: Ledger>(
    alloc: Global,
    trial: Trial,
    limit: u32,
    out: &mut K,
    err: &mut E,
    steps: &mut Steps<L>,
) -> u8
    requires trial { IsFitTrial trial }
    requires limit { limit ≤ 2 ^ 30 }
    ensures { Ends (IsTrialAnswer limit trial.kind trial.seed trial.count) (change K.written K.faults out.old out.new)
        (change E.written E.faults err.old err.new) result }
{
    match trial_text(alloc, trial.kind, trial.seed, trial.count, limit, steps) {
        Ok(text) => report(put(out, text.as_bytes()), err),
        Err(refusal) => tell_refusal(refusal, err),
    }
}
