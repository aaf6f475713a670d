//! The commands that read a damaged image: its texts, and what it still has.
ghost use Rattle.std.specs.Prelude.{◌≡◌, ◌+◌, ◌≤◌, ◌^◌, Some, length};
ghost use Rattle.bdb_repair.specs.Claims.{claim_pages};
ghost use Rattle.bdb_repair.specs.of_model.Change.{change};
ghost use Rattle.bdb_repair.specs.of_rescue.Kept.{file_in};
ghost use Rattle.bdb_tool.specs.Outputs.{extract_answer};
ghost use Rattle.bdb_tool.specs.Wants.{case_of, wanted_answer, wanted_by, wanted_of};
ghost use Rattle.bdb_tool_ask.specs.of_tool_lines.Finished.{Finishes};
ghost use Rattle.bdb_tool_words.specs.WordsSeen.{IsFitGuess};

use bdb_repair::{
    Apart, Guess, SalvageError, Salvaged, Sink, Steps, Unsupported, apart_of, salvage_uncounted,
    unsupported_case,
};
use bdb_tool_ask::status::NO_META;
use bdb_tool_ask::{
    report, tell, tell_case, tell_memory, write_apart, write_rest, write_salvaged, write_survey,
};
use bdb_tool_words::{Parts, Salvage};
use std::alloc::Global;
use std::sync::ledger::Ledger;

/// What is told of an image database by database: what is salvaged of each or belongs to none, where data may be printed, or what it
/// still has, with the case that page 0 names.
#[derive(Clone, Copy)]
pub(crate) enum Extract {
    Apart(bool),
    Rest(bool),
    Survey(Option<Unsupported>),
}

/// What is wanted of a damaged image: what is salvaged, all together, where data may be printed, or what is told of it database by database.
#[derive(Clone, Copy)]
pub(crate) enum Wanted {
    Together(bool),
    Extract(Extract),
}

/// What `salvage` wants.
pub(crate) fn wanted_of(asked: Salvage) -> Wanted
    ensures { result ≡ wanted_of asked }
{
    match asked.parts {
        Parts::Together => Wanted::Together(asked.print),
        Parts::Apart => Wanted::Extract(Extract::Apart(asked.print)),
        Parts::Rest => Wanted::Extract(Extract::Rest(asked.print)),
    }
}

// The case that page 0 names, where it's told in place of what is wanted.
fn case_of(wanted: Wanted, guess: Option<Guess>, image: &[u8]) -> Option<Unsupported>
    ensures { result ≡ case_of wanted guess image.now }
{
    match wanted {
        Wanted::Extract(Extract::Apart(_) | Extract::Rest(_)) => unsupported_case(guess, image),
        Wanted::Extract(Extract::Survey(_)) | Wanted::Together(_) => None,
    }
}

// Answers with what is told of an image whose databases are found.
fn answer_known<K: Sink, E: Sink>(
    alloc: Global,
    apart: &Apart<'_, '_>,
    extract: Extract,
    out: &mut K,
    err: &mut E,
) -> u8
    ensures { Finishes (extract_answer extract apart.now)
        (change K.written K.faults out.old out.new) (change E.written E.faults err.old err.new) result }
{
    match extract {
        Extract::Apart(print) => match apart.databases().next() {
            Some(_) => report(write_apart(alloc, out, apart, print), err),
            None => tell(err, b"no metadata page\n", NO_META),
        },
        Extract::Rest(print) => report(write_rest(alloc, out, apart, print), err),
        Extract::Survey(case) => report(write_survey(alloc, out, apart, case), err),
    }
}

// Answers with what is wanted of what is salvaged.
fn answer_salvaged<K: Sink, E: Sink, L: Ledger>(
    alloc: Global,
    salvaged: &Salvaged<'_>,
    wanted: Wanted,
    out: &mut K,
    err: &mut E,
    steps: &mut Steps<L>,
) -> u8
    requires { length salvaged.now.image ≤ 2 ^ 30 }
    ensures answer { Finishes (wanted_by wanted (Some salvaged.now.guess) salvaged.now.image)
        (change K.written K.faults out.old out.new) (change E.written E.faults err.old err.new) result }
    ensures cost { steps.new ≤ steps.old + (file_in salvaged.now).count }
{
    match wanted {
        Wanted::Together(print) => report(write_salvaged(alloc, out, salvaged, print), err),
        Wanted::Extract(extract) => match apart_of(alloc, salvaged, steps) {
            Ok(apart) => answer_known(alloc, &apart, extract, out, err),
            Err(_) => tell_memory(err),
        },
    }
}

/// Answers with what is wanted of an image, by the guess that is given or that page 0 tells. `steps` counts the pages whose references are read for
/// claims: each whole page at most once.
pub(crate) fn answer_damaged<K: Sink, E: Sink, L: Ledger>(
    alloc: Global,
    image: &[u8],
    guess: Option<Guess>,
    wanted: Wanted,
    out: &mut K,
    err: &mut E,
    steps: &mut Steps<L>,
) -> u8
    requires size { length image.now ≤ 2 ^ 30 }
    requires guess { IsFitGuess guess }
    ensures answer { Finishes (wanted_answer wanted guess image.now)
        (change K.written K.faults out.old out.new) (change E.written E.faults err.old err.new) result }
    ensures cost { steps.new ≤ steps.old + claim_pages guess image.now }
{
    if let Some(case) = case_of(wanted, guess, image) {
        return tell_case(alloc, case, err);
    }
    match salvage_uncounted(alloc, image, guess) {
        Ok(salvaged) => answer_salvaged(alloc, &salvaged, wanted, out, err, steps),
        Err(SalvageError::NoMeta) => tell(err, b"no metadata page\n", NO_META),
        Err(SalvageError::Memory) => tell_memory(err),
    }
}
