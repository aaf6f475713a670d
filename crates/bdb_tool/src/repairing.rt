//! The command that puts what is salvaged into a new file.
ghost use Rattle.std.specs.Prelude.{◌≡◌, ◌⊎◌, ◌≤◌, ◌^◌, IfOk, length};
ghost use Rattle.bdb_repair.specs.of_mkfile.NamedImages.{HasBuiltTables};
ghost use Rattle.bdb_repair.specs.of_model.Change.{change};
ghost use Rattle.bdb_repair.specs.of_model.Lines.{memory_line};
ghost use Rattle.bdb_repair.specs.of_rescue.Guesses.{chosen, is_queue_or_master, unsupported_case};
ghost use Rattle.bdb_tool.specs.Claims.{ReadsWithin, built_guess};
ghost use Rattle.bdb_tool.specs.Outputs.{IsRepairAnswer};
ghost use Rattle.bdb_tool_ask.specs.of_tool_lines.Finished.{Tells};
ghost use Rattle.bdb_tool.specs.Parts.{Ends, IsBuiltTold, IsRepairBuilt, TellsWhy, refusal_by, refused_answer, repair_refusal};
ghost use Rattle.bdb_tool_words.specs.WordsSeen.{IsFitRepair};
ghost use Rattle.bdb_tool_build.specs.Lines.{image_too_large_line};

use bdb_repair::{
    Guess, Image, RepairError, Sink, Steps, Unsupported, is_queue_or_master, repair_apart,
    repair_as, unsupported_case,
};
use bdb_tool_ask::status::{NO_META, NOT_ONE, TOO_LARGE};
use bdb_tool_ask::{put, report, tell, tell_case, tell_memory};
use bdb_tool_build::image_too_large_line;
use bdb_tool_words::{Built, Repair};
use std::alloc::Global;
use std::sync::ledger::Ledger;

/// Why an image isn't repaired, whatever is salvaged of it: page 0 names a case that isn't supported, or says that the file isn't of the one database that is
/// asked for.
#[derive(Clone, Copy)]
pub(crate) enum RepairRefusal {
    Case(Unsupported),
    NotOne,
}

/// Tells that the image would have more bytes than its limit.
fn tell_too_large<E: Sink>(alloc: Global, limit: u32, err: &mut E) -> u8
    ensures { Tells (image_too_large_line limit) 6 (change E.written E.faults err.old err.new) result
        ⊎ Tells memory_line 7 (change E.written E.faults err.old err.new) result }
{
    match image_too_large_line(alloc, limit) {
        Ok(line) => tell(err, line.as_bytes(), TOO_LARGE),
        Err(_) => tell_memory(err),
    }
}

// Tells why nothing was built.
fn tell_unbuilt<E: Sink>(alloc: Global, error: RepairError, limit: u32, err: &mut E) -> u8
    ensures { TellsWhy limit error (change E.written E.faults err.old err.new) result }
{
    match error {
        RepairError::NoMeta => tell(err, b"no metadata page\n", NO_META),
        RepairError::TooLarge => tell_too_large(alloc, limit, err),
        RepairError::Memory => tell_memory(err),
    }
}

// Writes an image that was built, or tells why there is none.
fn answer_built<K: Sink, E: Sink>(
    alloc: Global,
    built: Result<Image, RepairError>,
    limit: u32,
    out: &mut K,
    err: &mut E,
) -> u8
    ensures { IsBuiltTold limit built (change K.written K.faults out.old out.new) (change E.written E.faults err.old err.new) result }
{
    match built {
        Ok(built) => report(put(out, built.bytes()), err),
        Err(error) => tell_unbuilt(alloc, error, limit, err),
    }
}

// Why a file isn't made one of one database; other files are refused by page 0 alone.
fn refusal_by(one: bool, guess: Option<Guess>, image: &[u8]) -> Option<RepairRefusal>
    ensures { result ≡ refusal_by one (unsupported_case guess image.now) (is_queue_or_master guess image.now) }
{
    if let Some(case) = unsupported_case(guess, image) {
        return Some(RepairRefusal::Case(case));
    }
    if one && is_queue_or_master(guess, image) {
        return Some(RepairRefusal::NotOne);
    }
    None
}

// Why an image isn't repaired, whatever is salvaged of it.
fn refusal_of(asked: Repair, image: &[u8]) -> Option<RepairRefusal>
    ensures { result ≡ repair_refusal asked.built asked.guess image.now }
{
    match asked.built {
        Built::Each => refusal_by(false, asked.guess, image),
        Built::Shaped(None) => None,
        Built::Shaped(Some(_)) => refusal_by(true, asked.guess, image),
    }
}

// Tells why an image isn't repaired.
fn tell_refusal<E: Sink>(alloc: Global, refusal: RepairRefusal, err: &mut E) -> u8
    ensures { Tells (refused_answer refusal).err (refused_answer refusal).status (change E.written E.faults err.old err.new) result
        ⊎ Tells memory_line 7 (change E.written E.faults err.old err.new) result }
{
    match refusal {
        RepairRefusal::Case(case) => tell_case(alloc, case, err),
        RepairRefusal::NotOne => tell(err, b"not one btree, hash or recno\n", NOT_ONE),
    }
}

// A file of the stored pairs and the loose records, of one database of a shape, or of each database that is found.
fn built_of<L: Ledger>(
    alloc: Global,
    image: &[u8],
    asked: Repair,
    limit: u32,
    steps: &mut Steps<L>,
) -> Result<Image, RepairError>
    requires size { length image.now ≤ 2 ^ 30 }
    requires guess { IsFitRepair asked }
    requires limit { limit ≤ 2 ^ 30 }
    ensures built { IsRepairBuilt limit asked.built (chosen asked.guess image.now) image.now result }
    ensures tables { IfOk result (λ built. HasBuiltTables built) }
    ensures cost { ReadsWithin (built_guess asked.built asked.guess) image.now steps.old steps.new }
{
    let max = u64::from(limit);
    match asked.built {
        Built::Each => repair_apart(alloc, image, asked.guess, max, steps),
        Built::Shaped(shape) => repair_as(alloc, image, shape, asked.guess, max, steps),
    }
}

/// Answers `repair` of an image. Nothing is written before the new one stands whole. Where each database is built, `steps` counts the pages whose
/// references are read for claims: each whole page at most once.
pub(crate) fn answer_repair<K: Sink, E: Sink, L: Ledger>(
    alloc: Global,
    image: &[u8],
    asked: Repair,
    limit: u32,
    out: &mut K,
    err: &mut E,
    steps: &mut Steps<L>,
) -> u8
    requires size { length image.now ≤ 2 ^ 30 }
    requires limit { limit ≤ 2 ^ 30 }
    requires guess { IsFitRepair asked }
    ensures answer { Ends (IsRepairAnswer limit asked.built asked.guess image.now)
        (change K.written K.faults out.old out.new) (change E.written E.faults err.old err.new) result }
    ensures cost { ReadsWithin (built_guess asked.built asked.guess) image.now steps.old steps.new }
{
    if let Some(refusal) = refusal_of(asked, image) {
        return tell_refusal(alloc, refusal, err);
    }
    let built = built_of(alloc, image, asked, limit, steps);
    answer_built(alloc, built, limit, out, err)
}
