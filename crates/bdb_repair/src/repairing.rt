//! `repair`: a sound file of what is salvaged.
ghost use Rattle.std.specs.Prelude.{◌≡◌, ◌≤◌, ◌^◌, IfErr, IfOk, IfSome, IsTrue, None, length};
ghost use Rattle.bdb_mkfile.specs.NamedImages.{HasBuiltTables};
ghost use Rattle.bdb_model.specs.of_format.Terms.{is_page_size};
ghost use Rattle.bdb_rescue.specs.Guesses.{chosen};
ghost use Rattle.bdb_repair.specs.Repairs.{IsRepaired, may_come, repair_answer, repair_refusal};

use crate::parts::repair_sections;
use crate::room::is_past;
use crate::{RepairError, Shape};
use bdb_io::Image;
use bdb_mkfile::{LoadError, load};
use bdb_model::Steps;
use bdb_rescue::{Guess, salvage};
use std::alloc::Global;
use std::sync::ledger::Ledger;

// Why what is salvaged isn't loaded.
fn repair_refusal(error: LoadError) -> RepairError
    requires { IsTrue (may_come error) }
    ensures { result ≡ repair_refusal error }
{
    match error {
        LoadError::TooLarge => RepairError::TooLarge,
        LoadError::Memory => RepairError::Memory,
        // No error of its pairs holds.
        LoadError::RecordTooLong(_)
        | LoadError::RecordZero(_)
        | LoadError::QueueAmongNames(_)
        | LoadError::OntoKind(_)
        | LoadError::OntoNames(_) => unreachable!(),
    }
}

// What was loaded, or why nothing was.
pub(crate) fn answer_of(loaded: Result<Image, LoadError>) -> Result<Image, RepairError>
    requires causes { IfErr loaded (λ error. IsTrue (may_come error)) }
    requires tables { IfOk loaded (λ image. HasBuiltTables image) }
    ensures answer { result ≡ repair_answer loaded }
    ensures tables { IfOk result (λ image. HasBuiltTables image) }
{
    match loaded {
        Ok(image) => Ok(image),
        Err(error) => Err(repair_refusal(error)),
    }
}

/// A sound file of at most `max` bytes with what is salvaged of an image, by the given guess or else that of page 0. With a shape it has one database
/// without a name, of that kind and those duplicates; without one the databases that `salvage` writes, `salvaged` and, if there are loose records,
/// `loose`. `NoMeta` without a guess; `TooLarge` exactly where the file would have more bytes; or memory ran out. If no datum may replace another,
/// and the data to keep have more bytes by themselves, nothing is copied. Copies have at most three times the bytes of the image, since a chain or a
/// set is copied once, however many items name it; beside them each pair takes 32 bytes.
pub fn repair_as<L: Ledger>(
    alloc: Global,
    image: &[u8],
    shape: Option<Shape>,
    guess: Option<Guess>,
    max: u64,
    steps: &mut Steps<L>,
) -> Result<Image, RepairError>
    requires size { IfSome guess (λ guess. IsTrue (is_page_size guess.page_size)) }
    requires small { length image.now ≤ 2 ^ 30 }
    requires max { max ≤ 2 ^ 30 }
    ensures repaired { IsRepaired max shape (chosen guess image.now) image.now result }
    ensures tables { IfOk result (λ image. HasBuiltTables image) }
{
    let salvaged = salvage(alloc, image, guess, steps)?;
    if is_past(&salvaged, shape, max) {
        return Err(RepairError::TooLarge);
    }
    let sections = repair_sections(alloc, shape, &salvaged)?;
    answer_of(load(alloc, sections, max))
}

/// `repair_as` without a shape: the databases `salvaged` and, if there are loose records, `loose`. The errors are the same.
pub fn repair<L: Ledger>(
    alloc: Global,
    image: &[u8],
    guess: Option<Guess>,
    max: u64,
    steps: &mut Steps<L>,
) -> Result<Image, RepairError>
    requires size { IfSome guess (λ guess. IsTrue (is_page_size guess.page_size)) }
    requires small { length image.now ≤ 2 ^ 30 }
    requires max { max ≤ 2 ^ 30 }
    ensures repaired { IsRepaired max None (chosen guess image.now) image.now result }
    ensures tables { IfOk result (λ image. HasBuiltTables image) }
{
    repair_as(alloc, image, None, guess, max, steps)
}
