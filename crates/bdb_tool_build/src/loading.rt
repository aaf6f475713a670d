//! `load`: from a dump text to the image of its sections.
ghost use Rattle.std.specs.Prelude.{◌≡◌, ◌≤◌, ◌^◌, IfErr, IfOk, List, MatchResult, length, string_bytes, ℕ};
ghost use Rattle.bdb_model.specs.Answers.{done, told};
ghost use Rattle.bdb_model.specs.of_text_format.Terms.{Reads, text_fault};
ghost use Rattle.bdb_onto.specs.of_mkfile.Loading.{AreLoadable, loading_error};
ghost use Rattle.bdb_tool_build.specs.Lines.{image_too_large_line};
ghost use Rattle.bdb_onto.specs.Bases.{IsBase, base_of};
ghost use Rattle.bdb_onto.specs.Onto.{loading_error_onto};
ghost use Rattle.bdb_tool_build.specs.Ontos.{IsLoadOnto, IsTextOnto};
ghost use Rattle.bdb_tool_build.specs.Loads.{IsErrorAnswer, IsFaultAnswer, IsLoadAnswer, IsTextAnswer};
ghost use Rattle.bdb_tool_build.specs.Refusals.{IsRefusedAnswer, Says};

use crate::onto::image_onto;
use crate::refusal::Refusal;
use crate::texts::{error_line, image_too_large_line, reason_line};
use bdb_file::Sound;
use bdb_io::Image;
use bdb_model::{Sections, TextFault};
use bdb_onto::{LoadError, TextError, load, read_dump};
use std::alloc::{AllocError, Global};

// A line of why a text isn't loaded, where there is memory for it.
fn faulty(line: Result<String, AllocError>) -> Refusal
    ensures { (bytes : List ℕ) → IfOk line (λ text. string_bytes text ≡ bytes) → Says (told 8 bytes) result }
{
    match line {
        Ok(line) => Refusal::Faulty(line),
        Err(_) => Refusal::Memory,
    }
}

// Why an image isn't built that would be too large.
fn too_large(alloc: Global, limit: u32) -> Refusal
    ensures { Says (told 6 (image_too_large_line limit)) result }
{
    match image_too_large_line(alloc, limit) {
        Ok(line) => Refusal::TooLarge(line),
        Err(_) => Refusal::Memory,
    }
}

/// Why sections with a load error aren't loaded.
pub(crate) fn refusal_of(alloc: Global, error: LoadError, limit: u32) -> Refusal
    ensures { IsRefusedAnswer (IsErrorAnswer limit error) result }
{
    match error {
        LoadError::RecordTooLong(_)
        | LoadError::RecordZero(_)
        | LoadError::QueueAmongNames(_)
        | LoadError::OntoKind(_)
        | LoadError::OntoNames(_) => faulty(error_line(alloc, error)),
        LoadError::TooLarge => too_large(alloc, limit),
        LoadError::Memory => Refusal::Memory,
    }
}

// The sections of a text, which is given up.
fn sections_of(alloc: Global, text: Image) -> Result<Sections, Refusal>
    requires { length text ≤ 2 ^ 30 }
    ensures read { IfOk result (λ sections. Reads text sections) }
    ensures refused { IfErr result (IsRefusedAnswer (IsFaultAnswer (text_fault text))) }
{
    match read_dump(alloc, text.bytes()) {
        Ok(sections) => Ok(sections),
        Err(TextError::Fault(fault)) => Err(faulty(reason_line(alloc, fault))),
        Err(TextError::Memory) => Err(Refusal::Memory),
    }
}

// The image of sections that can be loaded.
fn load_sections(alloc: Global, sections: Sections, limit: u32) -> Result<Image, Refusal>
    requires limit { limit ≤ 2 ^ 30 }
    requires fit { AreLoadable sections }
    ensures { MatchResult result (λ image. IsLoadAnswer limit (loading_error limit sections) sections (done image))
        (IsRefusedAnswer (IsLoadAnswer limit (loading_error limit sections) sections)) }
{
    match load(alloc, sections, u64::from(limit)) {
        Ok(image) => Ok(image),
        Err(error) => Err(refusal_of(alloc, error, limit)),
    }
}

// The image of sections that can be loaded, on a base.
fn load_sections_onto(
    alloc: Global,
    sound: &Sound<'_>,
    sections: Sections,
    limit: u32,
) -> Result<Image, Refusal>
    requires limit { limit ≤ 2 ^ 30 }
    requires base { IsBase (base_of sound.now) }
    requires fit { AreLoadable sections }
    ensures { MatchResult result (λ image. IsLoadOnto limit (loading_error_onto limit (base_of sound.now) sections) (base_of sound.now) sections (done image))
        (IsRefusedAnswer (IsLoadOnto limit (loading_error_onto limit (base_of sound.now) sections) (base_of sound.now) sections)) }
{
    match image_onto(alloc, sound, sections, u64::from(limit)) {
        Ok(image) => Ok(image),
        Err(error) => Err(refusal_of(alloc, error, limit)),
    }
}

/// A sound file of at most `limit` bytes with the sections of a dump text, as `load` builds it. A refusal is the first fault of the text, or its
/// first load error, or that the file would have more than `limit` bytes, each with its line; or memory ran out. The text is dropped as soon as it is
/// read.
pub fn load_text(alloc: Global, text: Image, limit: u32) -> Result<Image, Refusal>
    requires text { length text ≤ 2 ^ 30 }
    requires limit { limit ≤ 2 ^ 30 }
    ensures { MatchResult result (λ image. IsTextAnswer limit text (done image)) (IsRefusedAnswer (IsTextAnswer limit text)) }
{
    let sections = sections_of(alloc, text)?;
    load_sections(alloc, sections, limit)
}

/// A sound file of at most `limit` bytes with the databases of a base and the sections of a dump text loaded onto them, as `load_onto` of `bdb_onto` builds it.
/// It is refused as `load_text` is, with the load errors of the sections on the base. The text is dropped as soon as it is read. The databases of the base are
/// copied out of it one at a time: where they share a chain, that is copied for each, until the lists of them have more than `limit` bytes.
pub fn load_text_onto(
    alloc: Global,
    text: Image,
    sound: &Sound<'_>,
    limit: u32,
) -> Result<Image, Refusal>
    requires text { length text ≤ 2 ^ 30 }
    requires limit { limit ≤ 2 ^ 30 }
    requires base { IsBase (base_of sound.now) }
    ensures { MatchResult result (λ image. IsTextOnto limit (base_of sound.now) text (done image))
        (IsRefusedAnswer (IsTextOnto limit (base_of sound.now) text)) }
{
    let sections = sections_of(alloc, text)?;
    load_sections_onto(alloc, sound, sections, limit)
}
