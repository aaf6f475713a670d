//! `repair --apart`: a sound file of the databases that are found.
ghost use Rattle.std.specs.Prelude.{◌≡◌, ◌++◌, ◌∷◌, ◌+◌, ◌≤◌, ◌^◌, [], IfOk, IfSome, IsTrue, OnOk, Some, length, map, option_map};
ghost use Rattle.bdb_mkfile.specs.NamedImages.{HasBuiltTables};
ghost use Rattle.bdb_model.specs.of_format.Terms.{is_page_size};
ghost use Rattle.bdb_repair.specs.Apart.{IsRepairedApart, section_in, sections_in, told_settings};
ghost use Rattle.bdb_repair.specs.Claims.{claim_pages};
ghost use Rattle.bdb_rescue.specs.Guesses.{chosen};
ghost use Rattle.bdb_rescue.specs.of_overflow.Datum.{datum_seen};

use crate::RepairError;
use crate::apart_room::are_past;
use crate::repairing::answer_of;
use crate::salvaging::salvage_uncounted;
use bdb_apart::{Apart, Database, Databases, Datum, Settings, apart_of};
use bdb_io::Image;
use bdb_law_kept::shows_length;
use bdb_mkfile::load;
use bdb_model::{Bytes, Section, Sections, Steps};
use bdb_rescue::Guess;
use std::alloc::{AllocError, Global};
use std::sync::ledger::Ledger;

// A name of its own.
fn own_name(alloc: Global, name: &Datum<'_>) -> Result<Option<Bytes>, AllocError>
    ensures { IfOk result (λ copy. copy ≡ Some (datum_seen name.now)) }
{
    Ok(Some(name.copy(alloc)?))
}

// The name of a section, where there is one.
fn name_of(alloc: Global, name: Option<Datum<'_>>) -> Result<Option<Bytes>, AllocError>
    ensures { IfOk result (λ copy. copy ≡ option_map datum_seen name.entry) }
{
    match name {
        Some(name) => own_name(alloc, &name),
        None => Ok(None),
    }
}

// The settings that the header of a text tells.
fn told_settings(settings: Settings) -> Settings
    ensures { result ≡ told_settings settings }
{
    if shows_length(&settings) {
        return settings;
    }
    Settings {
        fixed: false,
        re_len: 0,
        re_pad: 32,
        ..settings
    }
}

// The section of a database.
fn section_in(alloc: Global, db: &Database<'_, '_, '_>) -> Result<Section, AllocError>
    ensures { IfOk result (λ section. section ≡ section_in db.now) }
{
    Ok(Section {
        name: name_of(alloc, db.name())?,
        settings: told_settings(db.settings()),
        header_line: 0,
        pairs: db.section_pairs(alloc)?,
    })
}

// Adds the sections of databases.
fn push_sections(
    alloc: Global,
    dbs: &mut Databases<'_, '_, '_>,
    sections: &mut Sections,
) -> Result<(), AllocError>
    ensures { OnOk result (sections.new ≡ sections.old ++ map section_in dbs.old) }
{
    for db in dbs {
        sections.push(section_in(alloc, &db)?)?;
    }
    Ok(())
}

// The sections of all databases that are found.
fn sections_in(alloc: Global, apart: &Apart<'_, '_>) -> Result<Sections, AllocError>
    ensures { IfOk result (λ sections. sections ≡ sections_in apart.now) }
{
    let mut sections = Sections::new(alloc);
    push_sections(alloc, &mut apart.databases(), &mut sections)?;
    Ok(sections)
}

/// A sound file of at most `max` bytes with the databases that are found in an image, by the given guess or else that of page 0: each with its name,
/// its kind, its settings and what is salvaged of it. `NoMeta` without a guess, or where no database is found; `TooLarge` exactly where the file
/// would have more bytes; or memory ran out. If the data of btrees and hashes in which none may replace another have more bytes by themselves,
/// nothing is copied. `steps` counts the pages whose references are read for claims: each whole page at most once, and none without a guess.
#[tactic(auto, using(crate::proofs::ClaimLemmas::claims_within))]
pub fn repair_apart<L: Ledger>(
    alloc: Global,
    image: &[u8],
    guess: Option<Guess>,
    max: u64,
    steps: &mut Steps<L>,
) -> Result<Image, RepairError>
    requires size { IfSome guess (λ guess. IsTrue (is_page_size guess.page_size)) }
    requires small { length image.now ≤ 2 ^ 30 }
    requires max { max ≤ 2 ^ 30 }
    ensures repaired { IsRepairedApart max (chosen guess image.now) image.now result }
    ensures tables { IfOk result (λ image. HasBuiltTables image) }
    ensures cost { steps.new ≤ steps.old + claim_pages guess image.now }
{
    let salvaged = salvage_uncounted(alloc, image, guess)?;
    let apart = apart_of(alloc, &salvaged, steps)?;
    if are_past(&apart, max) {
        return Err(RepairError::TooLarge);
    }
    let sections = sections_in(alloc, &apart)?;
    if sections.is_empty() {
        return Err(RepairError::NoMeta);
    }
    answer_of(load(alloc, sections, max))
}
