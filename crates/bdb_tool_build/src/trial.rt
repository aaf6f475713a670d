//! `trial`: an image of generated pairs, and what is said of it.
ghost use Rattle.std.specs.Prelude.{◌≡◌, ◌<◌, ◌≤◌, ◌^◌, ◌/◌, None, IfErr, IfOk, MatchResult, OnOk, false, length, nat_lt, string_bytes};
ghost use Rattle.bdb_model.specs.of_format.Terms.{hash5, verdict_of};
ghost use Rattle.bdb_model.specs.Answers.{done};
ghost use Rattle.bdb_onto.specs.of_mkfile.Builds.{Builds, image_size};
ghost use Rattle.bdb_onto.specs.of_mkfile.NamedImages.{HasBuiltTables};
ghost use Rattle.bdb_tool_build.specs.Lines.{trial_text};
ghost use Rattle.bdb_tool_build.specs.Refusals.{IsRefusedAnswer};
ghost use Rattle.bdb_tool_build.specs.Trials.{IsTrialAnswer, trial_sections, trial_settings};

use crate::loading::refusal_of;
use crate::refusal::Refusal;
use crate::texts::trial_lines;
use bdb_file::{hash5, verify};
use bdb_gen::generate;
use bdb_io::Image;
use bdb_model::{Kind, Order, Section, Sections, Settings, Steps, Verdict};
use bdb_onto::load;
use std::alloc::{AllocError, Global};
use std::sync::ledger::Ledger;

/// Bytes of a page of a trial.
const PAGE_SIZE: u32 = 4096;

// The settings of a database of generated pairs.
fn trial_settings(kind: Kind) -> Settings
    ensures { result ≡ trial_settings kind }
{
    let queue = matches!(kind, Kind::Queue);
    Settings {
        kind,
        page_size: PAGE_SIZE,
        order: Order::Little,
        duplicates: false,
        sorted: false,
        recnum: false,
        renumber: false,
        fixed: queue,
        re_len: if queue { 16 } else { 0 },
        re_pad: if queue { 0 } else { 32 },
        minkey: 2,
        ffactor: 0,
    }
}

// The section of generated pairs, alone.
fn trial_sections(alloc: Global, kind: Kind, seed: u32, count: u32) -> Result<Sections, AllocError>
    requires seed { seed < 2 ^ 31 }
    requires count { count ≤ 200000 }
    ensures { IfOk result (λ sections. sections ≡ trial_sections kind seed count) }
{
    let mut sections = Sections::new(alloc);
    sections.push(Section {
        name: None,
        settings: trial_settings(kind),
        header_line: 0,
        pairs: generate(alloc, kind, seed, count)?.into_pairs(),
    })?;
    Ok(sections)
}

// The image of generated pairs, of at most so many bytes.
fn trial_image(
    alloc: Global,
    kind: Kind,
    seed: u32,
    count: u32,
    limit: u32,
) -> Result<Image, Refusal>
    requires seed { seed < 2 ^ 31 }
    requires count { count ≤ 200000 }
    requires limit { limit ≤ 2 ^ 30 }
    ensures built { IfOk result (λ image. Builds (trial_sections kind seed count) image) }
    ensures within { OnOk result (nat_lt limit (image_size (trial_sections kind seed count)) ≡ false) }
    ensures tables { IfOk result (λ image. HasBuiltTables image) }
    ensures refused { IfErr result (IsRefusedAnswer (IsTrialAnswer limit kind seed count)) }
{
    let Ok(sections) = trial_sections(alloc, kind, seed, count) else {
        return Err(Refusal::Memory);
    };
    match load(alloc, sections, u64::from(limit)) {
        Ok(image) => Ok(image),
        Err(error) => Err(refusal_of(alloc, error, limit)),
    }
}

// Verifies a sound image once more.
fn verify_built<L: Ledger>(
    alloc: Global,
    image: &[u8],
    steps: &mut Steps<L>,
) -> Result<(), AllocError>
    requires size { length image.now ≤ 2 ^ 30 }
    requires sound { verdict_of image.now ≡ None }
{
    match verify(alloc, image, steps) {
        Ok(_) => Ok(()),
        Err(Verdict::Memory) => Err(AllocError),
        Err(_) => unreachable!(),
    }
}

// The two lines of an image of generated pairs.
fn lines_of<L: Ledger>(
    alloc: Global,
    kind: Kind,
    count: u32,
    image: &[u8],
    steps: &mut Steps<L>,
) -> Result<String, AllocError>
    requires size { length image.now ≤ 2 ^ 30 }
    requires sound { verdict_of image.now ≡ None }
    ensures { IfOk result (λ text. string_bytes text ≡ trial_text kind count (length image.now / 4096) (hash5 image.now)) }
{
    verify_built(alloc, image, steps)?;
    trial_lines(
        alloc,
        kind,
        count,
        image.len() / PAGE_SIZE as usize,
        hash5(image),
    )
}

/// The two lines of `trial`: of how many generated pairs of a kind the image is made, and how many pages of 4096 bytes it has; and its hash. It is
/// refused where the image would have more than `limit` bytes, or where memory ran out.
pub fn trial_text<L: Ledger>(
    alloc: Global,
    kind: Kind,
    seed: u32,
    count: u32,
    limit: u32,
    steps: &mut Steps<L>,
) -> Result<String, Refusal>
    requires seed { seed < 2 ^ 31 }
    requires count { count ≤ 200000 }
    requires limit { limit ≤ 2 ^ 30 }
    ensures { MatchResult result (λ text. IsTrialAnswer limit kind seed count (done (string_bytes text)))
        (IsRefusedAnswer (IsTrialAnswer limit kind seed count)) }
{
    let image = trial_image(alloc, kind, seed, count, limit)?;
    match lines_of(alloc, kind, count, image.bytes(), steps) {
        Ok(text) => Ok(text),
        Err(_) => Err(Refusal::Memory),
    }
}
