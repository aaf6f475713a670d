//! What is salvaged, as sections that can be loaded.
ghost use Rattle.std.specs.Prelude.{◌≡◌, ◌≤◌, ◌^◌, IfOk, Some, length};
ghost use Rattle.bdb_repair.specs.Parts.{loose_section, named_sections, repair_sections, shaped_section, stored_section};
ghost use Rattle.bdb_rescue.specs.Kept.{file_in};
ghost use Rattle.bdb_rescue.specs.of_survey.Salvage.{loose, stored};

use crate::shape::shaped_settings;
use crate::{Duplicates, Shape};
use bdb_model::{Bytes, Section, Sections};
use bdb_rescue::{Salvaged, loose_pairs, stored_pairs};
use std::alloc::{AllocError, Global};

// A name of its own.
fn named(alloc: Global, name: &[u8]) -> Result<Option<Bytes>, AllocError>
    ensures { IfOk result (λ copy. copy ≡ Some name.now) }
{
    let mut copy = Bytes::new(alloc);
    copy.push_all(name)?;
    Ok(Some(copy))
}

// The section of the stored pairs, with its name.
fn stored_section(alloc: Global, salvaged: &Salvaged<'_>) -> Result<Section, AllocError>
    ensures { IfOk result (λ section. section ≡ stored_section salvaged.now.guess (stored (file_in salvaged.now))) }
{
    Ok(Section {
        name: named(alloc, b"salvaged")?,
        settings: shaped_settings(salvaged.guess(), Shape::Btree(Duplicates::Unsorted)),
        header_line: 0,
        pairs: stored_pairs(alloc, salvaged)?,
    })
}

// The section of the loose records, with its name.
fn loose_section(alloc: Global, salvaged: &Salvaged<'_>) -> Result<Section, AllocError>
    requires { length salvaged.now.image ≤ 2 ^ 30 }
    ensures { IfOk result (λ section. section ≡ loose_section salvaged.now.guess (loose (file_in salvaged.now))) }
{
    Ok(Section {
        name: named(alloc, b"loose")?,
        settings: shaped_settings(salvaged.guess(), Shape::Recno),
        header_line: 0,
        pairs: loose_pairs(alloc, salvaged)?,
    })
}

// A section of the stored pairs, and one of the loose records, where there is one.
fn named_sections(alloc: Global, salvaged: &Salvaged<'_>) -> Result<Sections, AllocError>
    requires { length salvaged.now.image ≤ 2 ^ 30 }
    ensures { IfOk result (λ sections. sections ≡ named_sections salvaged.now.guess (file_in salvaged.now)) }
{
    let mut sections = Sections::new(alloc);
    sections.push(stored_section(alloc, salvaged)?)?;
    if salvaged.loose().next().is_some() {
        sections.push(loose_section(alloc, salvaged)?)?;
    }
    Ok(sections)
}

// The one section of a shape.
fn shaped_section(
    alloc: Global,
    shape: Shape,
    salvaged: &Salvaged<'_>,
) -> Result<Section, AllocError>
    requires { length salvaged.now.image ≤ 2 ^ 30 }
    ensures { IfOk result (λ section. section ≡ shaped_section salvaged.now.guess shape (file_in salvaged.now)) }
{
    let pairs = match shape {
        Shape::Btree(_) | Shape::Hash(_) => stored_pairs(alloc, salvaged)?,
        Shape::Recno => loose_pairs(alloc, salvaged)?,
    };
    Ok(Section {
        name: None,
        settings: shaped_settings(salvaged.guess(), shape),
        header_line: 0,
        pairs,
    })
}

/// What is salvaged: one section of a shape where one is given, and else those that `salvage` names.
pub(crate) fn repair_sections(
    alloc: Global,
    shape: Option<Shape>,
    salvaged: &Salvaged<'_>,
) -> Result<Sections, AllocError>
    requires { length salvaged.now.image ≤ 2 ^ 30 }
    ensures { IfOk result (λ sections. sections ≡ repair_sections shape salvaged.now.guess salvaged.now.image) }
{
    let Some(shape) = shape else {
        return named_sections(alloc, salvaged);
    };
    let mut sections = Sections::new(alloc);
    sections.push(shaped_section(alloc, shape, salvaged)?)?;
    Ok(sections)
}
