// A whole dump text, section by section.
ghost use Rattle.bdb_spelling.specs.of_text_format.Terms.{Reads, first_line_reason, name_in, name_missing};
ghost use Rattle.bdb_text.specs.Fields.{values_in};
ghost use Rattle.bdb_text.specs.ReadTo.{OnFault};
ghost use Rattle.bdb_text.specs.SectionTo.{IsSectionFault, IsSectionRead, IsTextFault, named_end_reason, names_of};
ghost use Rattle.std.specs.Prelude.{◌≡◌, ◌+◌, ◌<◌, ◌≤◌, ◌^◌, IfOk, IfErr, length};

use crate::data_pairs::read_pairs;
use crate::earlier::Earlier;
use crate::fields::{Field, is_given, value_of};
use crate::headers::read_header;
use crate::meant::{conflicts, settings_in};
use crate::text_errors::{TextError, fault_at};
use crate::text_lines::cut_line;
use bdb_spelling::{Bytes, Section, Sections, SpellError, TextReason, read_spelling};
use std::alloc::Global;

const TYPE: [u8; 4] = *b"type";

const DATABASE: [u8; 8] = *b"database";

/// A section, the text behind it, and the number of the line behind its last.
#[derive(Drop)]
pub struct Read<'a> {
    pub section: Section,
    pub rest: &'a [u8],
    pub number: u64,
}

/// The sections of a dump text of at most 2^30 bytes. `Fault` is its first fault, with its line (from 1) and its reason (docs/FORMAT.md, "Reasons");
/// `Memory` means that memory ran out.
pub fn read_dump(alloc: Global, text: &[u8]) -> Result<Sections, TextError>
    requires { length text.now ≤ 2 ^ 30 }
    ensures ok { IfOk result (λ sections. Reads text.now sections) }
    ensures err { IfErr result (OnFault (IsTextFault text.now)) }
{
    if text.is_empty() {
        return Err(fault_at(1, TextReason::NoVersion));
    }
    let mut earlier = Earlier::new(alloc);
    let mut number = 1;
    let mut rest = text;
    while !rest.is_empty() {
        let read = read_section(alloc, rest, number, &earlier)?;
        let Ok(all) = earlier.with(alloc, read.section) else {
            return Err(TextError::Memory);
        };
        earlier = all;
        number = read.number;
        rest = read.rest;
    }
    Ok(earlier.into_sections())
}

// How many bytes the pairs of the first section may have, of the text that is left: half of it, as each is spelled by two digits. The pairs of later
// sections have room as they grow, since nothing tells how many more there are.
fn room_for(text: &[u8], earlier: &Earlier) -> usize {
    if earlier.is_empty() {
        text.len() / 2 + 1
    } else {
        0
    }
}

// The section that a text begins with, behind these others. The number is that of its first line.
fn read_section<'a>(
    alloc: Global,
    text: &'a [u8],
    start: u64,
    earlier: &Earlier,
) -> Result<Read<'a>, TextError>
    requires some { 0 < length text.now }
    requires room { start + length text.now ≤ 2 ^ 31 }
    ensures ok { IfOk result (λ read. IsSectionRead (names_of earlier.now) text.now start read) }
    ensures shorter { IfOk result (λ read. length read.rest.now < length text.now) }
    ensures within { IfOk result (λ read. read.number + length read.rest.now ≤ start + length text.now) }
    ensures err { IfErr result (OnFault (IsSectionFault (names_of earlier.now) text.now start)) }
{
    let first = cut_line(text);
    if let Some(reason) = first_line_reason(first.line) {
        return Err(fault_at(start, reason));
    }
    let header = read_header(alloc, first.rest, start + 1)?;
    let name = name_in(alloc, &header.fields)?;
    if let Some(reason) = end_reason(&header.fields, &name, earlier) {
        return Err(fault_at(header.number, reason));
    }
    let room = room_for(header.rest, earlier);
    let data = read_pairs(alloc, header.rest, header.number + 1, &header.fields, room)?;
    let section = Section {
        name,
        settings: settings_in(&header.fields),
        header_line: header.number,
        pairs: data.pairs,
    };
    Ok(Read {
        section,
        rest: data.rest,
        number: data.number,
    })
}

// The first reason of the first line of a section.
fn first_line_reason(line: &[u8]) -> Option<TextReason>
    ensures { result ≡ first_line_reason line.now }
{
    if !line.starts_with(b"VERSION=") {
        Some(TextReason::NoVersion)
    } else if line != b"VERSION=3".as_slice() {
        Some(TextReason::Version)
    } else {
        None
    }
}

// The name that a header gives, where it gives one.
fn name_in(alloc: Global, fields: &[Field<'_>]) -> Result<Option<Bytes>, TextError>
    ensures ok { IfOk result (λ name. name ≡ name_in (values_in fields.now)) }
    ensures err { IfErr result (λ error. error ≡ TextError.Memory) }
{
    match value_of(fields, DATABASE.as_slice()) {
        None => Ok(None),
        Some(value) => match read_spelling(alloc, value, true) {
            Ok(name) => Ok(Some(name)),
            Err(SpellError::Bad) => Ok(None),
            Err(SpellError::Memory) => Err(TextError::Memory),
        },
    }
}

// The first reason of the line that ends a header, by the name that it gives and the sections before it.
fn end_reason(fields: &[Field<'_>], name: &Option<Bytes>, earlier: &Earlier) -> Option<TextReason>
    ensures { result ≡ named_end_reason (names_of earlier.now) (values_in fields.now) name.now }
{
    if !is_given(fields, TYPE.as_slice()) {
        return Some(TextReason::NoType);
    }
    if conflicts(fields) {
        return Some(TextReason::Conflict);
    }
    if is_name_missing(earlier, name) {
        return Some(TextReason::NameMissing);
    }
    if earlier.is_taken(name) {
        return Some(TextReason::NameTwice);
    }
    None
}

// Whether there are sections before, and one of these or the section itself has no name.
fn is_name_missing(earlier: &Earlier, name: &Option<Bytes>) -> bool
    ensures { result ≡ name_missing (names_of earlier.now) name.now }
{
    !earlier.is_empty() && (name.is_none() || earlier.has_unnamed())
}
