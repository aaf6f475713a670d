//! Reads a dump text from standard input and writes it again, its bytes as digits; with a word, how many sections and
//! pairs it has. A fault is told by its line and reason, with status 8.
#![tactic(auto)]

use bdb_io::{Bytes, ReadError, Sink, StdSink, StdSource, put_all, read_image};
use bdb_text::{
    KeyRef, PairRef, Section, Sections, TextError, TextFault, header_text, number_text,
    push_line_text, read_dump,
};
use std::alloc::{AllocError, Global};
use std::env;
use std::process::ExitCode;

/// The most bytes that a text may have.
const MOST: u64 = 1073741824;

fn main(rt: HostRuntime) -> ExitCode {
    let mut out = StdSink::new(rt.stdout());
    let counts = match env::args(&rt) {
        Ok(args) => args.len() > 1,
        Err(_) => return ExitCode::from(7),
    };
    let mut source = StdSource::new(rt.stdin());
    let text = match read_image(rt.alloc(), &mut source, MOST) {
        Ok(text) => text,
        Err(ReadError::Memory) => return ExitCode::from(7),
        Err(_) => return ExitCode::from(4),
    };
    let told = match read_dump(rt.alloc(), text.bytes()) {
        Ok(sections) => {
            if counts {
                tell_counts(rt.alloc(), &sections, &mut out)
            } else {
                write_sections(rt.alloc(), &sections, &mut out)
            }
        }
        Err(TextError::Fault(fault)) => tell_fault(rt.alloc(), fault, &mut out),
        Err(TextError::Memory) => Err(AllocError),
    };
    ExitCode::from(told.unwrap_or(7))
}

// The line and the reason of a fault.
fn tell_fault<S: Sink>(alloc: Global, fault: TextFault, out: &mut S) -> Result<u8, AllocError> {
    let line = fault.line;
    let reason = fault.reason.code();
    let told = format!(in alloc; "line {line}: reason {reason}\n")?;
    Ok(status_of(put_all(out, told.as_bytes()).is_ok(), 8))
}

fn status_of(written: bool, status: u8) -> u8 {
    if written { status } else { 5 }
}

// How many sections and pairs there are.
fn tell_counts<S: Sink>(alloc: Global, sections: &Sections, out: &mut S) -> Result<u8, AllocError> {
    let count = sections.len();
    let mut pairs: usize = 0;
    for section in sections.as_slice() {
        pairs = pairs.saturating_add(section.pairs.len());
    }
    let told = format!(in alloc; "{count} sections, {pairs} pairs\n")?;
    Ok(status_of(put_all(out, told.as_bytes()).is_ok(), 0))
}

// All sections, as they were.
fn write_sections<S: Sink>(
    alloc: Global,
    sections: &Sections,
    out: &mut S,
) -> Result<u8, AllocError> {
    for section in sections.as_slice() {
        let text = section_text(alloc, section)?;
        if put_all(out, text.as_slice()).is_err() {
            return Ok(5);
        }
    }
    Ok(0)
}

fn section_text(alloc: Global, section: &Section) -> Result<Bytes, AllocError> {
    let name = match &section.name {
        Some(name) => Some(name.as_slice()),
        None => None,
    };
    let mut text = header_text(alloc, name, &section.settings, false)?;
    let pairs = section.pairs.as_slice();
    for i in 0..pairs.len() {
        push_pair(alloc, &mut text, pairs.at(i))?;
    }
    text.push_all(b"DATA=END\n")?;
    Ok(text)
}

fn push_pair(alloc: Global, text: &mut Bytes, pair: PairRef<'_>) -> Result<(), AllocError> {
    match pair.key {
        KeyRef::Bytes(key) => push_data_line(text, key)?,
        KeyRef::Number(number) => push_data_line(text, number_text(alloc, number)?.as_slice())?,
    }
    push_data_line(text, pair.value)
}

fn push_data_line(text: &mut Bytes, bytes: &[u8]) -> Result<(), AllocError> {
    text.push_all(b" ")?;
    push_line_text(text, bytes, false)?;
    text.push_all(b"\n")
}
