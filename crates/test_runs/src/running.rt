//! Runs over memory, and what they give.

use crate::images::{File, bytes_of};
use bdb_tool::{MemSink, MemSource, Sink, Source, Words, run_counted, run_onto};
use std::alloc::{AllocError, Global};
use std::marker::Brand;
use std::sync::ledger::Blank;

/// What is told by a run: output and status 0, or a status and an error line.
#[derive(Clone, Copy)]
pub enum Told {
    Done(&'static [u8]),
    Line(u8, &'static [u8]),
}

pub const READ_FAULT: &[u8] = b"read fault\n";

pub const WRITE_FAULT: &[u8] = b"write fault\n";

impl Told {
    pub fn status(self) -> u8 {
        match self {
            Told::Done(_) => 0,
            Told::Line(status, _) => status,
        }
    }

    pub fn out(self) -> &'static [u8] {
        match self {
            Told::Done(text) => text,
            Told::Line(_, _) => b"",
        }
    }

    pub fn err(self) -> &'static [u8] {
        match self {
            Told::Done(_) => b"",
            Told::Line(_, text) => text,
        }
    }
}

pub fn words_of(alloc: Global, given: &[&str]) -> Result<Words, AllocError> {
    let mut words = Words::new(alloc);
    for word in given {
        words.push(word)?;
    }
    Ok(words)
}

pub fn source_over(alloc: Global, file: &File) -> Result<MemSource, AllocError> {
    Ok(MemSource::new(alloc, bytes_of(alloc, file)?))
}

/// The status of a run with ample memory.
pub fn status_of<S: Source, K: Sink, E: Sink>(
    alloc: Global,
    given: &[&str],
    source: &mut S,
    out: &mut K,
    err: &mut E,
) -> Result<u8, AllocError> {
    let words = words_of(alloc, given)?;
    Ok(run_counted::<Brand, S, K, E>(alloc, &words, source, out, err, Blank::new(1)))
}

/// What a run gave.
#[derive(Drop)]
pub struct Ran {
    pub status: u8,
    pub out: MemSink,
    pub err: MemSink,
}

pub fn ran_over<S: Source>(
    alloc: Global,
    given: &[&str],
    source: &mut S,
) -> Result<Ran, AllocError> {
    let mut out = MemSink::new(alloc);
    let mut err = MemSink::new(alloc);
    let status = status_of(alloc, given, source, &mut out, &mut err)?;
    Ok(Ran { status, out, err })
}

/// What a run over a file gave.
pub fn ran_of(alloc: Global, given: &[&str], file: &File) -> Result<Ran, AllocError> {
    let mut source = source_over(alloc, file)?;
    ran_over(alloc, given, &mut source)
}

/// What a run with a base gave.
pub fn ran_onto<S: Source, B: Source>(
    alloc: Global,
    given: &[&str],
    source: &mut S,
    base: &mut B,
) -> Result<Ran, AllocError> {
    let words = words_of(alloc, given)?;
    let mut out = MemSink::new(alloc);
    let mut err = MemSink::new(alloc);
    let status = run_onto::<Brand, S, B, MemSink, MemSink>(
        alloc,
        &words,
        source,
        base,
        &mut out,
        &mut err,
        Blank::new(1),
    );
    Ok(Ran { status, out, err })
}

/// Whether a run gave just what is told.
pub fn gave(ran: &Ran, told: Told) -> bool {
    ran.status == told.status() && ran.out.bytes() == told.out() && ran.err.bytes() == told.err()
}

/// Whether a text is so many first bytes of another.
pub fn is_start(whole: &[u8], taken: usize, text: &[u8]) -> bool {
    text.len() == taken && whole.starts_with(text)
}
