//! Runs of the tool over memory: each line of standard input is a case, written back with what the run gives. README.md says what a line has.
#![tactic(auto)]

mod case;
mod failing;
mod files;
mod told;

use crate::case::{Case, case_of};
use crate::failing::{Whole, is_told};
use crate::files::Kept;
use crate::told::{Reads, told_of};
use std::alloc::{AllocError, Global};
use std::io::{self, Write};
use std::rt::Files;
use test_runs::Bytes;
use test_runs::outside::Dripping;
use test_runs::running::{Ran, ran_onto, ran_over};

/// The most bytes that a read gives.
const PIECE: usize = 65536;

fn main(rt: HostRuntime) -> io::Result<()> {
    let mut out = io::writer(&rt);
    let mut kept = Kept::new(rt.alloc());
    for line in rt.lines(rt.alloc()) {
        let line = line?;
        out.write_all(line.as_str().as_bytes())?;
        out.write_all(b"\n")?;
        let told = answer(&rt, &mut kept, line.as_str())?;
        out.write_all(told.as_slice())?;
    }
    Ok(())
}

// What is told of a line: nothing of an empty one and of one that begins with `#`.
fn answer<R: Files + AllocGlobal>(rt: &R, kept: &mut Kept, line: &str) -> io::Result<Bytes> {
    if line.is_empty() || line.starts_with('#') {
        return Ok(Bytes::new(rt.alloc()));
    }
    let case = case_of(rt.alloc(), line)?;
    match case.words.as_slice() {
        ["=", one, other] => compared(rt, kept, one, other),
        _ => told_of_run(rt, kept, &case),
    }
}

// Whether two files are the same.
fn compared<R: Files + AllocGlobal>(
    rt: &R,
    kept: &Kept,
    one: &str,
    other: &str,
) -> io::Result<Bytes> {
    let (first, second) = (kept.file(rt, one)?, kept.file(rt, other)?);
    let mut told = Bytes::new(rt.alloc());
    if first.as_slice() == second.as_slice() {
        told.push_all(b"the same\n")?;
    } else {
        told.push_all(b"different\n")?;
    }
    Ok(told)
}

// The file that a run has as its base, where it has one.
fn base_of<R: Files + AllocGlobal>(
    rt: &R,
    kept: &Kept,
    case: &Case<'_>,
) -> io::Result<Option<Bytes>> {
    match case.base {
        Some(name) => Ok(Some(kept.file(rt, name)?)),
        None => Ok(None),
    }
}

// What is told of a run and of the same run where reads or writes fail.
fn told_beside(
    alloc: Global,
    case: &Case<'_>,
    input: &[u8],
    ran: &Ran,
    reads: Reads,
) -> Result<Bytes, AllocError> {
    let mut told = told_of(alloc, ran, case.kept.is_some(), reads)?;
    if case.fails && !fails_well(alloc, case.words.as_slice(), input, ran)? {
        told.push_all(b"otherwise where a read or a write fails\n")?;
    }
    Ok(told)
}

// What is told of a run on these bytes, whose output is kept under the name that the case has for it.
fn told_over(
    alloc: Global,
    kept: &mut Kept,
    case: &Case<'_>,
    input: &[u8],
    base: Option<&[u8]>,
) -> Result<Bytes, AllocError> {
    let (ran, reads) = ran_of(alloc, case.words.as_slice(), input, base)?;
    if let Some(name) = case.kept {
        kept.keep(name, ran.out.bytes())?;
    }
    told_beside(alloc, case, input, &ran, reads)
}

// What is told of a run.
fn told_of_run<R: Files + AllocGlobal>(
    rt: &R,
    kept: &mut Kept,
    case: &Case<'_>,
) -> io::Result<Bytes> {
    let input = kept.file(rt, case.input)?;
    let base = base_of(rt, kept, case)?;
    let base = base.as_ref().map(|bytes| bytes.as_slice());
    Ok(told_over(rt.alloc(), kept, case, input.as_slice(), base)?)
}

// A run, and what it read.
fn ran_of(
    alloc: Global,
    words: &[&str],
    input: &[u8],
    base: Option<&[u8]>,
) -> Result<(Ran, Reads), AllocError> {
    let mut source = Dripping::new(input, PIECE);
    let Some(base) = base else {
        let ran = ran_over(alloc, words, &mut source)?;
        return Ok((ran, Reads::of_input(source.reads)));
    };
    let mut below = Dripping::new(base, PIECE);
    let ran = ran_onto(alloc, words, &mut source, &mut below)?;
    Ok((ran, Reads::of_both(source.reads, below.reads)))
}

// Whether a run without a base ends as it has to where reads or writes fail.
fn fails_well(alloc: Global, words: &[&str], input: &[u8], ran: &Ran) -> Result<bool, AllocError> {
    let run = Whole {
        words,
        input,
        status: ran.status,
        out: ran.out.bytes(),
        err: ran.err.bytes(),
    };
    is_told(alloc, run)
}
