//! What a run gives where reads are short or fail, and where writes do.

use std::alloc::{AllocError, Global};
use test_runs::outside::{Dripping, Narrow};
use test_runs::running::{READ_FAULT, Ran, Told, WRITE_FAULT, gave, is_start, ran_over, status_of};
use test_runs::{MemSink, Sink, Source};

/// The longest input of which each byte is a read that fails.
const SHORT: usize = 256;

const READ_FAILED: u8 = 4;

const WRITE_FAILED: u8 = 5;

const TOO_LONG: u8 = 6;

/// A run without a base: its words, its input, and what it gives where nothing fails.
#[derive(Clone, Copy)]
pub(crate) struct Whole<'a> {
    pub(crate) words: &'a [&'a str],
    pub(crate) input: &'a [u8],
    pub(crate) status: u8,
    pub(crate) out: &'a [u8],
    pub(crate) err: &'a [u8],
}

/// Whether it gives the same of short reads, and ends as it has to where a read or a write fails.
pub(crate) fn is_told(alloc: Global, run: Whole<'_>) -> Result<bool, AllocError> {
    Ok(
        gives_the_same(alloc, run)?
            && tells_read_faults(alloc, run)?
            && tells_write_faults(alloc, run)?
            && ends_where_errors_fail(alloc, run)?
            && ends_where_both_sinks_fail(alloc, run)?
            && ends_where_source_and_errors_fail(alloc, run)?,
    )
}

fn is_same(run: Whole<'_>, ran: &Ran) -> bool {
    ran.status == run.status && ran.out.bytes() == run.out && ran.err.bytes() == run.err
}

// The same of a byte a read. What is read is read to one byte behind its end, or behind a limit.
fn gives_the_same(alloc: Global, run: Whole<'_>) -> Result<bool, AllocError> {
    let mut source = Dripping::new(run.input, 1);
    let ran = ran_over(alloc, run.words, &mut source)?;
    Ok(is_same(run, &ran) && ends_behind(run, source.reads))
}

fn ends_behind(run: Whole<'_>, reads: u64) -> bool {
    let all = (run.input.len() as u64).saturating_add(1);
    reads == 0 || reads == all || run.status == TOO_LONG && reads < all
}

// The read with this number fails. How many reads there were.
fn ran_until(
    alloc: Global,
    run: Whole<'_>,
    most: usize,
    call: u64,
) -> Result<(Ran, u64), AllocError> {
    let mut source = Dripping::new(run.input, most);
    source.fails_at = call;
    let ran = ran_over(alloc, run.words, &mut source)?;
    Ok((ran, source.reads))
}

fn is_read_fault(
    alloc: Global,
    run: Whole<'_>,
    most: usize,
    call: u64,
) -> Result<bool, AllocError> {
    let (ran, _) = ran_until(alloc, run, most, call)?;
    Ok(gave(&ran, Told::Line(READ_FAILED, READ_FAULT)))
}

// Each read fails in turn, and at last the one that isn't made.
fn tells_read_faults(alloc: Global, run: Whole<'_>) -> Result<bool, AllocError> {
    let most = if run.input.len() <= SHORT { 1 } else { SHORT };
    let (_, calls) = ran_until(alloc, run, most, 0)?;
    for call in 0..calls {
        if !is_read_fault(alloc, run, most, call.saturating_add(1))? {
            return Ok(false);
        }
    }
    let (ran, _) = ran_until(alloc, run, most, calls.saturating_add(1))?;
    Ok(is_same(run, &ran))
}

// The output takes so many bytes.
fn is_write_fault(alloc: Global, run: Whole<'_>, taken: usize) -> Result<bool, AllocError> {
    let mut source = Dripping::new(run.input, run.input.len());
    let mut out = Narrow::cut_after(alloc, taken)?;
    let mut err = MemSink::new(alloc);
    let status = status_of(alloc, run.words, &mut source, &mut out, &mut err)?;
    Ok(
        status == WRITE_FAILED
            && is_start(run.out, taken, out.sink.bytes())
            && err.bytes() == WRITE_FAULT,
    )
}

fn tells_write_faults(alloc: Global, run: Whole<'_>) -> Result<bool, AllocError> {
    for taken in 0..run.out.len() {
        if !is_write_fault(alloc, run, taken)? {
            return Ok(false);
        }
    }
    Ok(true)
}

// The error output takes so many bytes of a line.
fn is_cut<S: Source, K: Sink>(
    alloc: Global,
    words: &[&str],
    source: &mut S,
    out: &mut K,
    line: &[u8],
    taken: usize,
) -> Result<bool, AllocError> {
    let mut err = Narrow::cut_after(alloc, taken)?;
    let status = status_of(alloc, words, source, out, &mut err)?;
    Ok(status == WRITE_FAILED && is_start(line, taken, err.sink.bytes()))
}

// The error output takes so many bytes of a line, before which the read with this number fails; 0: none.
fn is_cut_alone(
    alloc: Global,
    run: Whole<'_>,
    call: u64,
    line: &[u8],
    taken: usize,
) -> Result<bool, AllocError> {
    let mut source = Dripping::new(run.input, run.input.len());
    source.fails_at = call;
    let mut out = MemSink::new(alloc);
    let is_cut = is_cut(alloc, run.words, &mut source, &mut out, line, taken)?;
    Ok(is_cut && out.bytes().is_empty())
}

fn ends_where_errors_fail(alloc: Global, run: Whole<'_>) -> Result<bool, AllocError> {
    for taken in 0..run.err.len() {
        if !is_cut_alone(alloc, run, 0, run.err, taken)? {
            return Ok(false);
        }
    }
    Ok(true)
}

// The output takes nothing, and the error output so many bytes.
fn is_cut_twice(alloc: Global, run: Whole<'_>, taken: usize) -> Result<bool, AllocError> {
    let mut source = Dripping::new(run.input, run.input.len());
    let mut out = Narrow::cut_after(alloc, 0)?;
    is_cut(alloc, run.words, &mut source, &mut out, WRITE_FAULT, taken)
}

fn ends_where_both_sinks_fail(alloc: Global, run: Whole<'_>) -> Result<bool, AllocError> {
    if run.out.is_empty() {
        return Ok(true);
    }
    for taken in 0..WRITE_FAULT.len() {
        if !is_cut_twice(alloc, run, taken)? {
            return Ok(false);
        }
    }
    Ok(true)
}

fn ends_where_source_and_errors_fail(alloc: Global, run: Whole<'_>) -> Result<bool, AllocError> {
    let (_, calls) = ran_until(alloc, run, 1, 0)?;
    if calls == 0 {
        return Ok(true);
    }
    for taken in 0..READ_FAULT.len() {
        if !is_cut_alone(alloc, run, 1, READ_FAULT, taken)? {
            return Ok(false);
        }
    }
    Ok(true)
}
