// What `run` answers over an image.
use bdb_tool::{Bytes, MemSink, MemSource, Words, run_counted};
use std::alloc::{AllocError, Global};
use std::marker::Brand;
use std::process::Abort;
use std::sync::ledger::Blank;

/// Words, the status, and what is written to output or error output.
pub(crate) type Question = (&'static [&'static str], u8, &'static [u8]);

pub(crate) const NOT_FOUND: &[u8] = b"not found\n";

fn words_of(alloc: Global, given: &[&str]) -> Result<Words, AllocError> {
    let mut words = Words::new(alloc);
    for word in given {
        words.push(word)?;
    }
    Ok(words)
}

fn copy_of(alloc: Global, image: &[u8]) -> Result<Bytes, AllocError> {
    let mut bytes = Bytes::new(alloc);
    bytes.push_all(image)?;
    Ok(bytes)
}

// Runs the tool on what is lent, and compares the status and what is written.
fn run_and_compare(
    rt: &impl Abort,
    alloc: Global,
    words: &Words,
    source: &mut MemSource,
    out: &mut MemSink,
    err: &mut MemSink,
    status: u8,
    text: &[u8],
) {
    let told = run_counted::<Brand, MemSource, MemSink, MemSink>(
        alloc,
        words,
        source,
        out,
        err,
        Blank::new(1),
    );
    assert_eq!(rt; told, status);
    if status == 0 {
        assert_eq!(rt; out.bytes(), text);
    } else {
        assert_eq!(rt; err.bytes(), text);
    }
}

/// Asks, and compares the status and what is written.
pub(crate) fn ask(
    rt: &impl Abort,
    alloc: Global,
    image: &[u8],
    given: &[&str],
    status: u8,
    text: &[u8],
) -> Result<(), AllocError> {
    let words = words_of(alloc, given)?;
    let mut source = MemSource::new(alloc, copy_of(alloc, image)?);
    let mut out = MemSink::new(alloc);
    let mut err = MemSink::new(alloc);
    run_and_compare(
        rt,
        alloc,
        &words,
        &mut source,
        &mut out,
        &mut err,
        status,
        text,
    );
    Ok(())
}

/// Asks each question.
pub(crate) fn ask_all(
    rt: &impl Abort,
    alloc: Global,
    image: &[u8],
    questions: &[Question],
) -> Result<(), AllocError> {
    for (given, status, text) in questions {
        ask(rt, alloc, image, given, *status, text)?;
    }
    Ok(())
}
