use bdb_salvage::Bytes;
use bdb_tool::status::{DONE, MEMORY, WRITE_FAULT};
use bdb_tool::{MemSink, PureSource, Words, run_counted};
use std::alloc::{AllocError, Global};
use std::marker::Brand;
use std::sync::ledger::Blank;

/// What becomes of a dump that is loaded and dumped.
#[derive(Clone, Copy)]
enum Again {
    /// The same text.
    Same,
    /// Another one, or none.
    Other,
    /// There was no dump: the file isn't sound, or has no database.
    NoDump,
}

fn words_of(alloc: Global, given: &[&str]) -> Result<Words, AllocError> {
    let mut words = Words::new(alloc);
    for word in given {
        words.push(word)?;
    }
    Ok(words)
}

fn bytes_of(alloc: Global, piece: &[u8]) -> Result<Bytes, AllocError> {
    let mut bytes = Bytes::new(alloc);
    bytes.push_all(piece)?;
    Ok(bytes)
}

// What a command writes over an input; nothing where it doesn't end well.
fn ran(alloc: Global, given: &[&str], input: &[u8]) -> Result<Option<Bytes>, AllocError> {
    let words = words_of(alloc, given)?;
    let mut source = PureSource::new(bytes_of(alloc, input)?);
    let mut out = MemSink::new(alloc);
    let mut err = MemSink::new(alloc);
    let status = run_counted::<Brand, _, _, _>(
        alloc,
        &words,
        &mut source,
        &mut out,
        &mut err,
        Blank::new(1),
    );
    match status {
        WRITE_FAULT | MEMORY => Err(AllocError),
        DONE => Ok(Some(bytes_of(alloc, out.bytes())?)),
        _ => Ok(None),
    }
}

// What becomes of the dump of an image in one spelling.
fn dumped_again(alloc: Global, dump: &[&str], image: &[u8]) -> Result<Again, AllocError> {
    let Some(text) = ran(alloc, dump, image)? else {
        return Ok(Again::NoDump);
    };
    if text.as_slice().is_empty() {
        return Ok(Again::NoDump);
    }
    let Some(built) = ran(alloc, &["load"], text.as_slice())? else {
        return Ok(Again::Other);
    };
    match ran(alloc, dump, built.as_slice())? {
        Some(second) if second.as_slice() == text.as_slice() => Ok(Again::Same),
        _ => Ok(Again::Other),
    }
}

/// What is told of an image.
pub(crate) fn told_of(alloc: Global, image: &[u8]) -> Result<&'static str, AllocError> {
    let digits = dumped_again(alloc, &["dump"], image)?;
    let printed = dumped_again(alloc, &["dump", "--print"], image)?;
    Ok(match (digits, printed) {
        (Again::Same, Again::Same) => "the same text",
        (Again::NoDump, Again::NoDump) => "no dump",
        _ => "another text",
    })
}
