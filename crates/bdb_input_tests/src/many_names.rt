// A text of very many named sections: whether a name stands already isn't asked of each of them.
use bdb_model::Bytes;
use bdb_text::{TextError, TextFault, TextReason, read_dump};
use std::alloc::{AllocError, Global};
use std::test::Fail;

/// How many sections the text has.
const MANY: u32 = 100000;

// The section of a btree without pairs, whose name is a number of six digits, in five lines.
fn push_section(text: &mut Bytes, number: u32) -> Result<(), AllocError> {
    let digit = |n: u32| b'0' + (n % 10) as u8;
    text.push_all(b"VERSION=3\ndatabase=")?;
    text.push_all(&[
        digit(number / 100000),
        digit(number / 10000),
        digit(number / 1000),
        digit(number / 100),
        digit(number / 10),
        digit(number),
    ])?;
    text.push_all(b"\ntype=btree\nHEADER=END\nDATA=END\n")
}

// Each number once, out of order.
fn text_of(alloc: Global) -> Result<Bytes, AllocError> {
    let mut text = Bytes::new(alloc);
    for at in 0..MANY {
        push_section(&mut text, at * 7 % MANY)?;
    }
    Ok(text)
}

// How many sections a text is read as, or its fault.
fn counted(alloc: Global, text: &[u8]) -> Result<usize, Option<TextFault>> {
    if text.len() > 1073741824 {
        return Err(None);
    }
    match read_dump(alloc, text) {
        Ok(sections) => Ok(sections.len()),
        Err(TextError::Fault(fault)) => Err(Some(fault)),
        Err(TextError::Memory) => Err(None),
    }
}

// Whether all names are read, and the first of them again is told.
fn are_told_apart(alloc: Global, text: &mut Bytes) -> Result<bool, AllocError> {
    if counted(alloc, text.as_slice()) != Ok(100000) {
        return Ok(false);
    }
    push_section(text, 0)?;
    let fault = TextFault {
        line: 500004,
        reason: TextReason::NameTwice,
    };
    Ok(counted(alloc, text.as_slice()) == Err(Some(fault)))
}

#[test]
fn a_hundred_thousand_names_are_read(rt: HostRuntime) -> Result<(), Fail> {
    let mut text = text_of(rt.alloc())?;
    assert!(rt; are_told_apart(rt.alloc(), &mut text)?);
    Ok(())
}
