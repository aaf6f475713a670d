// What is answered to the sections of a dump text, as a text.
use bdb_model::{Bytes, KeyRef, PairRef, Section, Sections};
use bdb_settle::{LoadError, settle};
use bdb_text::read_dump;
use std::alloc::{AllocError, Global};

// A line of the key, a space and the datum.
fn push_pair(alloc: Global, text: &mut Bytes, pair: PairRef<'_>) -> Result<(), AllocError> {
    match pair.key {
        KeyRef::Bytes(key) => text.push_all(key)?,
        KeyRef::Number(number) => text.push_all(format!(in alloc; "{number}")?.as_bytes())?,
    }
    text.push_all(b" ")?;
    text.push_all(pair.value)?;
    text.push_all(b"\n")
}

// The name of a section where it has one, in a line of its own, and its pairs.
fn push_section(alloc: Global, text: &mut Bytes, section: &Section) -> Result<(), AllocError> {
    if let Some(name) = &section.name {
        text.push_all(name.as_slice())?;
        text.push_all(b":\n")?;
    }
    let pairs = section.pairs.as_slice();
    for i in 0..pairs.len() {
        push_pair(alloc, text, pairs.at(i))?;
    }
    Ok(())
}

// An error and its line.
fn push_error(alloc: Global, text: &mut Bytes, error: LoadError) -> Result<(), AllocError> {
    let line = match error {
        LoadError::RecordTooLong(line) => format!(in alloc; "too long, line {line}")?,
        LoadError::RecordZero(line) => format!(in alloc; "zero, line {line}")?,
        LoadError::TooLarge => format!(in alloc; "too large")?,
        LoadError::QueueAmongNames(line) => format!(in alloc; "among names, line {line}")?,
        LoadError::OntoKind(line) => format!(in alloc; "another kind, line {line}")?,
        LoadError::OntoNames(line) => format!(in alloc; "names, line {line}")?,
        LoadError::Memory => format!(in alloc; "no memory")?,
    };
    text.push_all(line.as_bytes())
}

fn push_answer(
    alloc: Global,
    text: &mut Bytes,
    answer: Result<Sections, LoadError>,
) -> Result<(), AllocError> {
    match answer {
        Ok(sections) => {
            for section in sections.as_slice() {
                push_section(alloc, text, section)?;
            }
            Ok(())
        }
        Err(error) => push_error(alloc, text, error),
    }
}

// What is answered to the sections of a dump text; nothing where it isn't read.
fn settled(alloc: Global, text: &[u8]) -> Result<Bytes, AllocError> {
    let mut told = Bytes::new(alloc);
    if text.len() > 1048576 {
        return Ok(told);
    }
    if let Ok(sections) = read_dump(alloc, text) {
        push_answer(alloc, &mut told, settle(alloc, sections))?;
    }
    Ok(told)
}

/// A dump text, and what is answered to its sections: a line for each name and each pair, or an error.
pub(crate) type Row = (&'static [u8], &'static [u8]);

fn is_settled(alloc: Global, row: &Row) -> Result<bool, AllocError> {
    Ok(settled(alloc, row.0)?.as_slice() == row.1)
}

/// Whether each text is answered as its row says.
pub(crate) fn are_settled(alloc: Global, rows: &[Row]) -> Result<bool, AllocError> {
    for row in rows {
        if !is_settled(alloc, row)? {
            return Ok(false);
        }
    }
    Ok(true)
}
