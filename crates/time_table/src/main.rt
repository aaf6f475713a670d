//! Reads a dump text from standard input, makes the list of its last section, a hash's, and builds the table of that behind a page of
//! metadata; writes how many pages there are. With a word it only makes the list, and writes how many pairs there are.
#![tactic(auto)]

ghost use Rattle.std.specs.Prelude.{◌≤◌, ◌^◌, length};

use bdb_building_tests::{PairSlice, built_table, read_dump, settle};
use bdb_io::{Bytes, ReadError, Settings, StdSink, StdSource, put_all, read_image};
use std::alloc::{AllocError, Global};
use std::env;
use std::process::ExitCode;

/// The most bytes that a text may have.
const MOST: u64 = 1073741824;

/// What is to be written.
#[derive(Clone, Copy)]
enum Told {
    Pages,
    Pairs,
}

fn told_by(words: usize) -> Told {
    match words {
        0 | 1 => Told::Pages,
        _ => Told::Pairs,
    }
}

fn main(rt: HostRuntime) -> ExitCode {
    let told = match env::args(&rt) {
        Ok(args) => told_by(args.len()),
        Err(_) => return ExitCode::from(7),
    };
    let mut source = StdSource::new(rt.stdin());
    let text = match read_image(rt.alloc(), &mut source, MOST) {
        Ok(text) => text,
        Err(ReadError::Memory) => return ExitCode::from(7),
        Err(_) => return ExitCode::from(4),
    };
    match answer(rt.alloc(), text.bytes(), told) {
        Ok(bytes) if put_all(&mut StdSink::new(rt.stdout()), bytes.as_slice()).is_ok() => {
            ExitCode::from(0)
        }
        Ok(_) => ExitCode::from(5),
        Err(_) => ExitCode::from(7),
    }
}

// What is written of a text: nothing where it is none, or where no table can be built of its last section.
fn answer(alloc: Global, text: &[u8], told: Told) -> Result<Bytes, AllocError>
    requires { length text.now ≤ 2 ^ 30 }
{
    let nothing = Bytes::new(alloc);
    let Ok(sections) = read_dump(alloc, text) else {
        return Ok(nothing);
    };
    let Ok(mut sections) = settle(alloc, sections) else {
        return Ok(nothing);
    };
    let Some(section) = sections.pop() else {
        return Ok(nothing);
    };
    answer_of(alloc, &section.settings, section.pairs.as_slice(), told)
}

fn answer_of(
    alloc: Global,
    settings: &Settings,
    list: PairSlice<'_>,
    told: Told,
) -> Result<Bytes, AllocError> {
    if matches!(told, Told::Pairs) {
        return count(alloc, list.len(), "pairs");
    }
    match built_table(alloc, settings, list)? {
        Some(image) => count(
            alloc,
            image.bytes.as_slice().len() / (settings.page_size as usize).max(1),
            "pages",
        ),
        None => Ok(Bytes::new(alloc)),
    }
}

fn count(alloc: Global, count: usize, what: &str) -> Result<Bytes, AllocError> {
    let line = format!(in alloc; "{count} {what}\n")?;
    let mut bytes = Bytes::new(alloc);
    bytes.push_all(line.as_bytes())?;
    Ok(bytes)
}
