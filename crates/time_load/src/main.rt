//! Reads a dump text from standard input and loads its sections; writes how many pages the file has. With the word `read` it only
//! reads, with `settle` it makes the lists of the sections, and writes how many pairs the last one has; with `write` it writes the file.
#![tactic(auto)]

ghost use Rattle.std.specs.Prelude.{◌≤◌, ◌^◌, length};

use bdb_io::{Image, ReadError, StdSink, StdSource, put_all, read_image};
use bdb_mkfile::{Bytes, LoadError, Sections, load, settle};
use bdb_text::{TextError, read_dump};
use std::alloc::{AllocError, Global};
use std::env;
use std::process::ExitCode;

/// The most bytes that a text or a file may have.
const MOST: u64 = 1073741824;

/// What is done with the text, and written.
#[derive(Clone, Copy)]
enum Task {
    CountPages,
    WriteFile,
    CountPairs,
    CountSettled,
}

/// Why nothing is written.
enum Refusal {
    /// It isn't a text, or its sections can't be loaded.
    Text,
    Memory,
}

impl From<AllocError> for Refusal {
    fn from(_error: AllocError) -> Refusal {
        Refusal::Memory
    }
}

fn task_of(word: &str) -> Task {
    match word {
        "read" => Task::CountPairs,
        "settle" => Task::CountSettled,
        "write" => Task::WriteFile,
        _ => Task::CountPages,
    }
}

fn main(rt: HostRuntime) -> ExitCode {
    let Ok(mut words) = env::args(&rt) else {
        return ExitCode::from(7);
    };
    let _program = words.next();
    let task = match words.next() {
        Some(word) => task_of(&word),
        None => Task::CountPages,
    };
    let mut source = StdSource::new(rt.stdin());
    let text = match read_image(rt.alloc(), &mut source, MOST) {
        Ok(text) => text,
        Err(ReadError::Memory) => return ExitCode::from(7),
        Err(_) => return ExitCode::from(4),
    };
    match answer(rt.alloc(), text, task) {
        Ok(bytes) if put_all(&mut StdSink::new(rt.stdout()), bytes.bytes()).is_ok() => {
            ExitCode::from(0)
        }
        Ok(_) => ExitCode::from(5),
        Err(Refusal::Text) => ExitCode::from(8),
        Err(Refusal::Memory) => ExitCode::from(7),
    }
}

// What is written of a text.
#[tactic(auto, using(bdb_mkfile::proofs::ReadLemmas::read_sections_are_loadable))]
fn answer(alloc: Global, text: Image, task: Task) -> Result<Image, Refusal>
    requires { length text ≤ 2 ^ 30 }
{
    let sections = match read_dump(alloc, text.bytes()) {
        Ok(sections) => sections,
        Err(TextError::Memory) => return Err(Refusal::Memory),
        Err(TextError::Fault(_)) => return Err(Refusal::Text),
    };
    match task {
        Task::CountPairs => pairs_of(alloc, &sections),
        Task::CountSettled => match settle(alloc, sections) {
            Ok(settled) => pairs_of(alloc, &settled),
            Err(error) => Err(refused(error)),
        },
        Task::CountPages | Task::WriteFile => {
            let size = page_size(&sections);
            match load(alloc, sections, MOST) {
                Ok(image) => file_of(alloc, image, task, size),
                Err(error) => Err(refused(error)),
            }
        }
    }
}

fn refused(error: LoadError) -> Refusal {
    match error {
        LoadError::Memory => Refusal::Memory,
        _ => Refusal::Text,
    }
}

fn count(alloc: Global, count: usize, what: &str) -> Result<Image, Refusal> {
    let line = format!(in alloc; "{count} {what}\n")?;
    let mut bytes = Bytes::new(alloc);
    bytes.push_all(line.as_bytes())?;
    Ok(Image::from_bytes(bytes))
}

// How many pairs the last of sections has.
fn pairs_of(alloc: Global, sections: &Sections) -> Result<Image, Refusal> {
    let pairs = match sections.as_slice().last() {
        Some(section) => section.pairs.len(),
        None => 0,
    };
    count(alloc, pairs, "pairs")
}

// The page size of the first of sections.
fn page_size(sections: &Sections) -> usize {
    match sections.as_slice().first() {
        Some(section) => (section.settings.page_size as usize).max(1),
        None => 1,
    }
}

// The file, or how many pages it has.
fn file_of(alloc: Global, image: Image, task: Task, size: usize) -> Result<Image, Refusal> {
    match task {
        Task::WriteFile => Ok(image),
        _ => count(alloc, image.bytes().len() / size.max(1), "pages"),
    }
}
