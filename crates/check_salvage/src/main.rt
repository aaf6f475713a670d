//! Of each file that standard input names: whether its dump, loaded and dumped, is the same text in both spellings, and whether salvage gives each
//! pair and each record as often as its databases list it.
#![tactic(auto)]

mod census;
mod held;
mod rounds;

use crate::census::census_of;
use crate::rounds::told_of;
use bdb_salvage::Bytes;
use std::alloc::{AllocError, Global};
use std::io::Write;
use std::rt::Files;
use std::{fs, io};

fn main(rt: HostRuntime) -> io::Result<()> {
    let mut out = io::writer(&rt);
    for name in rt.lines(rt.alloc()) {
        let line = line_of_file(&rt, name?.as_str())?;
        out.write_all(line.as_slice())?;
    }
    Ok(())
}

// The line on a file: its name, and what is told of it, with tabs between.
fn line_of_file<R: Files + AllocGlobal>(rt: &R, name: &str) -> Result<Bytes, AllocError> {
    let mut line = Bytes::new(rt.alloc());
    line.push_all(name.as_bytes())?;
    line.push_all(b"\t")?;
    match fs::read(rt, name) {
        Ok(image) => tell(rt.alloc(), &mut line, image.as_slice())?,
        Err(_) => line.push_all(b"can't be read")?,
    }
    line.push_all(b"\n")?;
    Ok(line)
}

// Tells of its dump, and of what is salvaged.
fn tell(alloc: Global, line: &mut Bytes, image: &[u8]) -> Result<(), AllocError> {
    line.push_all(told_of(alloc, image)?.as_bytes())?;
    line.push_all(b"\t")?;
    line.push_all(census_of(alloc, image)?.as_slice())
}
