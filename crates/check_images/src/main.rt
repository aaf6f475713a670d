//! Tells the verdict on each image that standard input names, by all rows and in any order.
#![tactic(auto)]

ghost use Rattle.std.specs.Prelude.{IfOk};
ghost use Rattle.check_images.specs.Lines.{AreLinesOnFile};

mod lines;
mod verdict;

use crate::lines::{lines_on, unreadable};
use crate::verdict::verdict_on;
use bdb_tool::{Bytes, Rows};
use std::alloc::AllocError;
use std::io::Write;
use std::rt::Files;
use std::{fs, io};

fn main(rt: HostRuntime) -> io::Result<()> {
    let mut out = io::writer(&rt);
    for name in rt.lines(rt.alloc()) {
        let lines = lines_of_file(&rt, name?.as_str())?;
        out.write_all(lines.as_slice())?;
    }
    Ok(())
}

// The lines on the image in a file, or one that says that the file can't be read.
#[tactic(auto, using(crate::proofs::LineLemmas::lines_on_unreadable))]
fn lines_of_file<R: Files + AllocGlobal>(rt: &R, name: &str) -> Result<Bytes, AllocError>
    ensures { IfOk result (AreLinesOnFile name.now) }
{
    match fs::read(rt, name) {
        Ok(image) => {
            let told = verdict_on(rt.alloc(), image.as_slice(), Rows::All)?;
            let in_any_order = verdict_on(rt.alloc(), image.as_slice(), Rows::AnyOrder)?;
            lines_on(rt.alloc(), name, told.as_slice(), in_any_order.as_slice())
        }
        Err(_) => unreadable(rt.alloc(), name),
    }
}
