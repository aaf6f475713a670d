//! Reads standard input and stores it as one value on pages of 4096 bytes, behind a zero page; writes how many pages there are.
//! With a word it only reads, and writes how many bytes there are.
#![tactic(auto)]

ghost use Rattle.std.specs.Prelude.{◌≤◌, ◌^◌, length};

use bdb_io::{Order, ReadError, StdSink, StdSource, put_all, read_image};
use bdb_pack::{Pages, push_value};
use std::alloc::{AllocError, Global};
use std::env;
use std::process::ExitCode;

/// The most bytes that a value may have.
const MOST: u64 = 1073741824;

fn main(rt: HostRuntime) -> ExitCode {
    let only_reads = match env::args(&rt) {
        Ok(args) => args.len() > 1,
        Err(_) => return ExitCode::from(7),
    };
    let mut source = StdSource::new(rt.stdin());
    let value = match read_image(rt.alloc(), &mut source, MOST) {
        Ok(value) => value,
        Err(ReadError::Memory) => return ExitCode::from(7),
        Err(_) => return ExitCode::from(4),
    };
    let told = if only_reads {
        tell(rt.alloc(), value.bytes().len(), "bytes")
    } else {
        tell_pages(rt.alloc(), value.bytes())
    };
    match told {
        Ok(text) if put_all(&mut StdSink::new(rt.stdout()), text.as_bytes()).is_ok() => {
            ExitCode::from(0)
        }
        Ok(_) => ExitCode::from(5),
        Err(_) => ExitCode::from(7),
    }
}

fn tell(alloc: Global, count: usize, what: &str) -> Result<String, AllocError> {
    format!(in alloc; "{count} {what}\n")
}

// How many pages there are once a value is stored behind a zero page.
fn tell_pages(alloc: Global, value: &[u8]) -> Result<String, AllocError>
    requires { length value.now ≤ 2 ^ 30 }
{
    let mut pages = Pages::new(alloc, 4096, Order::Little);
    pages.add()?;
    push_value(&mut pages, value)?;
    tell(alloc, pages.count() as usize, "pages")
}
