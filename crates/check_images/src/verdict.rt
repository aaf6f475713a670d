ghost use Rattle.std.specs.Prelude.{◌≡◌, IfOk};
ghost use Rattle.check_images.specs.Lines.{verdict_on, verify_words};

use bdb_tool::status::{DONE, MEMORY, WRITE_FAULT};
use bdb_tool::{Bytes, MemSink, PureSource, Rows, Words, run_counted};
use std::alloc::{AllocError, Global};
use std::marker::Brand;
use std::sync::ledger::Blank;

/// What the answer to `verify` over an image tells, by the rows that count: the line of a sound file, or a line for each fault.
pub fn verdict_on(alloc: Global, image: &[u8], rows: Rows) -> Result<Bytes, AllocError>
    ensures { IfOk result (λ verdict. verdict ≡ verdict_on rows image.now) }
{
    let words = verify_words(alloc, rows)?;
    let mut source = PureSource::new(bytes_of(alloc, image)?);
    let mut out = MemSink::new(alloc);
    let mut err = MemSink::new(alloc);
    let status = run_counted::<Brand, _, _, _>(
        alloc,
        &words,
        &mut source,
        &mut out,
        &mut err,
        Blank::new(1),
    );
    match status {
        WRITE_FAULT | MEMORY => Err(AllocError),
        DONE => bytes_of(alloc, out.bytes()),
        _ => bytes_of(alloc, err.bytes()),
    }
}

fn verify_words(alloc: Global, rows: Rows) -> Result<Words, AllocError>
    ensures { IfOk result (λ words. words ≡ verify_words rows) }
{
    let mut words = Words::new(alloc);
    words.push("verify")?;
    if matches!(rows, Rows::AnyOrder) {
        words.push("--any-order")?;
    }
    Ok(words)
}

fn bytes_of(alloc: Global, piece: &[u8]) -> Result<Bytes, AllocError>
    ensures { IfOk result (λ bytes. bytes ≡ piece.now) }
{
    let mut bytes = Bytes::new(alloc);
    bytes.push_all(piece)?;
    Ok(bytes)
}
