//! How far an input is read, and what `trial` tells where its output fails.

use crate::files::ONE_PAIR;
use crate::images::bytes_of;
use crate::outside::{Dripping, Narrow};
use crate::running::Told::Line;
use crate::running::{
    READ_FAULT, WRITE_FAULT, gave, is_start, ran_of, ran_over, source_over, status_of,
};
use bdb_tool::{MemSink, MemSource};
use std::alloc::{AllocError, Global};
use std::test::Fail;

#[test]
fn reads_a_byte_beyond_its_limit(rt: HostRuntime) -> Result<(), Fail> {
    let image = bytes_of(rt.alloc(), &ONE_PAIR)?;
    let mut source = Dripping::new(image.as_slice(), 1);
    let ran = ran_over(rt.alloc(), &["verify", "--max-bytes", "100"], &mut source)?;
    assert!(rt; gave(&ran, Line(6, b"input longer than 100 bytes\n")));
    assert_eq!(rt; source.reads, 101);
    Ok(())
}

#[test]
fn tells_a_read_fault_at_each_call(rt: HostRuntime) -> Result<(), Fail> {
    for call in 1..3 {
        let mut source = source_over(rt.alloc(), &ONE_PAIR)?;
        source.fail_at(call)?;
        let ran = ran_over(rt.alloc(), &["verify"], &mut source)?;
        assert!(rt; gave(&ran, Line(4, READ_FAULT)));
    }
    Ok(())
}

const TRIAL: &[&str] = &["trial", "hash", "7", "0"];

// The output takes so many bytes of what is written whole.
fn is_cut(alloc: Global, whole: &[u8], taken: usize) -> Result<bool, AllocError> {
    let mut source = source_over(alloc, &ONE_PAIR)?;
    let mut out = Narrow::cut_after(alloc, taken)?;
    let mut err = MemSink::new(alloc);
    let status = status_of(alloc, TRIAL, &mut source, &mut out, &mut err)?;
    Ok(status == 5 && is_start(whole, taken, out.sink.bytes()) && err.bytes() == WRITE_FAULT)
}

#[test]
fn tells_a_write_fault_of_what_is_tried(rt: HostRuntime) -> Result<(), Fail> {
    let whole = ran_of(rt.alloc(), TRIAL, &ONE_PAIR)?;
    assert_eq!(rt; whole.status, 0);
    for taken in 0..whole.out.bytes().len() {
        assert!(rt; is_cut(rt.alloc(), whole.out.bytes(), taken)?);
    }
    Ok(())
}
