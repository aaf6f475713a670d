//! A value of 40,000 bytes, whose 80,000 digits are written in two pieces.

use crate::files::LONG_VALUE;
use crate::images::bytes_of;
use crate::outside::Narrow;
use crate::running::{WRITE_FAULT, is_start, status_of};
use bdb_tool::{Bytes, MemSink, MemSource, Sink};
use std::alloc::{AllocError, Global};
use std::test::Fail;

/// The last page of the chain, which begins at page 2: 82 pages of 486 bytes, and one of 148.
const LAST: u8 = 84;

fn chain_page(number: u8) -> [u8; 512] {
    let before = if number == 2 {
        0
    } else {
        number.saturating_sub(1)
    };
    let after = if number == LAST {
        0
    } else {
        number.saturating_add(1)
    };
    let [low, high] = if number == LAST { [148, 0] } else { [0xe6, 1] };
    let header = [
        0, 0, 0, 0, 0, 0, 0, 0, number, 0, 0, 0, before, 0, 0, 0, after, 0, 0, 0, 1, 0, low, high,
        0, 7,
    ];
    let mut page = [0x62u8; 512];
    page[..26].copy_from_slice(&header);
    page
}

fn image_of(alloc: Global) -> Result<Bytes, AllocError> {
    let mut image = bytes_of(alloc, &LONG_VALUE)?;
    for number in 2..LAST + 1 {
        image.push_all(&chain_page(number))?;
    }
    Ok(image)
}

fn digits_of(alloc: Global) -> Result<Bytes, AllocError> {
    let mut digits = Bytes::new(alloc);
    for _ in 0..40000 {
        digits.push_all(b"62")?;
    }
    digits.push_all(b"\n")?;
    Ok(digits)
}

#[derive(Drop)]
struct Long {
    status: u8,
    err: MemSink,
}

fn got<K: Sink>(alloc: Global, out: &mut K) -> Result<Long, AllocError> {
    let mut source = MemSource::new(alloc, image_of(alloc)?);
    let mut err = MemSink::new(alloc);
    let status = status_of(alloc, &["get", "a"], &mut source, out, &mut err)?;
    Ok(Long { status, err })
}

fn sink_that_fails_at(alloc: Global, call: u64) -> Result<MemSink, AllocError> {
    let mut sink = MemSink::new(alloc);
    sink.fail_at(call)?;
    Ok(sink)
}

#[test]
fn gives_a_long_value(rt: HostRuntime) -> Result<(), Fail> {
    let digits = digits_of(rt.alloc())?;
    let mut out = sink_that_fails_at(rt.alloc(), 3)?;
    let long = got(rt.alloc(), &mut out)?;
    assert_eq!(rt; long.status, 0);
    assert!(rt; out.bytes() == digits.as_slice());
    assert!(rt; long.err.bytes().is_empty());
    Ok(())
}

#[test]
fn keeps_the_pieces_before_a_fault(rt: HostRuntime) -> Result<(), Fail> {
    let digits = digits_of(rt.alloc())?;
    for call in 1..3 {
        let mut out = sink_that_fails_at(rt.alloc(), call)?;
        let long = got(rt.alloc(), &mut out)?;
        assert_eq!(rt; long.status, 5);
        let taken = out.bytes().len();
        assert!(rt; is_start(digits.as_slice(), taken, out.bytes()));
        assert_eq!(rt; taken >= 65536, call == 2);
        assert_eq!(rt; long.err.bytes(), WRITE_FAULT);
    }
    Ok(())
}

#[test]
fn keeps_the_bytes_before_a_fault(rt: HostRuntime) -> Result<(), Fail> {
    let digits = digits_of(rt.alloc())?;
    for taken in [1, 65536, 80000] {
        let mut out = Narrow::cut_after(rt.alloc(), taken)?;
        let long = got(rt.alloc(), &mut out)?;
        assert_eq!(rt; long.status, 5);
        assert!(rt; is_start(digits.as_slice(), taken, out.sink.bytes()));
        assert_eq!(rt; long.err.bytes(), WRITE_FAULT);
    }
    Ok(())
}
