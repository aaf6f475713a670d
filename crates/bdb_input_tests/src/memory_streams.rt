// Sources and sinks in memory.
use crate::std_streams::gives;
use bdb_io::{
    Failed, Image, MemSink, MemSource, PureSink, PureSource, ReadError, Sink, Source, put_all,
    read_image,
};
use bdb_model::{Bytes, Words};
use std::alloc::{AllocError, Global};
use std::test::Fail;

fn bytes_of(alloc: Global, pieces: &[&[u8]]) -> Result<Bytes, AllocError> {
    let mut bytes = Bytes::new(alloc);
    for piece in pieces {
        bytes.push_all(piece)?;
    }
    Ok(bytes)
}

// Whether this word stands at this place.
fn holds(words: &Words, i: usize, want: Option<&[u8]>) -> bool {
    match (words.get(i), want) {
        (Some(word), Some(bytes)) => word == bytes,
        (None, None) => true,
        _ => false,
    }
}

// Whether pieces are one row of bytes, and as an image too.
fn are_kept(alloc: Global, pieces: &[&[u8]], want: &[u8]) -> Result<bool, AllocError> {
    let bytes = bytes_of(alloc, pieces)?;
    Ok(bytes.as_slice() == want && Image::from_bytes(bytes).bytes() == want)
}

#[test]
fn keeps_bytes(rt: HostRuntime) -> Result<(), Fail> {
    assert!(rt; are_kept(rt.alloc(), &[b"ab", b"", b"c"], b"abc")?);
    Ok(())
}

// Adds two words, and says whether they stand, and no other.
fn are_words_kept(words: &mut Words) -> Result<bool, AllocError> {
    words.push("get")?;
    words.push("é")?;
    Ok(
        words.len() == 2
            && holds(words, 0, Some(b"get"))
            && holds(words, 1, Some(b"\xc3\xa9"))
            && holds(words, 2, None),
    )
}

#[test]
fn keeps_words(rt: HostRuntime) -> Result<(), Fail> {
    assert!(rt; are_words_kept(&mut Words::new(rt.alloc()))?);
    Ok(())
}

// Whether a source of more than three pieces of 65,536 bytes fails at this read, of four and one that gives nothing.
fn fails_at_read(alloc: Global, call: u64) -> Result<bool, AllocError> {
    let input = [7u8; 200_000];
    let mut source = MemSource::new(alloc, bytes_of(alloc, &[&input])?);
    source.fail_at(call)?;
    let want = if call < 6 {
        Err(ReadError::ReadFault)
    } else {
        Ok(input.as_slice())
    };
    Ok(gives(&read_image(alloc, &mut source, 200_000), want))
}

#[test]
fn fails_at_each_read(rt: HostRuntime) -> Result<(), Fail> {
    for call in 1..7u64 {
        assert!(rt; fails_at_read(rt.alloc(), call)?);
    }
    Ok(())
}

// Whether of three writes the one of this number fails, and no other.
fn fails_once(sink: &mut MemSink, call: u64) -> bool {
    for (number, piece) in [(1u64, b"ab"), (2, b"cd"), (3, b"ef")] {
        if put_all(sink, piece).is_err() != (number == call) {
            return false;
        }
    }
    true
}

fn fails_at_write(alloc: Global, call: u64, want: &[u8]) -> Result<bool, AllocError> {
    let mut sink = MemSink::new(alloc);
    sink.fail_at(9)?;
    sink.fail_at(call)?;
    Ok(fails_once(&mut sink, call) && sink.bytes() == want)
}

// Which write fails, and what is written.
const LEFT: [(u64, &[u8]); 4] = [(1, b"cdef"), (2, b"abef"), (3, b"abcd"), (4, b"abcdef")];

#[test]
fn fails_at_each_write(rt: HostRuntime) -> Result<(), Fail> {
    for (call, want) in LEFT {
        assert!(rt; fails_at_write(rt.alloc(), call, want)?);
    }
    Ok(())
}

// Moves what is left of a source to a sink, and says how many bytes.
fn moved<S: Source, K: Sink>(source: &mut S, sink: &mut K) -> Result<usize, Failed> {
    let mut total = 0usize;
    let mut buf = [0u8; 2];
    for _ in 0..9 {
        let count = source.read(&mut buf)?;
        if count == 0 {
            break;
        }
        if put_all(sink, &buf[..count]).is_err() {
            return Err(Failed);
        }
        total = total.saturating_add(count);
    }
    Ok(total)
}

fn moves_to_memory(alloc: Global) -> Result<bool, AllocError> {
    let mut sink = MemSink::new(alloc);
    let mut source = PureSource::new(bytes_of(alloc, &[b"abcde"])?);
    Ok(moved(&mut source, &mut sink) == Ok(5) && sink.bytes() == b"abcde".as_slice())
}

fn moves_from_memory(alloc: Global) -> Result<bool, AllocError> {
    let mut source = MemSource::new(alloc, bytes_of(alloc, &[b"abc"])?);
    Ok(moved(&mut source, &mut PureSink::new()) == Ok(3))
}

#[test]
fn moves_without_faults(rt: HostRuntime) -> Result<(), Fail> {
    assert!(rt; moves_to_memory(rt.alloc())? && moves_from_memory(rt.alloc())?);
    Ok(())
}
