ghost use Rattle.std.specs.Prelude.{◌≡◌, ◌<◌, Ok, Some, None, length, min, take};
ghost use Rattle.bdb_format.specs.Terms.{ReadsInto};

use crate::{Failed, Sink, Source};
use bdb_format::Bytes;
use std::marker::Model;

/// A source over bytes in memory, of which no call fails.
#[derive(Drop)]
pub struct PureSource {
    bytes: Bytes,
    at: usize,
}

impl Model for PureSource {
    ghost use Rattle.std.specs.Prelude.{◌≤◌, List, ℕ, drop, length};

    ghost Value = { List ℕ };

    ghost view = { λ s. drop s.at s.bytes };

    ghost invariant = { λ s. s.at ≤ length s.bytes };
}

impl PureSource {
    /// A source of these bytes.
    pub fn new(bytes: Bytes) -> PureSource
        ensures { result ≡ bytes }
    {
        PureSource { bytes, at: 0 }
    }
}

impl Source for PureSource {
    ghost left = { λ s. Some s };

    ghost faults = { λ s. 0 };

    fn read(&mut self, buf: &mut [u8]) -> Result<usize, Failed>
        requires { 0 < length buf.old }
        ensures all { result ≡ Ok (min (length self.old) (length buf.old)) }
        ensures bytes { ReadsInto (Some self.old) (Some self.new) result buf.new }
    {
        let rest = &self.bytes.as_slice()[self.at..];
        let count = copy_front(rest, buf);
        self.at += count;
        Ok(count)
    }
}

// Copies as much of the bytes as there is room for, and says how much.
fn copy_front(bytes: &[u8], buf: &mut [u8]) -> usize
    ensures count { result ≡ min (length bytes.now) (length buf.old) }
    ensures front { take result buf.new ≡ take result bytes.now }
{
    let count = bytes.len().min(buf.len());
    buf[..count].copy_from_slice(&bytes[..count]);
    count
}

/// A sink that drops what it takes, and of which no call fails.
#[derive(Drop)]
pub struct PureSink;

impl PureSink {
    /// A sink that keeps nothing.
    pub fn new() -> PureSink {
        PureSink
    }
}

impl Sink for PureSink {
    ghost written = { λ s. None };

    ghost faults = { λ s. 0 };

    fn write(&mut self, piece: &[u8]) -> Result<usize, Failed>
        ensures { result ≡ Ok (length piece.now) }
    {
        Ok(piece.len())
    }
}
