ghost use Rattle.std.specs.Prelude.{◌≡◌, ◌<◌, None, IfOk, OnOk};
ghost use Rattle.std.specs.Io.{ReadsAtMost, WritesAtMost};
ghost use Rattle.std.specs.Io.KnownBytes.{ReadConsumes, WriteAppends};
ghost use Rattle.bdb_format.specs.Terms.{HasCause};

use crate::{Failed, Sink, Source};
use std::io::{Read, Write};
use std::marker::Model;

/// A source over any reader of std. As a source it doesn't tell which bytes are left.
#[derive(Drop)]
pub struct StdSource<R> {
    reader: R,
    faults: u64,
    expected: usize,
}

impl<R> Model for StdSource<R> {
    ghost use Rattle.bdb_io.specs.Outside.{Outside};

    ghost Value = { Outside R };

    ghost view = { λ s. record { inner = s.reader; faults = s.faults } };
}

impl<R: Read> StdSource<R> {
    /// A source that reads from a reader.
    pub fn new(reader: R) -> StdSource<R>
        ensures { result ≡ record { inner = reader; faults = 0 } }
    {
        StdSource::expecting(reader, 0)
    }

    /// A source that reads from a reader from which so many bytes are likely to come: who gathers them takes room for so many at once.
    pub fn expecting(reader: R, expected: usize) -> StdSource<R>
        ensures { result ≡ record { inner = reader; faults = 0 } }
    {
        StdSource {
            reader,
            faults: 0,
            expected,
        }
    }
}

impl<R: Read> Source for StdSource<R> {
    ghost left = { λ s. None };

    ghost faults = { λ s. s.faults };

    fn read(&mut self, buf: &mut [u8]) -> Result<usize, Failed>
        ensures bound { ReadsAtMost result buf.new }
        // What it gives is what the reader gave, where that one tells its bytes.
        ensures bytes { ReadConsumes (R.remaining self.old.inner) (R.remaining self.new.inner) result buf.new }
        ensures cause { HasCause self.old.faults self.new.faults result }
        ensures ok { OnOk result (self.new.faults ≡ self.old.faults) }
    {
        match self.reader.read(buf) {
            Ok(count) => Ok(count),
            Err(_) => {
                self.faults = self.faults.saturating_add(1);
                Err(Failed)
            }
        }
    }

    fn expected(&self) -> usize {
        self.expected
    }
}

/// A sink over any writer of std. As a sink it doesn't tell which bytes were written.
#[derive(Drop)]
pub struct StdSink<W> {
    writer: W,
    faults: u64,
}

impl<W> Model for StdSink<W> {
    ghost use Rattle.bdb_io.specs.Outside.{Outside};

    ghost Value = { Outside W };

    ghost view = { λ s. record { inner = s.writer; faults = s.faults } };
}

impl<W: Write> StdSink<W> {
    /// A sink that writes to a writer.
    pub fn new(writer: W) -> StdSink<W>
        ensures { result ≡ record { inner = writer; faults = 0 } }
    {
        StdSink { writer, faults: 0 }
    }
}

impl<W: Write> Sink for StdSink<W> {
    ghost written = { λ s. None };

    ghost faults = { λ s. s.faults };

    /// A write of no bytes is a failure.
    fn write(&mut self, piece: &[u8]) -> Result<usize, Failed>
        ensures some { IfOk result (λ count. 0 < count) }
        ensures bound { WritesAtMost result piece.now }
        // What it takes is what the writer took, where that one tells its bytes.
        ensures bytes { WriteAppends (W.contents self.old.inner) (W.contents self.new.inner) result piece.now }
        ensures cause { HasCause self.old.faults self.new.faults result }
        ensures ok { OnOk result (self.new.faults ≡ self.old.faults) }
    {
        match self.writer.write(piece) {
            Ok(count) if count > 0 => Ok(count),
            _ => {
                self.faults = self.faults.saturating_add(1);
                Err(Failed)
            }
        }
    }
}
