ghost use Rattle.std.specs.Prelude.{◌≡◌, ◌<◌, ◌++◌, ◌∷◌, ◌↔◌, [], length, min, Some, IsErr, OnOk, OnErr, IfOk};
ghost use Rattle.bdb_format.specs.Terms.{HasCause, ReadsInto, WritesFrom};
ghost use Rattle.bdb_io.specs.Memory.{IsToFail, one_more};

use crate::calls::Calls;
use crate::{Failed, PureSource, Sink, Source};
use bdb_format::Bytes;
use std::alloc::{AllocError, Global};
use std::marker::Model;

/// A source over bytes in memory, some of whose calls fail.
#[derive(Drop)]
pub struct MemSource {
    source: PureSource,
    calls: Calls,
}

impl Model for MemSource {
    ghost use Rattle.bdb_io.specs.Memory.{Memory};

    ghost Value = { Memory };

    ghost view = { λ s. record { bytes = s.source; calls = s.calls.calls; failing = s.calls.failing; faults = s.calls.faults } };
}

impl MemSource {
    /// A source of these bytes, of which no read fails.
    pub fn new(alloc: Global, bytes: Bytes) -> MemSource
        ensures { result ≡ record { bytes = bytes; calls = 0; failing = []; faults = 0 } }
    {
        MemSource {
            source: PureSource::new(bytes),
            calls: Calls::new(alloc),
        }
    }

    /// The call with this number, counted from 1, will fail. An error means that memory ran out for the note of it.
    pub fn fail_at(&mut self, call: u64) -> Result<(), AllocError>
        ensures ok { OnOk result (self.new ≡ record self.old { failing = self.old.failing ++ call ∷ [] }) }
        ensures err { OnErr result (self.new ≡ self.old) }
    {
        self.calls.fail_at(call)
    }
}

impl Source for MemSource {
    ghost left = { λ s. Some s.bytes };

    ghost faults = { λ s. s.faults };

    fn read(&mut self, buf: &mut [u8]) -> Result<usize, Failed>
        requires { 0 < length buf.old }
        ensures fails { IsErr result ↔ IsToFail self.old.calls self.old.failing }
        ensures bytes { ReadsInto (Some self.old.bytes) (Some self.new.bytes) result buf.new }
        ensures all { IfOk result (λ count. count ≡ min (length self.old.bytes) (length buf.old)) }
        ensures cause { HasCause self.old.faults self.new.faults result }
        ensures ok { OnOk result (self.new ≡ record self.old { bytes = self.new.bytes; calls = one_more self.old.calls }) }
        ensures err { OnErr result (self.new ≡ record self.old { calls = one_more self.old.calls; faults = one_more self.old.faults }) }
    {
        self.calls.begin()?;
        self.source.read(buf)
    }
}

/// A sink in memory, some of whose calls fail.
#[derive(Drop)]
pub struct MemSink {
    bytes: Bytes,
    calls: Calls,
}

impl Model for MemSink {
    ghost use Rattle.bdb_io.specs.Memory.{Memory};

    ghost Value = { Memory };

    ghost view = { λ s. record { bytes = s.bytes; calls = s.calls.calls; failing = s.calls.failing; faults = s.calls.faults } };
}

impl MemSink {
    /// An empty sink, to which no write fails.
    pub fn new(alloc: Global) -> MemSink
        ensures { result ≡ record { bytes = []; calls = 0; failing = []; faults = 0 } }
    {
        MemSink {
            bytes: Bytes::new(alloc),
            calls: Calls::new(alloc),
        }
    }

    /// What was written so far.
    pub fn bytes(&self) -> &[u8]
        ensures { result.now ≡ self.now.bytes }
    {
        self.bytes.as_slice()
    }

    /// The call with this number, counted from 1, will fail. An error means that memory ran out for the note of it.
    pub fn fail_at(&mut self, call: u64) -> Result<(), AllocError>
        ensures ok { OnOk result (self.new ≡ record self.old { failing = self.old.failing ++ call ∷ [] }) }
        ensures err { OnErr result (self.new ≡ self.old) }
    {
        self.calls.fail_at(call)
    }
}

impl Sink for MemSink {
    ghost written = { λ s. Some s.bytes };

    ghost faults = { λ s. s.faults };

    /// Appends the whole piece. It also fails where memory runs out.
    fn write(&mut self, piece: &[u8]) -> Result<usize, Failed>
        requires { 0 < length piece.now }
        ensures fails { IsToFail self.old.calls self.old.failing → IsErr result }
        ensures bytes { WritesFrom (Some self.old.bytes) (Some self.new.bytes) result piece.now }
        ensures all { IfOk result (λ count. count ≡ length piece.now) }
        ensures cause { HasCause self.old.faults self.new.faults result }
        ensures ok { OnOk result (self.new ≡ record self.old { bytes = self.old.bytes ++ piece.now; calls = one_more self.old.calls }) }
        ensures err { OnErr result (self.new ≡ record self.old { calls = one_more self.old.calls; faults = one_more self.old.faults }) }
    {
        self.calls.begin()?;
        match self.bytes.push_all(piece) {
            Ok(()) => Ok(piece.len()),
            Err(_) => Err(self.calls.fail()),
        }
    }
}
