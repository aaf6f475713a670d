ghost use Rattle.std.specs.Prelude.{None};

use bdb_tool::{Failed, MemSink, Sink, Source};
use std::alloc::{AllocError, Global};

/// A source that gives at most `most` bytes a read, fails at one of its calls, counted from 1, and counts them.
#[derive(Drop)]
pub struct Dripping<'a> {
    rest: &'a [u8],
    most: usize,
    /// The call that fails; 0: none.
    pub fails_at: u64,
    pub reads: u64,
    faults: u64,
}

impl<'a> Dripping<'a> {
    pub fn new(rest: &'a [u8], most: usize) -> Dripping<'a> {
        Dripping {
            rest,
            most,
            fails_at: 0,
            reads: 0,
            faults: 0,
        }
    }
}

impl<'a> Source for Dripping<'a> {
    ghost left = { λ s. None };

    ghost faults = { λ s. s.faults };

    fn read(&mut self, buf: &mut [u8]) -> Result<usize, Failed> {
        self.reads = self.reads.saturating_add(1);
        if self.reads == self.fails_at {
            self.faults = self.faults.saturating_add(1);
            return Err(Failed);
        }
        let count = self.rest.len().min(buf.len()).min(self.most);
        buf[..count].copy_from_slice(&self.rest[..count]);
        self.rest = &self.rest[count..];
        Ok(count)
    }
}

/// A sink that takes a byte a write.
#[derive(Drop)]
pub struct Narrow {
    pub sink: MemSink,
}

impl Narrow {
    /// A sink whose write after so many bytes fails.
    pub fn cut_after(alloc: Global, taken: usize) -> Result<Narrow, AllocError> {
        let mut sink = MemSink::new(alloc);
        sink.fail_at((taken as u64).saturating_add(1))?;
        Ok(Narrow { sink })
    }
}

impl Sink for Narrow {
    ghost written = { λ s. None };

    ghost faults = { λ s. s.sink.faults };

    fn write(&mut self, piece: &[u8]) -> Result<usize, Failed> {
        self.sink.write(&piece[..1])
    }
}
