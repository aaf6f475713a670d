ghost use Rattle.std.specs.Prelude.{None};
ghost use Rattle.bdb_format.specs.Terms.{HasCause, ReadsInto};
ghost use Rattle.bdb_io.specs.Base.{FailsWhereShut, faults_of};

use crate::{Failed, Source, StdSource};
use std::io::Read;

/// A source over a file that is opened beside the input, or in place of one that can't be opened. It doesn't tell which bytes are left.
#[derive(Drop)]
pub enum BaseSource<R> {
    Reader(StdSource<R>),
    /// A file that couldn't be opened: each read fails.
    Shut { faults: u64 },
}

impl<R: Read> Source for BaseSource<R> {
    ghost left = { λ s. None };

    ghost faults = { faults_of };

    fn read(&mut self, buf: &mut [u8]) -> Result<usize, Failed>
        ensures bytes { ReadsInto None None result buf.new }
        ensures shut { FailsWhereShut self.old result }
        ensures cause { HasCause (faults_of self.old) (faults_of self.new) result }
    {
        match self {
            BaseSource::Reader(source) => source.read(buf),
            BaseSource::Shut { faults } => {
                *faults = faults.saturating_add(1);
                Err(Failed)
            }
        }
    }

    fn expected(&self) -> usize {
        match self {
            BaseSource::Reader(source) => source.expected(),
            BaseSource::Shut { .. } => 0,
        }
    }
}
