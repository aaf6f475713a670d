//! For tests: runs of `run` over memory, what they give, and the files and texts that they read; and tests of what a line of `check_runs` can't say.
#![tactic(auto)]

pub mod files;
pub mod images;
#[cfg(test)]
mod limits;
#[cfg(test)]
mod long_value;
#[cfg(test)]
mod onto;
#[cfg(test)]
mod others;
pub mod outside;
pub mod running;
pub mod texts;
#[cfg(test)]
mod trials;

pub use bdb_tool::{
    BaseSource, Bytes, MemSink, MemSource, Sink, Source, StdSource, Steps, hash5, laws, run,
};
