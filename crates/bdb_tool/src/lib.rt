//! The whole program but for its real input and output: words and a source in, a status and texts on two sinks out.
#![tactic(auto)]

mod answer;
mod building;
pub mod laws;
mod program;
mod repairing;
mod salvaging;
mod task;
mod text;

pub use bdb_repair::{
    BaseSource, BtreeMeta, Bytes, Failed, Image, KeyRef, Kind, Linked, LoadError, MemSink,
    MemSource, Meta, Order, PairSlice, PureSource, Sink, Source, StdSink, StdSource, Steps,
    TextPairs, Words, hash5, load, push_line_text, put_all, read_dump, settle,
};
pub use bdb_tool_ask::{pairs_of, span, status, tell_usage};
pub use bdb_tool_build::{Db, Rows, Scan, Sound, generate, trial_text, verify};
pub use bdb_tool_words::onto_file;
pub use program::{run, run_counted, run_onto};
