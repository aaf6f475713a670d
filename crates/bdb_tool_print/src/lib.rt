//! Texts that are written to a sink as they come: lists, data, ranges, dumps, what is salvaged, and what a damaged file still has.
#![tactic(auto)]

mod aparting;
mod dumping;
mod naming;
mod printing;
mod ranging;
mod salvaging;
mod surveying;

pub use aparting::{write_apart, write_rest};
pub use bdb_range::{Bytes, RangePairs, pairs_of, span};
pub use bdb_text::{SpellError, read_spelling};
pub use bdb_tool_lines::{
    Cut, Sink, put, refuse, report, status, tell, tell_case, tell_list, tell_memory,
};
pub use printing::Printer;
pub use ranging::write_pairs;
pub use salvaging::write_salvaged;
pub use surveying::write_survey;
