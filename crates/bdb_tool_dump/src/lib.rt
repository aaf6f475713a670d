//! What a sound file lists, finds and dumps, written to a sink as it comes.
#![tactic(auto)]

mod dumping;
mod listing;

pub use bdb_tool_print::{
    Cut, RangePairs, SpellError, pairs_of, put, read_spelling, refuse, report, span, status, tell,
    tell_case, tell_list, tell_memory,
};
pub use dumping::{write_section, write_sections};
pub use listing::{write_found, write_list};
