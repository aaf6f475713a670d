//! What is asked of a file, and how it is answered.
#![tactic(auto)]

mod asking;
mod converting;
mod looking;
mod ranging;
mod reading;
mod spelled;
mod stating;
mod text;
mod usage;

pub use asking::answer_file;
pub use bdb_tool_dump::{
    pairs_of, put, refuse, report, span, status, tell, tell_case, tell_memory,
};
pub use bdb_tool_print::{write_apart, write_rest, write_salvaged, write_survey};
pub use reading::answer_reading;
pub use usage::tell_usage;
