//! Texts on their way to a sink, the lines by which faults are told, and how an answer is written.
#![tactic(auto)]

mod cut;
mod digits;
mod finish;
mod line;
mod printer;
mod refusing;
mod room;
pub mod status;
mod telling;

pub use bdb_io::{Sink, put_all};
pub use cut::Cut;
pub use finish::{put, report, tell, tell_memory};
pub use refusing::{case_name, refuse, tell_case, tell_list};
pub use room::Room;
pub use telling::{tell_all, tell_one};
