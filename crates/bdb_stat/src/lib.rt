//! What the pages of a sound file are, and how much of them holds nothing.
#![tactic(auto)]

mod class;
mod classing;
mod counting;
mod figures;
mod hash;
pub mod laws;
mod marks;
mod starts;
mod unused;

pub use class::Class;
pub use counting::stat;
pub use figures::Stat;
