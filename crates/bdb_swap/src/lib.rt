//! Files in the other byte order: each number of each page byte-swapped.
#![tactic(auto)]

mod crossing;
mod flipping;
mod hash;
mod header;
mod image;
mod internal;
pub mod laws;
mod leaf;
mod listed;
mod metadata;
mod number;
mod overlap;
mod page;
mod ranged;
mod recno;

pub use bdb_io::{Order, Sink, Steps};
pub use bdb_law_turned::{link, open_image};
pub use flipping::{FlipError, flip};
