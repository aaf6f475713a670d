//! From the sections of a dump text to a sound image: of one database without a name, or of several under names.
#![tactic(auto)]

mod alone;
mod databases;
mod image;
pub mod laws;
mod lengths;
mod loading;
mod master;
mod metadata;
mod named_metadata;
mod order;
mod queue;
mod table;
mod trees;

pub use bdb_io::Bytes;
pub use bdb_need::{
    Linked, LoadError, Meta, filled, hash5, is_among_names, is_too_wide, name_of, need, ordered,
    settle, sooner_where, with_pairs,
};
pub use bdb_text_format::{KeyRef, PairSlice, PlacedPairs, Section, Sections, TextPairs};
pub use image::named_image;
pub use loading::{load, load_sound};
pub use metadata::{file_settings, tree_meta};
pub use order::in_name_order;
pub use queue::queue_image;
pub use table::{element_count, table_image};
pub use trees::tree_image;
