//! What a damaged file still has, and what of it is lost.
#![tactic(auto)]

mod counts;
mod one;
mod pages;
mod pair_counts;
mod record_counts;
mod refused;
mod renumbered;
mod rows;
mod unjudged;

pub use bdb_apart::{
    Apart, Database, Databases, Datum, Guess, Kind, Order, Pairs, PairsLeft, Records, RecordsLeft,
    SalvageError, SalvagePairs, SalvageValues, Salvaged, Settings, Steps, Unsupported, apart_of,
    bytes_in, salvage,
};
pub use bdb_format::{FormRow, Named, Row};
pub use counts::{given_count, lost_count, rest_pairs, rest_records};
pub use pages::{cut_bytes, page_count, zero_count};
pub use refused::{RefusedPages, refused_pages};
pub use renumbered::{RenumberedPages, renumbered_pages};
