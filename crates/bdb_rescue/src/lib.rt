//! What can be had from the pages of a damaged image, one by one.
#![tactic(auto)]

mod entries;
mod entry;
mod error;
mod gathered;
mod guess;
mod kept;
mod kept_pairs;
mod kept_values;
mod on_page;
mod pairs;
mod places;
mod records;
mod salvaged;
mod sets;
mod starts;
mod tables;
mod thin;
mod values;

pub use bdb_survey::{
    Content, Datum, DupBlocks, Guess, KeyView, Meta, Pieces, Slots, Unsupported, WholePages,
    bytes_in, chain_of, compare_datum, entry_slots, paired_slots,
};
pub use bdb_text_format::{Bytes, FileKind, KeyRef, Order, PairRef, Steps, TextPairs};
pub use entries::{SalvageEntries, SalvageEntry};
pub use error::SalvageError;
pub use gathered::{Gatherer, loose_pairs, stored_pairs};
pub use guess::{is_queue_or_master, unsupported_case};
pub use kept::{DataPlace, KeptPair, KeptValue};
pub use pairs::SalvagePairs;
pub use records::SalvageRecords;
pub use salvaged::{Salvaged, salvage};
pub use values::SalvageValues;
