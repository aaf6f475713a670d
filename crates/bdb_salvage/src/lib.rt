//! What can be had from the pages of a damaged image, one by one.
#![tactic(auto)]

pub mod laws;

pub use bdb_rescue::{
    Bytes, Datum, FileKind, Guess, KeyView, Meta, Order, SalvageEntries, SalvageEntry,
    SalvageError, SalvagePairs, SalvageValues, Salvaged, Steps, chain_of, compare_datum, salvage,
};
