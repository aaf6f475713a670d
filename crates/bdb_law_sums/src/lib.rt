//! Laws of sums: what all leaves and hash pages of a file hold, its databases hold together.
#![tactic(auto)]

pub mod laws;

pub use bdb_tree::{
    Datum, DupLeafView, HashView, Header, KeyView, LeafView, Meta, Order, PageType, PageView,
    Pieces, RecnoLeafView, Steps, bytes_in, compare_datum, form, has_type, keyed_types, known_form,
    page_bytes, pieces_at, record_types,
};
