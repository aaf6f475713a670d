//! What loading does to the pairs of sections.
#![tactic(auto)]

mod errors;
mod filling;
pub mod laws;
mod leads;
mod load_error;
mod order;
mod sections;
mod settling;
mod turning;

pub use errors::{
    is_among_names, is_too_wide, load_error as first_load_error, page_size_in, sooner_where,
    with_pairs,
};
pub use filling::filled_len;
pub use load_error::LoadError;
pub use sections::{filled, ordered, settle};
