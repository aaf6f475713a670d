//! Which database each page of a damaged image belongs to.
#![tactic(auto)]

mod asked;
mod claims;
mod climb;
mod face;
mod faces;
mod home;
mod homes;
mod items;
mod judged;
mod rows;
mod runs;
mod table;
mod up;

pub use bdb_graph::{
    Kind, Order, PageType, PageView, QueueMeta, Settings, Steps, records_per_page, u32_at,
};
pub use bdb_survey::{Guess, Meta, WholePages, queue_fields};
pub use home::Home;
pub use homes::PageHomes;
