//! Tests of trees, tables and queues that are built from lists, each put under metadata, judged and read back, and of how many pages trees need.
#![tactic(auto)]

#[cfg(test)]
mod counted_rows;
#[cfg(test)]
mod counted_texts;
#[cfg(test)]
mod counting;
#[cfg(test)]
mod growing;
#[cfg(test)]
mod judging;
mod legal;
#[cfg(test)]
mod queue_lists;
#[cfg(test)]
mod queue_rows;
#[cfg(test)]
mod queues;
#[cfg(test)]
mod settings;
#[cfg(test)]
mod spelled_queues;
#[cfg(test)]
mod spelled_trees;
#[cfg(test)]
mod table_rows;
mod tables;
mod tree_lists;
#[cfg(test)]
mod tree_rows;
#[cfg(test)]
mod trees;
#[cfg(test)]
mod values;

pub use bdb_need::{PairSlice, settle};
pub use bdb_text::read_dump;
pub use tables::{TableImage, built_table};
