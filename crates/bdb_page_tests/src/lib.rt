//! Tests of the crates that read and write single pages: metadata, and typed views with their items.
#![tactic(auto)]

#[cfg(test)]
mod forms;
#[cfg(test)]
mod items;
#[cfg(test)]
mod meta;
