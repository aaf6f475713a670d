//! Tests on files that the original library wrote: what is listed and found in them.
#![tactic(auto)]

#[cfg(test)]
mod real_btree_lists;
#[cfg(test)]
mod real_btrees;
#[cfg(test)]
mod real_images;
#[cfg(test)]
mod real_lists;
#[cfg(test)]
mod real_set_lists;
#[cfg(test)]
mod reals;
