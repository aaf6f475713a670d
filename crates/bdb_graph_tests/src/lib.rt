//! Tests of the page graph: opening an image, the references of a page, chains, and the leaves of trees.
#![tactic(auto)]

#[cfg(test)]
mod all_faults;
#[cfg(test)]
mod chains;
#[cfg(test)]
mod descents;
#[cfg(test)]
mod fields;
#[cfg(test)]
mod held;
#[cfg(test)]
mod linking;
#[cfg(test)]
mod noted;
#[cfg(test)]
mod opening;
#[cfg(test)]
mod rings;
#[cfg(test)]
mod sampled;
#[cfg(test)]
mod structure_samples;
#[cfg(test)]
mod trees;
#[cfg(test)]
mod walks;
