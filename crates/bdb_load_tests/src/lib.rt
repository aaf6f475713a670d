//! Tests of `load` and `trial`: dump texts, the images that are built of them, and what `run` says of these.
#![tactic(auto)]

#[cfg(test)]
mod asked;
#[cfg(test)]
mod generated;
#[cfg(test)]
mod kept;
#[cfg(test)]
mod kinds;
#[cfg(test)]
mod loaded;
#[cfg(test)]
mod long;
#[cfg(test)]
mod names;
#[cfg(test)]
mod ranges;
#[cfg(test)]
mod settled;
#[cfg(test)]
mod sizes;
#[cfg(test)]
mod trials;
