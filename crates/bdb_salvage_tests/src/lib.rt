//! Tests of what salvage gives from damaged images.
#![tactic(auto)]

#[cfg(test)]
mod chains;
#[cfg(test)]
mod images;
#[cfg(test)]
mod leaves;
#[cfg(test)]
mod sets;
#[cfg(test)]
mod told;
