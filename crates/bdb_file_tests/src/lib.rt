//! Tests of the verdict on whole files.
#![tactic(auto)]

#[cfg(test)]
mod all_faults;
#[cfg(test)]
mod any_order;
#[cfg(test)]
mod files;
#[cfg(test)]
mod judging;
#[cfg(test)]
mod sounds;
#[cfg(test)]
mod worked;
