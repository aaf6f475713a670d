//! Tests of what databases hold: their rules, their lists and lookups in them.
#![tactic(auto)]

#[cfg(test)]
mod btree_samples;
#[cfg(test)]
mod btree_separators;
#[cfg(test)]
mod btrees;
#[cfg(test)]
mod hash_samples;
#[cfg(test)]
mod hashes;
#[cfg(test)]
mod lookup_cases;
#[cfg(test)]
mod lookup_samples;
#[cfg(test)]
mod lookups;
#[cfg(test)]
mod noted;
#[cfg(test)]
mod queues;
#[cfg(test)]
mod ranges;
#[cfg(test)]
mod recno_samples;
#[cfg(test)]
mod recnos;
#[cfg(test)]
mod told;
