//! Tests of what comes in: sources and sinks, dump texts and what loading makes of their pairs, and generated pairs.
#![tactic(auto)]

#[cfg(test)]
mod generated;
#[cfg(test)]
mod headers;
#[cfg(test)]
mod many_names;
#[cfg(test)]
mod memory_streams;
#[cfg(test)]
mod numbers;
#[cfg(test)]
mod real_texts;
#[cfg(test)]
mod settled_errors;
#[cfg(test)]
mod settled_lists;
#[cfg(test)]
mod settling;
#[cfg(test)]
mod spellings;
#[cfg(test)]
mod std_streams;
#[cfg(test)]
mod text_faults;
#[cfg(test)]
mod texts_read;
