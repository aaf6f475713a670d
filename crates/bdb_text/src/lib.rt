//! Dump texts: how bytes, numbers and headers are written, and how a text is read.
#![tactic(auto)]

mod data_lines;
mod data_pairs;
mod dump;
mod earlier;
mod fields;
mod header;
mod headers;
mod keywords;
pub mod laws;
mod meant;
mod text_errors;
mod text_lines;

pub use bdb_spelling::{
    Key, KeyRef, PairRef, PairSlice, SHORT_VALUE, Section, Sections, SpellError, TextFault,
    TextPair, TextPairs, TextReason, is_spelling, line_text, number_text, push_line_text,
    push_short_line, read_spelling,
};
pub use dump::read_dump;
pub use header::{header_text, kind_word, shows_length};
pub use text_errors::TextError;
