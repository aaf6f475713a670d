//! How bytes and numbers are spelled in dump texts.
#![tactic(auto)]

mod bytevalue;
mod digit_tables;
mod digits;
mod lines;
mod numbers;
mod printed;
mod runs;
mod spellings;

pub use bdb_text_format::{
    Bytes, Judged, Key, KeyRef, Kind, Order, PairRef, PairSlice, Place, PlacedKey, PlacedPairs,
    Section, Sections, Settings, Span, TextFault, TextPair, TextPairs, TextReason, number_in,
    plain_settings,
};
pub use bytevalue::{SHORT_VALUE, push_short_line};
pub use digits::number_read;
pub use lines::{line_text, push_line_text};
pub use numbers::number_text;
pub use runs::read_run;
pub use spellings::{SpellError, is_spelling, read_spelling};
