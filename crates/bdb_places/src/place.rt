use crate::Span;

/// Where the key of a pair stands, or the number of its record.
#[derive(Clone, Copy, Debug, PartialEq, Eq)]
pub enum PlacedKey {
    Bytes(Span),
    Number(u32),
}

/// Where a pair stands in a run of bytes, and the number of its first line in the text that it was read from; 0 where it was read from none.
#[derive(Clone, Copy, Debug, PartialEq, Eq)]
pub struct Place {
    pub key: PlacedKey,
    pub value: Span,
    pub line: u64,
}
