use bdb_text_format::Values;

/// What a tree is built of, one after the other.
#[derive(Clone, Copy)]
pub enum Unit<'a> {
    /// A key of a btree with all its data, one at least.
    Keyed { key: &'a [u8], values: Values<'a> },
    /// A record of a recno. A missing one is deleted, and has no bytes.
    Entry { value: &'a [u8], deleted: bool },
}
