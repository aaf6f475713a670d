//! The flags of metadata, and what they allow. Source: docs/FORMAT.md, "Metadata pages".
ghost use Rattle.std.specs.Prelude.{◌≡◌};
ghost use Rattle.bdb_format.specs.Flags.{counts_records, has_duplicates, is_fixed, is_recno, is_sorted, names_databases, renumbers};
ghost use Rattle.bdb_format.specs.Page.{BtreeFields, HashFields};

use crate::{BtreeMeta, HashMeta};

impl BtreeMeta {
    /// A key may have several data.
    pub const DUPLICATES: u32 = 0x01;

    /// The tree is a recno's.
    pub const RECNO: u32 = 0x02;

    /// Internal items count the records below them.
    pub const RECORD_NUMBERS: u32 = 0x04;

    /// Records have one length.
    pub const FIXED: u32 = 0x08;

    /// Records are numbered anew where one goes.
    pub const RENUMBERS: u32 = 0x10;

    /// On page 0 the pairs name databases.
    pub const NAMES: u32 = 0x20;

    /// The data of a key are sorted.
    pub const SORTED: u32 = 0x40;

    /// Pairs are compressed.
    pub const COMPRESSED: u32 = 0x80;

    /// `DUPLICATES` and `SORTED`: each lets a key have several data.
    pub const SEVERAL: u32 = 0x41;

    /// `SEVERAL` and `RECORD_NUMBERS`: a recno has none of them.
    pub const KEYED: u32 = 0x45;

    /// All flags that are known.
    pub const ALL: u32 = 0xff;

    /// Whether the tree is a recno's.
    pub fn is_recno(&self) -> bool
        ensures { result ≡ is_recno self.now }
    {
        self.flags & BtreeMeta::RECNO != 0
    }

    /// Whether a key may have several data.
    pub fn has_duplicates(&self) -> bool
        ensures { result ≡ has_duplicates (BtreeFields self.now) }
    {
        self.flags & BtreeMeta::SEVERAL != 0
    }

    /// Whether the data of a key are sorted.
    pub fn is_sorted(&self) -> bool
        ensures { result ≡ is_sorted (BtreeFields self.now) }
    {
        self.flags & BtreeMeta::SORTED != 0
    }

    /// Whether internal items count the records below them.
    pub fn counts_records(&self) -> bool
        ensures { result ≡ counts_records self.now }
    {
        self.flags & BtreeMeta::RECORD_NUMBERS != 0
    }

    /// Whether a recno's records have one length.
    pub fn is_fixed(&self) -> bool
        ensures { result ≡ is_fixed self.now }
    {
        self.flags & BtreeMeta::FIXED != 0
    }

    /// Whether a recno's records are numbered anew where one goes.
    pub fn renumbers(&self) -> bool
        ensures { result ≡ renumbers self.now }
    {
        self.flags & BtreeMeta::RENUMBERS != 0
    }

    /// Whether on page 0 the pairs name databases.
    pub fn names_databases(&self) -> bool
        ensures { result ≡ names_databases self.now }
    {
        self.flags & BtreeMeta::NAMES != 0
    }
}

impl HashMeta {
    /// A key may have several data.
    pub const DUPLICATES: u32 = 0x01;

    /// The file has more databases than one.
    pub const NAMES: u32 = 0x02;

    /// The data of a key are sorted.
    pub const SORTED: u32 = 0x04;

    /// `DUPLICATES` and `SORTED`: each lets a key have several data.
    pub const SEVERAL: u32 = 0x05;

    /// All flags that are known.
    pub const ALL: u32 = 0x07;

    /// Whether a key may have several data.
    pub fn has_duplicates(&self) -> bool
        ensures { result ≡ has_duplicates (HashFields self.now) }
    {
        self.flags & HashMeta::SEVERAL != 0
    }

    /// Whether the data of a key are sorted.
    pub fn is_sorted(&self) -> bool
        ensures { result ≡ is_sorted (HashFields self.now) }
    {
        self.flags & HashMeta::SORTED != 0
    }
}
