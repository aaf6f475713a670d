ghost use Rattle.std.specs.Prelude.{◌≡◌};
ghost use Rattle.bdb_format.specs.declared.kinds.Order.{Order};
ghost use Rattle.bdb_layout.specs.Seen.{HoldsOrder, HasOrder, content_seen, hash_content_seen, key_seen, leaf_item_seen};

use crate::DupBlocks;

/// What an item holds, of whatever page it is; its bytes are lent from the page.
#[derive(Drop)]
pub enum Content<'a> {
    /// Bytes on the page.
    Inline(&'a [u8]),
    /// A set of data on the page.
    Set(DupBlocks<'a>),
    /// A chain of overflow pages, by its first page and its length in bytes.
    Overflow { head: u32, total: u32 },
    /// A set of data off the page, by the root of its tree.
    OffPage { root: u32 },
}

/// An item of a leaf; its bytes are lent from the page.
#[derive(Clone, Copy, Debug, PartialEq, Eq)]
pub enum LeafItem<'a> {
    /// Bytes on the page.
    Inline {
        bytes: &'a [u8],
        deleted: bool,
    },
    /// A set of data off the page, by the root of its tree.
    Duplicates {
        root: u32,
        deleted: bool,
    },
    /// A chain of overflow pages, by its first page and its length in bytes.
    Overflow {
        head: u32,
        total: u32,
        deleted: bool,
    },
}

impl<'a> LeafItem<'a> {
    /// What the item holds.
    pub fn content(&self) -> Content<'a>
        ensures { content_seen result ≡ (leaf_item_seen self.now).content }
    {
        match *self {
            LeafItem::Inline { bytes, .. } => Content::Inline(bytes),
            LeafItem::Duplicates { root, .. } => Content::OffPage { root },
            LeafItem::Overflow { head, total, .. } => Content::Overflow { head, total },
        }
    }

    /// Whether the item is deleted.
    pub fn is_deleted(&self) -> bool
        ensures { result ≡ (leaf_item_seen self.now).deleted }
    {
        match *self {
            LeafItem::Inline { deleted, .. } => deleted,
            LeafItem::Duplicates { deleted, .. } => deleted,
            LeafItem::Overflow { deleted, .. } => deleted,
        }
    }
}

/// The key of an item of an internal page.
#[derive(Clone, Copy, Debug, PartialEq, Eq)]
pub enum InternalKey<'a> {
    /// Bytes on the page.
    Inline(&'a [u8]),
    /// A chain of overflow pages, by its first page and its length in bytes.
    Overflow { head: u32, total: u32 },
}

impl<'a> InternalKey<'a> {
    /// What the key holds.
    pub fn content(&self) -> Content<'a>
        ensures { content_seen result ≡ key_seen self.now }
    {
        match *self {
            InternalKey::Inline(bytes) => Content::Inline(bytes),
            InternalKey::Overflow { head, total } => Content::Overflow { head, total },
        }
    }
}

/// An item of an internal page of a btree.
#[derive(Clone, Copy, Debug, PartialEq, Eq)]
pub struct InternalItem<'a> {
    /// The page below.
    pub child: u32,
    /// The record count of what is below, 0 where none is kept.
    pub count: u32,
    pub key: InternalKey<'a>,
}

/// An item of a hash page.
#[derive(Drop)]
pub enum HashItem<'a> {
    /// Bytes on the page.
    Inline(&'a [u8]),
    /// A set of data on the page.
    Set(DupBlocks<'a>),
    /// A chain of overflow pages, by its first page and its length in bytes.
    Overflow { head: u32, total: u32 },
    /// A set of data off the page, by the root of its tree.
    OffPage { root: u32 },
}

impl<'a> HashItem<'a> {
    /// What the item holds; a set keeps the order that it has.
    pub fn content(&self) -> Content<'a>
        ensures content { content_seen result ≡ hash_content_seen self.now }
        ensures order { (order : Order) → HasOrder order self.now → HoldsOrder order result }
    {
        match self {
            HashItem::Inline(bytes) => Content::Inline(bytes),
            HashItem::Set(set) => Content::Set(set.again()),
            HashItem::Overflow { head, total } => Content::Overflow {
                head: *head,
                total: *total,
            },
            HashItem::OffPage { root } => Content::OffPage { root: *root },
        }
    }
}
