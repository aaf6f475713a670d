use crate::{Order, Unsupported};

/// What a file is, by the magic number of its page 0.
#[derive(Clone, Copy, Debug, PartialEq, Eq)]
pub enum FileKind {
    Btree,
    Hash,
    Queue,
}

/// What page 0 says of the whole file.
#[derive(Clone, Copy, Debug, PartialEq, Eq)]
pub struct Head {
    /// The order of the bytes of its numbers.
    pub order: Order,
    /// Bytes of a page.
    pub page_size: u32,
    pub kind: FileKind,
    /// The number of the last page.
    pub last: u32,
    /// How many whole pages there are.
    pub pages: u32,
}

/// Why page 0 or a metadata page is refused.
#[derive(Clone, Copy, Debug, PartialEq, Eq)]
pub enum MetaFault {
    /// The code of the row of the fault table that holds.
    Fault(u8),
    /// A case that isn't supported.
    Unsupported(Unsupported),
}

/// The fields of btree metadata.
#[derive(Clone, Copy, Debug, PartialEq, Eq)]
pub struct BtreeMeta {
    pub flags: u32,
    pub minkey: u32,
    /// The length of a record, where records have a fixed one.
    pub re_len: u32,
    /// The byte that fills up a short record.
    pub re_pad: u32,
    /// The root page of the tree.
    pub root: u32,
    /// The first free page of the file, which counts on page 0 alone.
    pub free: u32,
}

/// The fields of hash metadata.
#[derive(Clone, Copy, Debug, PartialEq, Eq)]
pub struct HashMeta {
    pub flags: u32,
    /// The greatest bucket.
    pub max_bucket: u32,
    pub high_mask: u32,
    pub low_mask: u32,
    pub ffactor: u32,
    /// For each group of buckets, what its buckets' numbers are added to.
    pub spares: [u32; 32],
    /// The first free page of the file, which counts on page 0 alone.
    pub free: u32,
}

/// The fields of queue metadata.
#[derive(Clone, Copy, Debug, PartialEq, Eq)]
pub struct QueueMeta {
    /// The number of the first record.
    pub first: u32,
    /// The number after the last record.
    pub current: u32,
    /// The length of a record.
    pub re_len: u32,
    /// The byte that fills up a short record.
    pub re_pad: u32,
    /// How many records stand on a page.
    pub per_page: u32,
}
