/// What a reference from one page to another stands for.
#[derive(Clone, Copy, Debug, PartialEq, Eq)]
pub enum Sort {
    /// The first free page of the file, or the next one.
    Free,
    /// The root of a tree.
    Root,
    /// The first page of a bucket.
    Bucket,
    /// The next page of a bucket.
    HashNext,
    /// A page below an internal page.
    Child,
    /// The first page of a chain.
    OverflowHead,
    /// The next page of a chain.
    OverflowNext,
    /// The root of a tree of duplicates.
    DuplicateRoot,
}

/// A reference that a page holds.
#[derive(Clone, Copy, Debug, PartialEq, Eq)]
pub struct Reference {
    /// Its position among the references of its page, from 0.
    pub place: u32,
    pub sort: Sort,
    /// The number of the page that it names, which need not be there.
    pub target: u64,
}
