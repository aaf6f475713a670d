/// What a page of a file is: each page of a sound file has one class.
#[derive(Clone, Copy, Debug, PartialEq, Eq)]
pub enum Class {
    Meta,
    /// A page above the leaves of a tree.
    Internal,
    /// A leaf of a tree, also of a tree of duplicates.
    Leaf,
    /// A page of a bucket of a hash, or one of its zero pages.
    Hash,
    /// A page of a chain.
    Overflow,
    /// A page on the list of free pages.
    Free,
    /// Held back by a hash: no reference names it.
    Reserve,
    /// A page of a queue, not its metadata.
    Queue,
    /// A page above the last page that page 0 names.
    Tail,
}
