/// The data that a key may have.
#[derive(Clone, Copy, Debug, PartialEq, Eq)]
pub enum Duplicates {
    /// One: a later datum takes the place of an earlier one.
    No,
    /// All, as they come.
    Unsorted,
    /// All in byte order, each once.
    Sorted,
}

/// The one database that repair puts what it salvages into: a btree or a hash with the stored pairs, or a recno with the loose records.
#[derive(Clone, Copy, Debug, PartialEq, Eq)]
pub enum Shape {
    Btree(Duplicates),
    Hash(Duplicates),
    Recno,
}
