/// Where the whole data of a pair are.
#[derive(Clone, Copy, Debug, PartialEq, Eq)]
pub enum DataPlace {
    /// In its data item.
    Here,
    /// On the leaves of a set, from this one on.
    Set { leaf: u32 },
}

/// A pair whose key and data are whole.
#[derive(Clone, Copy, Debug)]
pub struct KeptPair {
    pub page: u32,
    /// Its place on the page: its key is the item at twice this index, and its data the next.
    pub index: u16,
    /// Its data item isn't deleted.
    pub live: bool,
    pub place: DataPlace,
}

/// A live entry of a leaf of records or of sorted data, whose value is whole.
#[derive(Clone, Copy, Debug)]
pub struct KeptValue {
    pub page: u32,
    pub index: u16,
}
