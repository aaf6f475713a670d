/// The order of the bytes of a number.
#[derive(Clone, Copy, Debug, PartialEq, Eq)]
pub enum Order {
    Big,
    Little,
}

/// What a database is.
#[derive(Clone, Copy, Debug, PartialEq, Eq)]
pub enum Kind {
    Btree,
    Recno,
    Hash,
    Queue,
}

/// A row of the fault table that holds at a page.
#[derive(Clone, Copy, Debug, PartialEq, Eq)]
pub struct Fault {
    pub stage: u8,
    pub page: u32,
    pub code: u8,
}

/// A file that isn't supported.
#[derive(Clone, Copy, Debug, PartialEq, Eq)]
pub enum Unsupported {
    Version,
    Heap,
    LargePage,
    Encryption,
    Checksum,
    Partition,
    Extent,
    Compression,
    OwnHash,
    WrappedQueue,
}

/// Why a file isn't sound; an unsupported case has its page.
#[derive(Clone, Copy, Debug, PartialEq, Eq)]
pub enum Verdict {
    Fault(Fault),
    Unsupported(Unsupported, u32),
    Memory,
}

/// Why a part of a file isn't sound.
#[derive(Clone, Copy, Debug, PartialEq, Eq)]
pub enum CheckError {
    Fault(Fault),
    Memory,
}
