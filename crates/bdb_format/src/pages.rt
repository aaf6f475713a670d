ghost use Rattle.std.specs.Prelude.{◌≡◌, ◌==◌, ◌∷◌, [], if◌then◌else◌};
ghost use Rattle.std.specs.List.{list_any};
ghost use Rattle.bdb_format.specs.Reading.{page_type};
ghost use Rattle.bdb_format.specs.References.{has_type};

/// The fields that begin every page but a metadata or queue page: see docs/FORMAT.md, "The header".
#[derive(Clone, Copy, Debug, PartialEq, Eq)]
pub struct Header {
    /// The page's own number.
    pub number: u32,
    /// The page before in its list, 0 for none.
    pub previous: u32,
    /// The page after in its list, 0 for none.
    pub next: u32,
    /// Entries of the index; of an overflow page, references to the chain that it heads.
    pub entries: u16,
    /// Where the items begin; of an overflow page, bytes of data.
    pub high_free: u16,
    /// Height in the tree: 1 for a leaf.
    pub level: u8,
    /// The type of the page.
    pub page_type: u8,
}

/// The type of a page, by its last byte of a header: see docs/FORMAT.md, "Other pages".
#[derive(Clone, Copy, Debug, PartialEq, Eq)]
pub enum PageType {
    Free,
    Hash,
    Internal,
    RecnoInternal,
    Leaf,
    RecnoLeaf,
    Overflow,
    HashMeta,
    BtreeMeta,
    QueueMeta,
    Queue,
    DupLeaf,
    /// No page of a supported file has it.
    Other,
}

impl PageType {
    pub const FREE: u8 = 0;

    /// Of a hash page whose keys are in no order: whoever seeks one looks at each.
    pub const UNSORTED_HASH: u8 = 2;

    pub const INTERNAL: u8 = 3;

    pub const RECNO_INTERNAL: u8 = 4;

    pub const LEAF: u8 = 5;

    pub const RECNO_LEAF: u8 = 6;

    pub const OVERFLOW: u8 = 7;

    pub const HASH_META: u8 = 8;

    pub const BTREE_META: u8 = 9;

    pub const QUEUE_META: u8 = 10;

    pub const QUEUE: u8 = 11;

    pub const DUP_LEAF: u8 = 12;

    /// Of a hash page on which the original finds a key by halving, in an order of its own.
    pub const HASH: u8 = 13;

    /// The type that a type byte stands for.
    pub fn of(byte: u8) -> PageType
        ensures { result ≡ page_type byte }
    {
        match byte {
            0 => PageType::Free,
            2 => PageType::Hash,
            3 => PageType::Internal,
            4 => PageType::RecnoInternal,
            5 => PageType::Leaf,
            6 => PageType::RecnoLeaf,
            7 => PageType::Overflow,
            8 => PageType::HashMeta,
            9 => PageType::BtreeMeta,
            10 => PageType::QueueMeta,
            11 => PageType::Queue,
            12 => PageType::DupLeaf,
            13 => PageType::Hash,
            _ => PageType::Other,
        }
    }
}

/// Whether a type byte is one of these.
fn is_one_of(types: &[u8], page_type: u8) -> bool
    ensures { result ≡ list_any (λ type. type == page_type) types.now }
{
    types.iter().any(|one| *one == page_type)
}

/// Whether a page has a type, and one of these type bytes.
pub fn has_type(types: &[u8], page_type: Option<u8>) -> bool
    ensures { result ≡ has_type types.now page_type }
{
    match page_type {
        Some(page_type) => is_one_of(types, page_type),
        None => false,
    }
}

/// The type bytes of the pages below an internal page with keys of this level.
pub fn keyed_types(level: u8) -> &'static [u8]
    ensures { result.now ≡ (if level == 2 then 5 ∷ 12 ∷ [] else 3 ∷ []) }
{
    if level == 2 {
        &[PageType::LEAF, PageType::DUP_LEAF]
    } else {
        &[PageType::INTERNAL]
    }
}

/// The type bytes of the pages below an internal page of records of this level.
pub fn record_types(level: u8) -> &'static [u8]
    ensures { result.now ≡ (if level == 2 then 6 ∷ [] else 4 ∷ []) }
{
    if level == 2 {
        &[PageType::RECNO_LEAF]
    } else {
        &[PageType::RECNO_INTERNAL]
    }
}

/// An item of an internal page of a recno tree.
#[derive(Clone, Copy, Debug, PartialEq, Eq)]
pub struct RecnoItem {
    /// The page below.
    pub child: u32,
    /// How many entries stand below that page.
    pub count: u32,
}

/// What is wrong with an item: the first of these that holds.
#[derive(Clone, Copy, Debug, PartialEq, Eq)]
pub enum ItemFault {
    /// Its offset doesn't lie where items may begin.
    Offset,
    /// Its type has no place there.
    Kind,
    /// It goes past its room, or hasn't the length of its type.
    Extent,
}
