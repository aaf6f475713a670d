ghost use Rattle.std.specs.Prelude.{◌≡◌};
ghost use Rattle.bdb_format.specs.Databases.{plain_settings};

use crate::{Kind, Order};

/// The settings of a database, as the header of its dump text shows them. A field that doesn't belong to the kind is
/// false, or what a header without its keyword says: 32 for `re_pad`, 2 for `minkey`, 0 for the others. Of a queue
/// `fixed` is true.
#[derive(Clone, Copy, Debug, PartialEq, Eq)]
pub struct Settings {
    pub kind: Kind,
    /// Bytes of a page.
    pub page_size: u32,
    /// The order of the bytes of the file's numbers.
    pub order: Order,
    /// Whether a key may have several data (btree, hash).
    pub duplicates: bool,
    /// Whether the data of a key stand in the order of their bytes (btree, hash).
    pub sorted: bool,
    /// Whether internal pages count the pairs below them (btree).
    pub recnum: bool,
    /// Whether records are numbered anew when one is deleted (recno).
    pub renumber: bool,
    /// Whether records have a fixed length (recno, queue).
    pub fixed: bool,
    /// The length of a record, in bytes (recno, queue).
    pub re_len: u32,
    /// The byte that fills up a short record, its low byte alone (recno, queue).
    pub re_pad: u32,
    /// The least number of keys for which a page has room (btree).
    pub minkey: u32,
    /// How many pairs a bucket is to hold, 0 where nothing is said (hash).
    pub ffactor: u32,
}

/// The settings of a database of this kind that says nothing of its own.
pub fn plain_settings(kind: Kind, page_size: u32, order: Order) -> Settings
    ensures { result ≡ plain_settings kind page_size order }
{
    Settings {
        kind,
        page_size,
        order,
        duplicates: false,
        sorted: false,
        recnum: false,
        renumber: false,
        fixed: false,
        re_len: 0,
        re_pad: 32,
        minkey: 2,
        ffactor: 0,
    }
}
