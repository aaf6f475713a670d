//! The settings of trees, tables and queues.

ghost use Rattle.std.specs.Prelude.{◌≡◌};

use bdb_need::{Kind, Order, Settings, plain_settings};

/// Those of single data, which aren't counted, and of records of any length.
pub fn plain(kind: Kind, order: Order, page_size: u32) -> Settings
    ensures kind { result.kind ≡ kind }
    ensures size { result.page_size ≡ page_size }
{
    plain_settings(kind, page_size, order)
}

/// Those of a tree that these flags of metadata say, of records of a length where they have one.
pub fn tree_settings(order: Order, page_size: u32, flags: u32, re_len: u32) -> Settings {
    let kind = if flags & 0x02 != 0 {
        Kind::Recno
    } else {
        Kind::Btree
    };
    Settings {
        duplicates: flags & 0x41 != 0,
        sorted: flags & 0x40 != 0,
        recnum: flags & 0x04 != 0,
        fixed: flags & 0x08 != 0,
        re_len,
        ..plain(kind, order, page_size)
    }
}

/// Those of a table that these flags of metadata say.
pub fn table_settings(order: Order, page_size: u32, flags: u32) -> Settings {
    Settings {
        duplicates: flags & 0x05 != 0,
        sorted: flags & 0x04 != 0,
        ..plain(Kind::Hash, order, page_size)
    }
}

/// Those of a queue of records of a length.
pub fn queue_settings(order: Order, page_size: u32, re_len: u32) -> Settings {
    Settings {
        fixed: true,
        re_len,
        re_pad: 0x2a,
        ..plain(Kind::Queue, order, page_size)
    }
}
