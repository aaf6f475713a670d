ghost use Rattle.std.specs.Prelude.{◌≡◌};
ghost use Rattle.bdb_image.specs.Metas.{meta_seen};
ghost use Rattle.bdb_faults.specs.of_format.Terms.{btree_settings, hash_settings, queue_settings, recno_settings, settings_of};

use crate::Meta;
use bdb_faults::{BtreeMeta, HashMeta, Kind, Order, QueueMeta, Settings, plain_settings};

fn btree_settings(meta: &BtreeMeta, page_size: u32, order: Order) -> Settings
    ensures { result ≡ btree_settings page_size order meta.now }
{
    Settings {
        duplicates: meta.has_duplicates(),
        sorted: meta.is_sorted(),
        recnum: meta.counts_records(),
        minkey: meta.minkey,
        ..plain_settings(Kind::Btree, page_size, order)
    }
}

fn recno_settings(meta: &BtreeMeta, page_size: u32, order: Order) -> Settings
    ensures { result ≡ recno_settings page_size order meta.now }
{
    Settings {
        renumber: meta.renumbers(),
        fixed: meta.is_fixed(),
        re_len: meta.re_len,
        re_pad: meta.re_pad,
        ..plain_settings(Kind::Recno, page_size, order)
    }
}

fn hash_settings(meta: &HashMeta, page_size: u32, order: Order) -> Settings
    ensures { result ≡ hash_settings page_size order meta.now }
{
    Settings {
        duplicates: meta.has_duplicates(),
        sorted: meta.is_sorted(),
        ffactor: meta.ffactor,
        ..plain_settings(Kind::Hash, page_size, order)
    }
}

fn queue_settings(meta: &QueueMeta, page_size: u32, order: Order) -> Settings
    ensures { result ≡ queue_settings page_size order meta.now }
{
    Settings {
        fixed: true,
        re_len: meta.re_len,
        re_pad: meta.re_pad,
        ..plain_settings(Kind::Queue, page_size, order)
    }
}

impl Meta {
    /// The settings of the database with these fields, in a file of this page size and byte order, as the header of its dump text
    /// shows them.
    pub fn settings(&self, page_size: u32, order: Order) -> Settings
        ensures { result ≡ settings_of page_size order (meta_seen self.now) }
    {
        match self {
            Meta::Btree(meta) if meta.is_recno() => recno_settings(meta, page_size, order),
            Meta::Btree(meta) => btree_settings(meta, page_size, order),
            Meta::Hash(meta) => hash_settings(meta, page_size, order),
            Meta::Queue(meta) => queue_settings(meta, page_size, order),
        }
    }
}
