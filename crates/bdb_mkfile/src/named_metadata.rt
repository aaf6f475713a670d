ghost use Rattle.std.specs.Prelude.{◌≡◌, ℕ, ◌+◌, ◌-◌, ◌<◌, ◌≤◌, IsTrue, length};
ghost use Rattle.bdb_io.specs.of_format.Terms.{is_page_size, is_zero};
ghost use Rattle.bdb_need.specs.of_pack.Built.{bytes_of};
ghost use Rattle.bdb_mkfile.specs.Layout.{named_table_meta, named_tree_meta};
ghost use Rattle.bdb_mkfile.specs.WrittenMetadata.{ArePut, IsPut, ReadsBack, meta_bytes};

use crate::metadata::tree_meta;
use bdb_io::{BtreeMeta, HashMeta, Order, Settings};
use bdb_need::{Pages, put_btree_meta, put_hash_meta};

/// The metadata of a database that is built, before it is written.
#[derive(Clone, Copy)]
pub(crate) enum DatabaseMeta {
    Tree(BtreeMeta),
    /// That of a hash with so many pairs.
    Table { meta: HashMeta, elements: u32 },
}

/// The metadata of a tree under a name, or of the master.
pub(crate) fn named_tree_meta(settings: &Settings, root: u32) -> BtreeMeta
    ensures { result ≡ named_tree_meta settings.now root }
{
    let mut meta = tree_meta(settings, root);
    meta.flags += BtreeMeta::NAMES;
    meta
}

/// The metadata of a hash under a name.
pub(crate) fn named_table_meta(meta: &HashMeta) -> HashMeta
    requires { meta.now.flags ≤ 5 }
    ensures { result ≡ named_table_meta meta.now }
{
    let mut named = *meta;
    named.flags += HashMeta::NAMES;
    named
}

// Writes metadata over a zero page.
fn put_on(page: &mut [u8], order: Order, number: u32, last: u32, meta: &DatabaseMeta)
    requires size { IsTrue (is_page_size (length page.old)) }
    requires zero { IsTrue (is_zero page.old) }
    ensures page { page.new ≡ meta_bytes order (length page.old) number last meta.now }
    ensures fields { ReadsBack order page.new meta.now }
{
    match meta {
        DatabaseMeta::Tree(meta) => put_btree_meta(page, order, number, last, meta),
        DatabaseMeta::Table { meta, elements } => {
            put_hash_meta(page, order, number, last, *elements, meta)
        }
    }
}

/// Writes metadata over a zero page of these.
pub(crate) fn put_meta(pages: &mut Pages, number: u32, meta: &DatabaseMeta)
    requires there { number < length pages.old.pages }
    requires zero { IsTrue (is_zero (bytes_of pages.old number)) }
    ensures { IsPut pages.old pages.new number meta.now }
{
    let order = pages.order();
    let last = pages.count() - 1;
    put_on(pages.page_mut(number), order, number, last, meta);
}

/// Writes metadata over the zero pages before a number, the last one first.
pub(crate) fn put_metas(pages: &mut Pages, beyond: u32, metas: &[DatabaseMeta])
    requires room { length metas.now ≤ beyond }
    requires there { beyond ≤ length pages.old.pages }
    requires zero { (p : ℕ) → beyond - length metas.now ≤ p → p < beyond → IsTrue (is_zero (bytes_of pages.old p)) }
    ensures { ArePut pages.old pages.new beyond metas.now }
{
    let mut number = beyond;
    for meta in metas {
        number -= 1;
        put_meta(pages, number, meta);
    }
}
