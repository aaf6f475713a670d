ghost use Rattle.std.specs.Prelude.{◌≡◌, ◌<◌, ◌*◌, ◌+◌, length};
ghost use Rattle.bdb_overflow.specs.of_form.Seen.{page_seen};
ghost use Rattle.bdb_overflow.specs.of_format.Terms.{Meta as MetaPage};
ghost use Rattle.bdb_overflow.specs.of_image.Metas.{meta_seen};
ghost use Rattle.bdb_tree.specs.Noted.{data_root, meta_root, pair_count, paired};

use bdb_overflow::{HashItem, LeafItem, Meta, PageView};

/// The root of the tree of metadata, if it's a btree's.
pub(crate) fn meta_root(meta: &Meta) -> Option<u32>
    ensures { result ≡ meta_root (MetaPage (meta_seen meta.now)) }
{
    match meta {
        Meta::Btree(meta) => Some(meta.root),
        Meta::Hash(_) | Meta::Queue(_) => None,
    }
}

/// The root of the set that the data of a pair are.
pub(crate) fn data_root(page: &PageView<'_>, i: u16) -> Option<u32>
    requires { 2 * i + 1 < length (paired (page_seen page.now)) }
    ensures { result ≡ data_root (page_seen page.now) i }
{
    match page {
        PageView::Leaf(page) => match page.value(i) {
            LeafItem::Duplicates { root, .. } => Some(root),
            _ => None,
        },
        PageView::Hash(page) => match page.value(i) {
            HashItem::OffPage { root } => Some(root),
            _ => None,
        },
        _ => None,
    }
}

/// How many pairs a page has.
pub(crate) fn pairs(page: &PageView<'_>) -> u16
    ensures { result ≡ pair_count (page_seen page.now) }
{
    match page {
        PageView::Leaf(page) => page.pairs(),
        PageView::Hash(page) => page.pairs(),
        _ => 0,
    }
}
