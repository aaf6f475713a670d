ghost use Rattle.std.specs.Prelude.{◌≡◌, IsTrue};
ghost use Rattle.bdb_tree.specs.of_image.Linked.{FitsTreeRoot, HasMetadata, IsForest};
ghost use Rattle.bdb_tree.specs.of_format.Terms.{BtreeFields, RecnoLeaf, file_of, is_recno, page_at};
ghost use Rattle.bdb_recno.specs.Pages.{IsRecnoLeaf, IsRecnoPage};
ghost use Rattle.bdb_recno.specs.Seen.{recno_page_seen};

use bdb_tree::{BtreeMeta, Forest, Linked, PageView, RecnoInternalView, RecnoLeafView};

/// The pages of a file, in which the root of this recno is one of records.
pub(crate) fn pages_of<'a>(linked: &Linked<'a>, meta: &BtreeMeta) -> Forest<'a>
    requires meta { HasMetadata (file_of linked.now) (BtreeFields meta.now) }
    requires recno { IsTrue (is_recno meta.now) }
    ensures pages { result ≡ linked.now }
    ensures forest { IsForest linked.now }
    ensures root { FitsTreeRoot (file_of linked.now) meta.now.root }
    ensures recno { IsRecnoPage (file_of linked.now) meta.now.root }
{
    // What it ensures: its root is that of a tree, in a file that linking accepts.
    linked.root(meta);
    linked.forest()
}

/// A page of a tree of records.
#[derive(Drop)]
pub(crate) enum RecnoPage<'a> {
    Internal(RecnoInternalView<'a>),
    Leaf(RecnoLeafView<'a>),
}

/// A page of a tree of records, by what it is.
#[tactic(auto, using(crate::proofs::PageLemmas::recno_inside))]
pub(crate) fn recno_page<'a>(forest: &Forest<'a>, page: u32) -> RecnoPage<'a>
    requires forest { IsForest forest.now }
    requires page { IsRecnoPage (file_of forest.now) page }
    ensures { recno_page_seen result ≡ page_at (file_of forest.now) page }
{
    match forest.page(page) {
        PageView::RecnoInternal(view) => RecnoPage::Internal(view),
        PageView::RecnoLeaf(view) => RecnoPage::Leaf(view),
        _ => unreachable!(),
    }
}

/// A leaf of records.
#[tactic(auto, using(crate::proofs::PageLemmas::leaf_recno, crate::proofs::PageLemmas::leaf_no_internal))]
pub(crate) fn leaf_at<'a>(forest: &Forest<'a>, page: u32) -> RecnoLeafView<'a>
    requires forest { IsForest forest.now }
    requires leaf { IsRecnoLeaf (file_of forest.now) page }
    ensures { page_at (file_of forest.now) page ≡ RecnoLeaf result }
{
    match recno_page(forest, page) {
        RecnoPage::Leaf(view) => view,
        RecnoPage::Internal(_) => unreachable!(),
    }
}
