ghost use Rattle.std.specs.Prelude.{◌≡◌, Some};
ghost use Rattle.std.specs.List.{slice_get};
ghost use Rattle.bdb_overflow.specs.of_form.Seen.{page_seen};
ghost use Rattle.bdb_overflow.specs.of_image.Linked.{FitsDupRoot, FitsLeafPage, FitsTreeRoot, IsForest};
ghost use Rattle.bdb_overflow.specs.of_format.Terms.{children_in, file_of, leaves, page_at};
ghost use Rattle.bdb_tree.specs.Links.{HasItem, first_below};
ghost use Rattle.bdb_tree.specs.Trees.{IsTreePage};

use bdb_overflow::{DupRoot, Forest, LeafPage, Linked, PageView, Ref, TreeRoot};

/// The first leaf of the tree of metadata.
#[tactic(auto, using(crate::proofs::TreeLemmas::root_is_tree))]
pub fn first_leaf(linked: &Linked<'_>, r: Ref<TreeRoot>) -> Ref<LeafPage>
    requires { FitsTreeRoot (file_of linked.now) r }
    ensures first { slice_get (leaves (file_of linked.now) r) 0 ≡ Some result }
    ensures fits { FitsLeafPage (file_of linked.now) result }
{
    prove!(r.number() <= linked.head().last);
    leftmost(&linked.forest(), r.number())
}

/// The first leaf of a tree of duplicates.
#[tactic(auto, using(crate::proofs::TreeLemmas::root_is_tree))]
pub fn dup_first(linked: &Linked<'_>, r: Ref<DupRoot>) -> Ref<LeafPage>
    requires { FitsDupRoot (file_of linked.now) r }
    ensures first { slice_get (leaves (file_of linked.now) r) 0 ≡ Some result }
    ensures fits { FitsLeafPage (file_of linked.now) result }
{
    prove!(r.number() <= linked.head().last);
    leftmost(&linked.forest(), r.number())
}

/// The first leaf at or below a page of a tree.
pub fn leftmost(forest: &Forest<'_>, root: u32) -> Ref<LeafPage>
    requires { IsTreePage (file_of forest.now) root }
    ensures first { slice_get (leaves (file_of forest.now) root) 0 ≡ Some result }
    ensures fits { FitsLeafPage (file_of forest.now) result }
{
    let mut page = root;
    while let Some(child) = first_child(forest, page) {
        page = child;
    }
    Ref::at(page)
}

/// The first of the pages right below a page of a tree; a leaf has none.
#[tactic(auto, using(crate::proofs::TreeLemmas::tree_inside, crate::proofs::DownLemmas::has_item))]
fn first_child(forest: &Forest<'_>, page: u32) -> Option<u32>
    requires { IsTreePage (file_of forest.now) page }
    ensures child { result ≡ first_below (children_in (page_at (file_of forest.now) page)) }
    ensures forest { IsForest forest.now }
{
    first_item(&forest.page(page))
}

/// The page that the first item of an internal page names; another page names none so.
#[tactic(auto, using(crate::proofs::DownLemmas::first_of_items))]
fn first_item(page: &PageView<'_>) -> Option<u32>
    requires { HasItem (page_seen page.now) }
    ensures { result ≡ first_below (children_in (page_seen page.now)) }
{
    match page {
        PageView::Internal(page) => Some(page.item(0).child),
        PageView::RecnoInternal(page) => Some(page.item(0).child),
        _ => None,
    }
}
