ghost use Rattle.std.specs.Prelude.{◌≡◌, IfSome, None};
ghost use Rattle.bdb_ranks.specs.of_format.Terms.{Internal, file_of, page_at};
ghost use Rattle.bdb_ranks.specs.of_image.Linked.{FitsLeafPage, IsForest};
ghost use Rattle.bdb_btree.specs.Counts.{IsKeyed};

use bdb_ranks::{Forest, InternalView, PageView};

/// A page of a tree of pairs, if it's an internal page; the others are its leaves.
#[tactic(auto, using(crate::proofs::ItemLemmas::keyed_inside))]
pub(crate) fn inner_view<'a>(forest: &Forest<'a>, page: u32) -> Option<InternalView<'a>>
    requires { IsKeyed (file_of forest.now) page }
    ensures inner { IfSome result (λ view. page_at (file_of forest.now) page ≡ Internal view) }
    ensures leaf { result ≡ None → FitsLeafPage (file_of forest.now) page }
    ensures forest { IsForest forest.now }
{
    match forest.page(page) {
        PageView::Internal(view) => Some(view),
        _ => None,
    }
}
