ghost use Rattle.std.specs.Prelude.{◌≡◌};
ghost use Rattle.std.specs.Iterator.{YieldsFirst, item_count};
ghost use Rattle.bdb_overflow.specs.of_image.Linked.{FitsLeafPage};
ghost use Rattle.bdb_overflow.specs.of_format.Terms.{file_of, next_of};
ghost use Rattle.bdb_tree.specs.Links.{IsLeafWalk, pages_from};

use bdb_overflow::{Forest, LeafPage, Ref};
use std::marker::Model;

/// The leaves of a tree from one on, by their next pages.
pub struct Leaves<'a> {
    forest: Forest<'a>,
    next: u32,
}

impl Drop for Leaves<'_> {
    #[inline(always)]
    fn drop(self) {
        let Leaves {
            forest: _forest,
            next: _next,
        } = self;
    }
}

impl<'a> Model for Leaves<'a> {
    ghost use Rattle.std.specs.Prelude.{List, ℕ};
    ghost use Rattle.bdb_overflow.specs.of_format.Terms.{file_of};
    ghost use Rattle.bdb_tree.specs.Links.{IsLeafWalk, pages_from};

    ghost Value = { List ℕ };

    ghost view = { λ it. pages_from (file_of it.forest) it.next };

    ghost invariant = { λ it. IsLeafWalk it.forest it.next };
}

impl<'a> Leaves<'a> {
    // The walk that begins at a leaf.
    pub(crate) fn over(forest: Forest<'a>, next: u32) -> Leaves<'a>
        requires { IsLeafWalk forest next }
        ensures { result ≡ pages_from (file_of forest.entry) next }
    {
        Leaves { forest, next }
    }
}

#[tactic(auto, using(crate::proofs::LinkLemmas::walk_steps))]
impl<'a> Iterator for Leaves<'a> {
    type Item = Ref<LeafPage>;

    ghost next_gives = { YieldsFirst (λ left. left) };

    ghost remaining = { item_count (λ left. left) };

    fn next(&mut self) -> Option<Ref<LeafPage>> {
        if self.next == 0 {
            return None;
        }
        let page = self.next;
        self.next = next_page(&self.forest, page);
        Some(Ref::at(page))
    }
}

/// The page that a leaf names as the next one, 0 for none.
#[tactic(auto, using(crate::proofs::TreeLemmas::leaf_inside, crate::proofs::TreeLemmas::leaf_is_tree, crate::proofs::ShapeLemmas::tree_header))]
fn next_page(forest: &Forest<'_>, page: u32) -> u32
    requires { FitsLeafPage (file_of forest.now) page }
    ensures { result ≡ next_of (file_of forest.now) page }
{
    forest.page(page).header().next
}
