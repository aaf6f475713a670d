ghost use Rattle.std.specs.Prelude.{ℕ, ◌≡◌, ◌<◌, IfOk, List, length};
ghost use Rattle.bdb_mkleaves.specs.LeafChildren.{AreSomeLinked, leaf_child, leaf_children};
ghost use Rattle.bdb_mkleaves.specs.LeafEntries.{Entry, HoldsEntriesOn};
ghost use Rattle.bdb_mkleaves.specs.Moved.{AreLinked, numbers_of};

use crate::leaves::Leaves;
use crate::levels::Child;
use bdb_pack::{Pages, u16_at};
use std::alloc::{AllocError, Global};

impl Leaves {
    // A leaf as a page of the lowest level.
    fn child_of(&self, pages: &Pages, leaf: u32, counted: bool) -> Child
        requires there { leaf < length pages.now.pages }
        ensures { (previous next : ℕ) (entries : List Entry) → HoldsEntriesOn self.now.leaf_type pages.now leaf previous next entries
            → result ≡ leaf_child self.now.leaf_type counted leaf entries }
    {
        let order = pages.order();
        let entries = u32::from(u16_at(pages.page(leaf), 20, order));
        let count = if counted {
            self.leaf_type.count(entries)
        } else {
            0
        };
        Child {
            page: leaf,
            count,
            leaf,
        }
    }

    /// The leaves as pages of the lowest level of their tree, in their order. An item over one says how many pairs or entries
    /// it has, where that is counted, and else 0.
    pub(crate) fn children(
        &self,
        alloc: Global,
        pages: &Pages,
        counted: bool,
    ) -> Result<Vec<Child>, AllocError>
        requires linked { AreSomeLinked self.now pages.now }
        ensures { IfOk result (λ children. (all : List (List Entry)) → AreLinked self.now pages.now all
            → children.items ≡ leaf_children self.now.leaf_type counted (numbers_of self.now) all) }
    {
        let mut children = Vec::new(alloc);
        for leaf in &self.closed {
            children.push(self.child_of(pages, *leaf, counted))?;
        }
        children.push(self.child_of(pages, self.last, counted))?;
        Ok(children)
    }
}
