ghost use Rattle.std.specs.Prelude.{◌≡◌, ◌+◌, ◌<◌, ◌≤◌, IfOk, IsTrue, List, length, replicate};
ghost use Rattle.std.specs.List.{Contains, sum_by};
ghost use Rattle.bdb_mkleaves.specs.declared.levels.Child.{Child as Below};
ghost use Rattle.bdb_places.specs.of_format.Terms.{is_page_size};
ghost use Rattle.bdb_law_levels.specs.Nodes.{Node};
ghost use Rattle.bdb_pack.specs.Built.{AreWhole, bytes_of};
ghost use Rattle.bdb_mkleaves.specs.Finished.{HasTowerOn, IsRootPlaced};
ghost use Rattle.bdb_mkleaves.specs.Inner.{child_cost};
ghost use Rattle.bdb_mkleaves.specs.Levels.{AreChildren};

use crate::levels::Child;
use crate::moving::set_field;
use crate::tower::lay_levels;
use bdb_law_levels::InnerType;
use bdb_pack::Pages;
use std::alloc::{AllocError, Global};

// The sum of what children count. It is refused where it doesn't fit its field.
fn sum_of(children: &[Child]) -> Result<u32, AllocError>
    ensures { IfOk result (λ sum. sum ≡ sum_by (λ (child : Below). child.count) children.now) }
{
    let mut sum: u32 = 0;
    for child in children {
        sum = sum.checked_add(child.count).ok_or(AllocError)?;
    }
    Ok(sum)
}

/// Places the last page, the root of a tree, on another page, whose number it has there, with the sum of what the items of the
/// tree count.
fn place_root(pages: &mut Pages, first: u32, root: u32, sum: u32)
    requires legal { IsTrue (is_page_size pages.old.size) }
    requires whole { AreWhole pages.old }
    requires last { root + 1 ≡ length pages.old.pages }
    requires first { first < root }
    ensures { IsRootPlaced first root sum pages.old pages.new }
{
    pages.copy_over(root, first);
    set_field(pages, first, 8, first);
    set_field(pages, first, 12, sum);
    pages.drop_last();
}

/// Lays levels over the leaves of a tree, two at least, behind all pages, up to one with a single page, the root, which stands
/// on a page of zeros instead. It is also refused where there are 2^21 pages, where a sum of counts doesn't fit its field, and
/// where a level doesn't fit a byte.
pub(crate) fn lay_levels_on(
    alloc: Global,
    pages: &mut Pages,
    inner: InnerType,
    below: Vec<Child>,
    first: u32,
) -> Result<(), AllocError>
    requires legal { IsTrue (is_page_size pages.old.size) }
    requires whole { AreWhole pages.old }
    requires many { 2 ≤ length below.items }
    requires first { first < length pages.old.pages }
    requires blank { bytes_of pages.old first ≡ replicate pages.old.size 0 }
    requires children { (nodes : List Node) × AreChildren inner pages.old below.items nodes
        × ((node : Node) → Contains nodes node → child_cost inner node + 40 ≤ pages.old.size) }
    ensures { IfOk result (λ _. (nodes : List Node) → AreChildren inner pages.old below.items nodes
        → HasTowerOn inner pages.old pages.new nodes first) }
{
    let sum = sum_of(&below)?;
    let root = lay_levels(alloc, pages, inner, below)?;
    place_root(pages, first, root, sum);
    Ok(())
}
