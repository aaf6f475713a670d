ghost use Rattle.std.specs.Prelude.{◌+◌, ◌≤◌, ◌<◌, IfOk, IsTrue, List, length};
ghost use Rattle.std.specs.List.{Contains};
ghost use Rattle.bdb_places.specs.of_format.Terms.{is_page_size};
ghost use Rattle.bdb_law_levels.specs.Nodes.{Node};
ghost use Rattle.bdb_pack.specs.Built.{AreWhole};
ghost use Rattle.bdb_mkleaves.specs.Inner.{child_cost};
ghost use Rattle.bdb_mkleaves.specs.Levels.{AreChildren};
ghost use Rattle.bdb_mkleaves.specs.Tower.{HasTower};

use crate::levels::{Child, lay_level};
use bdb_law_levels::InnerType;
use bdb_pack::Pages;
use std::alloc::{AllocError, Global};

/// Lays levels over the leaves of a tree, one at least, behind all pages, up to one with a single page, and answers the
/// number of that, the root. One leaf is the root itself. It is also refused where there are 2^21 pages, where a sum of
/// counts doesn't fit its field, and where a level doesn't fit a byte.
pub(crate) fn lay_levels(
    alloc: Global,
    pages: &mut Pages,
    inner: InnerType,
    below: Vec<Child>,
) -> Result<u32, AllocError>
    requires legal { IsTrue (is_page_size pages.old.size) }
    requires whole { AreWhole pages.old }
    requires some { 0 < length below.items }
    requires children { (nodes : List Node) × AreChildren inner pages.old below.items nodes
        × ((node : Node) → Contains nodes node → child_cost inner node + 40 ≤ pages.old.size) }
    ensures { IfOk result (λ root. (nodes : List Node) → AreChildren inner pages.old below.items nodes
        → HasTower inner pages.old pages.new nodes root) }
{
    let mut level: u8 = 1;
    let mut row = below;
    while row.len() > 1 {
        level = level.checked_add(1).ok_or(AllocError)?;
        row = lay_level(alloc, pages, inner, level, &row)?;
    }
    Ok(row[0].page)
}
