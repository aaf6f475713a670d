ghost use Rattle.std.specs.Prelude.{◌≡◌, ◌⊎◌, ◌<◌, ℕ, [], IfOk, List, length};
ghost use Rattle.bdb_mkleaves.specs.Filled.{AreFilled, AreSomeFilled};
ghost use Rattle.bdb_mkleaves.specs.Finished.{HasFirstRoot};
ghost use Rattle.bdb_mkleaves.specs.Placed.{Placed};

use crate::leaves::Leaves;
use crate::placing::lay_levels_on;
use bdb_pack::Pages;
use std::alloc::{AllocError, Global};

impl Leaves {
    /// Lays the levels over the leaves so that the root stands where the first leaf stood, and answers it: of several leaves the first is
    /// moved behind all pages. Items over the leaves say how many pairs or entries these have, where that is counted, and else 0. An error
    /// means that memory ran out, that there would be more than 2^21 pages, or that a sum of counts doesn't fit its field.
    pub fn finish(
        mut self,
        alloc: Global,
        pages: &mut Pages,
        counted: bool,
    ) -> Result<u32, AllocError>
        requires { AreSomeFilled self pages.old }
        ensures { IfOk result (λ root. (before : ℕ) (closed : List (List Placed)) (units : List Placed) → AreFilled self pages.old before closed units
            → ((closed ≡ []) ⊎ (0 < length units)) → HasFirstRoot self pages.old pages.new counted closed units root) }
    {
        // That all pages are whole, also where nothing is laid over the only leaf, is known with their size.
        let _size = pages.size();
        if self.closed.is_empty() {
            return Ok(self.last);
        }
        let root = self.move_first(pages)?;
        let children = self.children(alloc, pages, counted)?;
        lay_levels_on(alloc, pages, self.leaf_type.inner(), children, root)?;
        Ok(root)
    }
}
