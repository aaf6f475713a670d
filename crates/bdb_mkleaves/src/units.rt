ghost use Rattle.std.specs.Prelude.{◌≡◌, ◌≢◌, IfOk, IsTrue};
ghost use Rattle.bdb_places.specs.of_format.Terms.{is_page_size};
ghost use Rattle.bdb_mkleaves.specs.Filled.{AreSomeFilled, IsPushed};
ghost use Rattle.bdb_mkleaves.specs.Runs.{IsShort};
ghost use Rattle.bdb_mkleaves.specs.Units.{EntryUnit};
ghost use Rattle.bdb_mkleaves.specs.declared.leaf_type.LeafType.TheVariants.{Pairs};

use crate::costs::record_cost;
use crate::leaves::Leaves;
use bdb_pack::Pages;
use std::alloc::AllocError;

impl Leaves {
    /// Puts a record, or a datum of a set, after those that are there. A deleted one has no bytes. An error
    /// means that memory ran out, or that there would be more than 2^21 pages.
    pub fn push_entry(
        &mut self,
        pages: &mut Pages,
        value: &[u8],
        deleted: bool,
    ) -> Result<(), AllocError>
        requires leaf { self.old.leaf_type ≢ Pairs }
        requires short { IsShort value.now }
        requires legal { IsTrue (is_page_size pages.old.size) }
        requires filled { AreSomeFilled self.old pages.old }
        ensures pushed { IfOk result (λ _. IsPushed self.old self.new pages.old pages.new (EntryUnit value.now deleted)) }
        ensures filled { IfOk result (λ _. AreSomeFilled self.new pages.new) }
    {
        let cost = record_cost(pages.size(), value.len());
        self.make_room(pages, cost)?;
        self.put(pages, value, deleted)?;
        Ok(())
    }
}
