ghost use Rattle.std.specs.Prelude.{OnOk};
ghost use Rattle.bdb_btree.specs.of_faults.Notes.{Notes};
ghost use Rattle.bdb_format.specs.Terms.{fault_seen};
ghost use Rattle.std.specs.Option.{option_map, option_to_list};

use bdb_btree::FaultSink;
use bdb_format::Named;
use std::alloc::AllocError;

/// Notes a row at a page, if one holds.
#[tactic(auto, using(crate::proofs::Below::notes_nothing))]
pub(crate) fn note_given<F: FaultSink>(
    given: Option<Named>,
    found: &mut F,
) -> Result<(), AllocError>
    ensures { OnOk result (Notes (F.has_noted found.old) (F.has_noted found.new) (option_to_list (option_map fault_seen given))) }
{
    match given {
        Some(named) => found.note(named.row, named.page),
        None => Ok(()),
    }
}
