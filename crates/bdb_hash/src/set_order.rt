ghost use Rattle.std.specs.Prelude.{◌≡◌, [], IfOk};
ghost use Rattle.std.specs.Option.{option_map};
ghost use Rattle.bdb_ranks.specs.of_format.Terms.{Tree, ascends, data_of, file_of, structure_faults};
ghost use Rattle.bdb_ranks.specs.of_image.Linked.{FitsDupRoot};
ghost use Rattle.bdb_hash.specs.SetOrder.{follows};
ghost use Rattle.bdb_ranks.specs.of_overflow.Held.{FitsAny, FitsHeld, value_held};

use bdb_ranks::{Held, Values, is_deleted, leaf_held, tree_entries};
use std::alloc::AllocError;

/// Whether a value is above the last one, where there is one. An error means that memory ran out.
fn follows(
    known: &mut Values<'_>,
    last: Option<Held<'_>>,
    value: Held<'_>,
) -> Result<bool, AllocError>
    requires last { FitsAny (file_of known.old) last }
    requires value { FitsHeld (file_of known.old) value }
    ensures follows { IfOk result (λ is. is ≡ follows (option_map (value_held (file_of known.old)) last.entry) (value_held (file_of known.old) value.entry)) }
    ensures same { known.new ≡ known.old }
{
    match last {
        Some(last) => known.is_less(last, value),
        None => Ok(true),
    }
}

/// Whether the data of a set off the page ascend strictly. A chain isn't read to be compared with itself, and two that are shared
/// are compared by their ranks. An error means that memory ran out, for chains that are shared or begin with a blank page.
pub(crate) fn set_ascends(known: &mut Values<'_>, root: u32) -> Result<bool, AllocError>
    requires root { FitsDupRoot (file_of known.old) root }
    requires stage { structure_faults (file_of known.old) ≡ [] }
    ensures ascends { IfOk result (λ is. is ≡ ascends (data_of (file_of known.old) (Tree root))) }
    ensures same { known.new ≡ known.old }
{
    let mut last = None;
    for entry in tree_entries(&known.forest(), root) {
        if !is_deleted(&entry) {
            let value = leaf_held(&entry);
            if !follows(known, last, value)? {
                return Ok(false);
            }
            last = Some(value);
        }
    }
    Ok(true)
}
