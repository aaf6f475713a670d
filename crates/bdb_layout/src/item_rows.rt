ghost use Rattle.std.specs.Prelude.{◌≡◌};
ghost use Rattle.bdb_layout.specs.ItemRows.{item_fault};

use bdb_format::{FormRow, ItemFault};

/// What is wrong with an item for which this row holds.
pub(crate) fn item_fault(row: FormRow) -> ItemFault
    ensures { result ≡ item_fault row }
{
    match row {
        FormRow::ItemOffset => ItemFault::Offset,
        FormRow::ItemType => ItemFault::Kind,
        _ => ItemFault::Extent,
    }
}
