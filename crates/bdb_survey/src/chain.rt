ghost use Rattle.std.specs.Prelude.{◌≡◌, ◌+◌, ◌/◌, ◌^◌, ◌≤◌, IsTrue, if◌then◌else◌, Some, None, length};
ghost use Rattle.bdb_law_sums.specs.of_format.Terms.{is_page_size, pieces_of};
ghost use Rattle.bdb_survey.specs.Salvage.{is_whole, salvaged_file};

use crate::Guess;
use crate::links::{RowKind, row_extent};
use crate::whole_pages::WholePages;
use bdb_law_sums::{Pieces, Steps};
use std::sync::ledger::Ledger;

/// The pieces of the chain with this head, whose data have this length in bytes; `None` exactly where it
/// isn't whole. It takes at most as many steps as the image has whole pages, and no memory.
pub fn chain_of<'a, L: Ledger>(
    image: &'a [u8],
    guess: Guess,
    head: u32,
    total: u32,
    steps: &mut Steps<L>,
) -> Option<Pieces<'a>>
    requires size { IsTrue (is_page_size guess.page_size) }
    requires small { length image.now ≤ 2 ^ 30 }
    ensures whole { result ≡ (if is_whole (salvaged_file guess.order guess.page_size image.now) head total
        then Some (pieces_of (salvaged_file guess.order guess.page_size image.now) head) else None) }
    ensures bound { steps.new ≤ steps.old + length image.now / guess.page_size }
{
    let pages = WholePages::over(image, guess);
    let extent = row_extent(&pages, RowKind::Overflow, head, steps)?;
    if extent.length != u64::from(total) {
        return None;
    }
    Some(pages.pieces(head))
}
