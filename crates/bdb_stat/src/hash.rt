ghost use Rattle.std.specs.Prelude.{◌≡◌, ◌≤◌, None, length};
ghost use Rattle.bdb_law_turned.specs.of_format.Terms.{entries_of, hash_item_at, index_end, listed, listed_code, offset_of};
ghost use Rattle.bdb_law_turned.specs.of_format.declared.pages.PageType.TheVariants.{Hash as HashPage};
ghost use Rattle.bdb_stat.specs.Unused.{hash_unused};
ghost use Rattle.bdb_stat.specs.Ends.{lowest};

use bdb_law_turned::{Order, index_end, offset_at, u16_at};

/// Where the last item of a page begins, or else the page's end.
#[tactic(auto, using(crate::proofs::ItemLemmas::no_lowest, crate::proofs::ItemLemmas::last_lowest))]
fn lowest(page: &[u8], order: Order) -> usize
    requires header { 26 ≤ length page.now }
    requires room { index_end order page.now ≤ length page.now }
    ensures { result ≡ lowest (length page.now) (offset_of order page.now) (entries_of order page.now) }
{
    let entries = u16_at(page, 20, order);
    if entries == 0 {
        return page.len();
    }
    usize::from(offset_at(page, order, entries - 1))
}

/// How many bytes of a hash page lie in no item, nor in its header or its index: those before the last item, since items lie
/// one after another down from the page's end.
#[tactic(auto, using(crate::proofs::ItemLemmas::hash_index, crate::proofs::ItemLemmas::lowest_behind, crate::proofs::ItemLemmas::hash_outside))]
pub(crate) fn unused_before_items(page: &[u8], order: Order) -> usize
    requires header { 26 ≤ length page.now }
    requires code { listed_code order page.now HashPage ≡ None }
    ensures { result ≡ hash_unused (length page.now) (listed order page.now (hash_item_at order page.now)) }
{
    lowest(page, order) - index_end(page, order)
}
