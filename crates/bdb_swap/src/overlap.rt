ghost use Rattle.std.specs.Prelude.{◌≡◌, ◌<◌, ◌≤◌, None, false, true, length};
ghost use Rattle.bdb_io.specs.of_format.Terms.{abstract_page, body_code, form_code, is_page_size, is_zero, page_as};
ghost use Rattle.bdb_law_turned.specs.Overlaps.{overlaps};

use crate::ranged::items_overlap;
use bdb_io::{Head, Order, PageType};
use bdb_law_turned::{
    EntryLeafKind, InternalKind, LeafKind, RecnoInternalKind, Records, SortedData, is_zero,
    page_type,
};

/// Whether some two items of a page of a type share a byte. Those of a hash page can't.
#[tactic(auto, using(crate::proofs::TypedLemmas::none_overlap), unfolding(bdb_law_turned::specs::Overlaps::overlaps))]
fn typed_overlaps(ends: &mut [u16], page: &[u8], order: Order, page_type: PageType) -> bool
    requires long { 512 ≤ length page.now }
    requires low { length page.now < 65536 }
    requires code { body_code order page.now page_type ≡ None }
    requires size { length ends.old ≡ length page.now }
    ensures found { result ≡ overlaps (page_as order page.now page_type) }
    ensures same { length ends.new ≡ length ends.old }
{
    match page_type {
        PageType::Internal => items_overlap::<InternalKind>(ends, page, order),
        PageType::RecnoInternal => items_overlap::<RecnoInternalKind>(ends, page, order),
        PageType::Leaf => items_overlap::<LeafKind>(ends, page, order),
        PageType::RecnoLeaf => items_overlap::<EntryLeafKind<Records>>(ends, page, order),
        PageType::DupLeaf => items_overlap::<EntryLeafKind<SortedData>>(ends, page, order),
        _ => false,
    }
}

/// Whether some two items of a page share a byte. The ends have a place for each byte of the page.
pub(crate) fn page_overlaps(ends: &mut [u16], page: &[u8], head: &Head, number: u32) -> bool
    requires legal { is_page_size (length page.now) ≡ true }
    requires form { is_zero page.now ≡ false → form_code head.now number page.now ≡ None }
    requires size { length ends.old ≡ length page.now }
    ensures found { result ≡ overlaps (abstract_page head.now.order page.now) }
    ensures same { length ends.new ≡ length ends.old }
{
    if is_zero(page) {
        return false;
    }
    typed_overlaps(ends, page, head.order, page_type(page))
}
