//! The bytes of a page that hold nothing.
ghost use Rattle.std.specs.Prelude.{◌≡◌, ◌<◌, ◌≤◌, None, length};
ghost use Rattle.bdb_law_turned.specs.of_format.Terms.{body_code, file_of, head_of, page_as, page_at};
ghost use Rattle.bdb_law_turned.specs.of_image.Linked.{IsForest};
ghost use Rattle.bdb_stat.specs.Unused.{unused_in};

use crate::hash::unused_before_items;
use crate::marks::Marks;
use crate::starts::unused_behind;
use bdb_law_turned::{
    EntryLeafKind, Head, InternalKind, LeafKind, Order, PageType, RecnoInternalKind, Records,
    SortedData, is_zero, page_bytes, page_type, u16_at,
};

/// How many bytes of a page of a type that isn't zero hold nothing.
#[tactic(auto, using(crate::proofs::TypedLemmas::chain_unused, crate::proofs::TypedLemmas::nothing_unused), unfolding(crate::specs::Unused::unused_in))]
fn typed_unused(starts: &mut Marks, page: &[u8], order: Order, page_type: PageType) -> usize
    requires long { 512 ≤ length page.now }
    requires code { body_code order page.now page_type ≡ None }
    requires size { length starts.old ≡ length page.now }
    ensures unused { result ≡ unused_in (length page.now) (page_as order page.now page_type) }
    ensures same { length starts.new ≡ length starts.old }
{
    match page_type {
        PageType::Hash => unused_before_items(page, order),
        PageType::Internal => unused_behind::<InternalKind>(starts, page, order),
        PageType::RecnoInternal => unused_behind::<RecnoInternalKind>(starts, page, order),
        PageType::Leaf => unused_behind::<LeafKind>(starts, page, order),
        PageType::RecnoLeaf => unused_behind::<EntryLeafKind<Records>>(starts, page, order),
        PageType::DupLeaf => unused_behind::<EntryLeafKind<SortedData>>(starts, page, order),
        PageType::Overflow => page.len() - 26 - usize::from(u16_at(page, 22, order)),
        _ => 0,
    }
}

/// How many bytes of a page hold nothing; none of a page above the last one. `starts` is room for a mark of each byte of a
/// page.
pub(crate) fn unused_on(starts: &mut Marks, image: &[u8], head: &Head, number: u32) -> usize
    requires forest { IsForest image.now }
    requires head { head.now ≡ head_of image.now }
    requires size { length starts.old ≡ head.now.page_size }
    ensures unused { result ≡ unused_in (file_of image.now).size (page_at (file_of image.now) number) }
    ensures same { length starts.new ≡ length starts.old }
{
    if number > head.last {
        return 0;
    }
    let page = page_bytes(image, head, number);
    if is_zero(page) {
        return 0;
    }
    typed_unused(starts, page, head.order, page_type(page))
}
