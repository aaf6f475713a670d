//! The bytes of a page that lie in no item, by the places where items begin.
ghost use Rattle.std.specs.Prelude.{◌≡◌, ◌<◌, ◌≤◌, ◌↔◌, ◌-◌, ℕ, IfSome, None, length, true};
ghost use Rattle.bdb_law_turned.specs.of_format.Terms.{entries_of, index_end, listed, listed_code, offset_of};
ghost use Rattle.bdb_stat.specs.Unused.{item_unused, places_outside};
ghost use Rattle.bdb_law_turned.specs.of_form.Ends.{ArePlaced};
ghost use Rattle.bdb_stat.specs.Starts.{AreStarts};

use crate::marks::Marks;
use bdb_law_turned::{EndKind, LaidKind, Order, index_end, offset_at, u16_at};

/// Marks the places where the items of a page begin, and no others. Items that begin at one place have one mark.
fn mark_starts(starts: &mut Marks, page: &[u8], order: Order)
    requires header { 26 ≤ length page.now }
    requires room { index_end order page.now ≤ length page.now }
    requires items { (i : ℕ) → i < entries_of order page.now → offset_of order page.now i < length page.now }
    requires size { length starts.old ≡ length page.now }
    ensures marked { AreStarts starts.new (entries_of order page.now) (offset_of order page.now) }
    ensures same { length starts.new ≡ length starts.old }
{
    starts.clear();
    for i in 0..u16_at(page, 20, order) {
        starts.mark(usize::from(offset_at(page, order, i)));
    }
}

/// How many bytes behind the index lie in no item: those before each item that are past the ends of all items before it, and
/// those past all ends. An item that begins within another is reached in its turn.
fn bytes_outside<K: EndKind>(starts: &Marks, page: &[u8], order: Order) -> usize
    requires header { 26 ≤ length page.now }
    requires room { index_end order page.now ≤ length page.now }
    requires items { ArePlaced order page.now K.least (K.end order page.now) }
    requires size { length starts.now ≡ length page.now }
    requires marked { AreStarts starts.now (entries_of order page.now) (offset_of order page.now) }
    ensures { result ≡ places_outside (index_end order page.now) (length page.now) (entries_of order page.now) (offset_of order page.now)
        (λ i. K.end order page.now (offset_of order page.now i)) }
{
    let mut from = index_end(page, order);
    let mut reached = from;
    let mut outside = 0;
    while let Some(at) = starts.next(from) {
        outside += at.saturating_sub(reached);
        reached = reached.max(K::end_at(page, order, at));
        from = at + 1;
    }
    outside + (page.len() - reached)
}

/// Whether an item is the one two entries before it once more, as the key of a pair is that has the key of the pair before.
fn is_shared(page: &[u8], order: Order, entry: u16) -> bool
    requires room { index_end order page.now ≤ length page.now }
    requires there { entry < entries_of order page.now }
    ensures { (result ≡ true) ↔ ((2 ≤ entry) × (offset_of order page.now entry ≡ offset_of order page.now (entry - 2))) }
{
    entry >= 2 && offset_at(page, order, entry) == offset_at(page, order, entry - 2)
}

/// How many bytes behind the index lie in no item, where the items lie one after another down from the page's end, as those of
/// a page that was filled in order do: the gaps between them. `None` where one lies otherwise.
fn bytes_between<K: EndKind>(page: &[u8], order: Order) -> Option<usize>
    requires header { 26 ≤ length page.now }
    requires room { index_end order page.now ≤ length page.now }
    requires items { ArePlaced order page.now K.least (K.end order page.now) }
    ensures { IfSome result (λ n. n ≡ places_outside (index_end order page.now) (length page.now) (entries_of order page.now) (offset_of order page.now)
        (λ i. K.end order page.now (offset_of order page.now i))) }
{
    let mut lowest = page.len();
    let mut outside = 0;
    for i in 0..u16_at(page, 20, order) {
        let at = usize::from(offset_at(page, order, i));
        let end = K::end_at(page, order, at);
        if end <= lowest {
            outside += lowest - end;
            lowest = at;
        } else if !is_shared(page, order, i) {
            return None;
        }
    }
    Some(outside + (lowest - index_end(page, order)))
}

/// How many bytes behind the index lie in no item. What was marked of another page is cleared.
fn bytes_in_none<K: EndKind>(starts: &mut Marks, page: &[u8], order: Order) -> usize
    requires header { 26 ≤ length page.now }
    requires room { index_end order page.now ≤ length page.now }
    requires items { ArePlaced order page.now K.least (K.end order page.now) }
    requires size { length starts.old ≡ length page.now }
    ensures unused { result ≡ places_outside (index_end order page.now) (length page.now) (entries_of order page.now) (offset_of order page.now)
        (λ i. K.end order page.now (offset_of order page.now i)) }
    ensures same { length starts.new ≡ length starts.old }
{
    if let Some(outside) = bytes_between::<K>(page, order) {
        return outside;
    }
    mark_starts(starts, page, order);
    bytes_outside::<K>(starts, page, order)
}

/// How many bytes of a page with an index lie in no item, nor in its header or its index.
pub(crate) fn unused_behind<K: LaidKind>(starts: &mut Marks, page: &[u8], order: Order) -> usize
    requires header { 26 ≤ length page.now }
    requires code { listed_code order page.now K.page_type ≡ None }
    requires size { length starts.old ≡ length page.now }
    ensures unused { result ≡ item_unused (length page.now) K.item_end K.no_item (listed order page.now (K.item_at order page.now)) }
    ensures same { length starts.new ≡ length starts.old }
{
    K::are_laid(page, order);
    bytes_in_none::<K>(starts, page, order)
}
