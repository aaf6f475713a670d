ghost use Rattle.std.specs.Prelude.{◌≡◌, ◌<◌, ◌≤◌, ◌==◌, ℕ, None, get_or, length, set};
ghost use Rattle.bdb_io.specs.of_format.Terms.{entries_of, index_end, listed, listed_code, offset_of};
ghost use Rattle.bdb_law_turned.specs.Overlaps.{listed_overlap};
ghost use Rattle.bdb_law_turned.specs.of_form.Ends.{ArePlaced};
ghost use Rattle.bdb_swap.specs.Crossing.{AreEnds, AreNoted};

use crate::crossing::{Noted, crosses};
use bdb_io::Order;
use bdb_law_turned::{EndKind, LaidKind, offset_at, u16_at};

/// Notes the end of a range at the place where it begins, and tells whether none was noted there.
fn note_end(ends: &mut [u16], at: usize, end: usize) -> bool
    requires inside { at < length ends.old }
    requires low { end < 65536 }
    ensures first { result ≡ (get_or ends.old at 0 == 0) }
    ensures noted { ends.new ≡ set ends.old at end }
{
    let first = ends[at] == 0;
    ends[at] = end as u16;
    first
}

/// Notes where the items of a page end.
fn note_ends<K: EndKind>(ends: &mut [u16], page: &[u8], order: Order) -> Noted
    requires header { 26 ≤ length page.now }
    requires room { index_end order page.now ≤ length page.now }
    requires items { ArePlaced order page.now K.least (K.end order page.now) }
    requires low { length page.now < 65536 }
    requires size { length ends.old ≡ length page.now }
    requires clear { (k : ℕ) → k < length ends.old → get_or ends.old k 0 ≡ 0 }
    ensures ends { AreEnds ends.new (entries_of order page.now) (offset_of order page.now) (λ i. K.end order page.now (offset_of order page.now i)) }
    ensures same { length ends.new ≡ length ends.old }
    ensures noted { AreNoted ends.new result.first result.places }
{
    let mut noted = Noted {
        first: ends.len(),
        places: 0,
    };
    for i in 0..u16_at(page, 20, order) {
        let at = usize::from(offset_at(page, order, i));
        if note_end(ends, at, K::end_at(page, order, at)) {
            noted.places += 1;
        }
        noted.first = noted.first.min(at);
    }
    noted
}

/// Whether some two items of a page that begin at different places share a byte. What was noted of another page is cleared.
pub(crate) fn items_overlap<K: LaidKind>(ends: &mut [u16], page: &[u8], order: Order) -> bool
    requires header { 26 ≤ length page.now }
    requires code { listed_code order page.now K.page_type ≡ None }
    requires low { length page.now < 65536 }
    requires size { length ends.old ≡ length page.now }
    ensures found { result ≡ listed_overlap K.item_end K.no_item (listed order page.now (K.item_at order page.now)) }
    ensures same { length ends.new ≡ length ends.old }
{
    K::are_laid(page, order);
    ends.fill(0);
    let noted = note_ends::<K>(ends, page, order);
    crosses(ends, &noted)
}
