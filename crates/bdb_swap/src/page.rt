ghost use Rattle.std.specs.Prelude.{◌≡◌, ◌≤◌, None, false, true, length};
ghost use Rattle.bdb_io.specs.of_format.Terms.{abstract_page, body_code, form_code, is_page_size, is_zero, page_as};
ghost use Rattle.bdb_law_turned.specs.Fields.{fields_of};
ghost use Rattle.bdb_law_turned.specs.Overlaps.{overlaps};
ghost use Rattle.bdb_law_turned.specs.Turning.{turned_page};
ghost use Rattle.bdb_swap.specs.Turns.{Turns};

use crate::header::turn_header;
use crate::listed::turn_listed;
use crate::metadata::{turn_hash_meta, turn_meta};
use crate::number::turn_fours;
use bdb_io::{Head, Order, PageType};
use bdb_law_turned::{
    EntryLeafKind, HashKind, InternalKind, LeafKind, RecnoInternalKind, Records, SortedData,
    is_zero, page_type,
};

/// Turns a page of a type round.
#[tactic(auto, using(crate::proofs::WriteLemmas::turns_none), unfolding(bdb_law_turned::specs::Fields::fields_of))]
fn turn_typed(page: &mut [u8], source: &[u8], order: Order, page_type: PageType)
    requires size { 512 ≤ length source.now }
    requires code { body_code order source.now page_type ≡ None }
    requires same { length page.old ≡ length source.now }
    ensures { Turns source.now (fields_of (page_as order source.now page_type)) page.old page.new }
{
    match page_type {
        PageType::Free => turn_header(page, source),
        PageType::Hash => turn_listed::<HashKind>(page, source, order),
        PageType::Internal => turn_listed::<InternalKind>(page, source, order),
        PageType::RecnoInternal => turn_listed::<RecnoInternalKind>(page, source, order),
        PageType::Leaf => turn_listed::<LeafKind>(page, source, order),
        PageType::RecnoLeaf => turn_listed::<EntryLeafKind<Records>>(page, source, order),
        PageType::DupLeaf => turn_listed::<EntryLeafKind<SortedData>>(page, source, order),
        PageType::Overflow => turn_header(page, source),
        PageType::HashMeta => turn_hash_meta(page, source),
        PageType::BtreeMeta => turn_meta(page, source, 76, 4),
        PageType::QueueMeta => turn_meta(page, source, 72, 6),
        PageType::Queue => turn_fours(page, source, 0, 3),
        PageType::Other => {}
    }
}

/// Turns the copy of a page round. No row of form holds for the page, where it isn't zero, and no two of its items overlap.
pub(crate) fn turn_page(page: &mut [u8], source: &[u8], head: &Head, number: u32)
    requires size { is_page_size (length source.now) ≡ true }
    requires form { is_zero source.now ≡ false → form_code head.now number source.now ≡ None }
    requires apart { overlaps (abstract_page head.now.order source.now) ≡ false }
    requires copied { page.old ≡ source.now }
    ensures { page.new ≡ turned_page head.now.order source.now }
{
    if !is_zero(source) {
        turn_typed(page, source, head.order, page_type(source));
    }
}
