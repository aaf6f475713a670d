//! Items of hash pages in both orders: the bytes of the page, how much is free, and what the views read.
//! Values: docs/FORMAT.md, "Hash items".

ghost use Rattle.std.specs.Prelude.{◌≡◌};
ghost use Rattle.bdb_form.specs.of_layout.Seen.{HasOrder};

use crate::Sheet;
use crate::spelled::{FILLING, Spelled, header};
use bdb_form::{DupBlocks, HashItem, Order, PageView, form};
use std::test::Fail;

// The blocks `x` and `yz`.
const LITTLE_RUN: [u8; 11] = [1, 0, 0x78, 1, 0, 2, 0, 0x79, 0x7a, 2, 0];

const BIG_RUN: [u8; 11] = [0, 1, 0x78, 0, 1, 0, 2, 0x79, 0x7a, 0, 2];

const CHAIN: HashItem<'static> = HashItem::Overflow {
    head: 3,
    total: 0x0102,
};

// The pairs `k1` with a set, and a chain with a set off the page.
const PAIRS: [Spelled; 2] = [
    Spelled {
        order: Order::Little,
        front: &[
            0, 0, 0, 0, 1, 0, 0, 0, // LSN
            1, 0, 0, 0, // page number
            2, 1, 0, 0, // previous page
            6, 5, 4, 3, // next page
            4, 0, // entries
            0xdd, 1, // high free offset: 477
            0, 13, // level, page type
            0xfd, 1, 0xf1, 1, 0xe5, 1, 0xdd, 1, // 509, 497, 485, 477
        ],
        back: &[
            4, 0, 0, 0, 6, 0, 0, 0, // a set off the page
            3, 0, 0, 0, 3, 0, 0, 0, 2, 1, 0, 0, // a chain
            2, 1, 0, 0x78, 1, 0, 2, 0, 0x79, 0x7a, 2, 0, // a set of x and yz
            1, 0x6b, 0x31, // k1
        ],
    },
    Spelled {
        order: Order::Big,
        front: &[
            0, 0, 0, 0, 0, 0, 0, 1, // LSN
            0, 0, 0, 1, // page number
            0, 0, 1, 2, // previous page
            3, 4, 5, 6, // next page
            0, 4, // entries
            1, 0xdd, // high free offset: 477
            0, 13, // level, page type
            1, 0xfd, 1, 0xf1, 1, 0xe5, 1, 0xdd, // 509, 497, 485, 477
        ],
        back: &[
            4, 0, 0, 0, 0, 0, 0, 6, // a set off the page
            3, 0, 0, 0, 0, 0, 0, 3, 0, 0, 1, 2, // a chain
            2, 0, 1, 0x78, 0, 1, 0, 2, 0x79, 0x7a, 0, 2, // a set of x and yz
            1, 0x6b, 0x31, // k1
        ],
    },
];

// Whether a page takes an item, and has so many bytes free after it.
fn takes(sheet: &mut Sheet, item: &HashItem<'_>, room: u32) -> bool
    requires { HasOrder sheet.old.order item.now }
    ensures { sheet.new.order ≡ sheet.old.order }
{
    sheet.add_hash(item) && sheet.room() == room
}

// Whether a page takes the set of these blocks, and has so many bytes free after it.
fn takes_set(sheet: &mut Sheet, order: Order, run: &[u8], room: u32) -> bool
    requires { sheet.old.order ≡ order }
    ensures { sheet.new.order ≡ order }
{
    match DupBlocks::over(run, order) {
        Some(set) => takes(sheet, &HashItem::Set(set), room),
        None => false,
    }
}

fn is_inline(item: &HashItem<'_>, bytes: &[u8]) -> bool {
    match item {
        HashItem::Inline(found) => *found == bytes,
        HashItem::Set(_) | HashItem::Overflow { .. } | HashItem::OffPage { .. } => false,
    }
}

fn is_set(item: &HashItem<'_>, run: &[u8]) -> bool {
    match item {
        HashItem::Set(set) => set.bytes() == run,
        HashItem::Inline(_) | HashItem::Overflow { .. } | HashItem::OffPage { .. } => false,
    }
}

fn is_off_page(key: &HashItem<'_>, value: &HashItem<'_>) -> bool {
    match (key, value) {
        (HashItem::Overflow { head, total }, HashItem::OffPage { root }) => {
            *head == 3 && *total == 0x0102 && *root == 6
        }
        _ => false,
    }
}

// Whether a page reads as the two pairs, and a third of no bytes and of 437.
fn reads_back(sheet: &Sheet, order: Order, run: &[u8]) -> bool {
    match form(sheet.page(), 1, order) {
        Ok(PageView::Hash(page)) => page.pairs() == 3
            && is_inline(&page.key(0), b"k1")
            && is_set(&page.value(0), run)
            && is_off_page(&page.key(1), &page.value(1))
            && is_inline(&page.key(2), b"")
            && is_inline(&page.value(2), &FILLING[..437]),
        _ => false,
    }
}

// Whether a page takes a key with its set, and a chain with the root of a set. A set is no key, and a run in the other order is none in this one.
fn takes_pairs(sheet: &mut Sheet, order: Order, run: &[u8], other: &[u8]) -> bool
    requires { sheet.old.order ≡ order }
    ensures { sheet.new.order ≡ order }
{
    !takes_set(sheet, order, run, 486)
        && takes(sheet, &HashItem::Inline(b"k1"), 481)
        && !takes_set(sheet, order, other, 467)
        && takes_set(sheet, order, run, 467)
        && takes(sheet, &CHAIN, 453)
        && takes(sheet, &HashItem::OffPage { root: 6 }, 443)
}

// Whether a page takes two items more, which fill it, and no byte more.
fn takes_filling(sheet: &mut Sheet) -> bool {
    takes(sheet, &HashItem::Inline(b""), 440)
        && !takes(sheet, &HashItem::Inline(&FILLING[..438]), 440)
        && takes(sheet, &HashItem::Inline(&FILLING[..437]), 0)
}

fn runs_of(order: Order) -> (&'static [u8], &'static [u8]) {
    match order {
        Order::Little => (&LITTLE_RUN, &BIG_RUN),
        Order::Big => (&BIG_RUN, &LITTLE_RUN),
    }
}

fn fills(sheet: &mut Sheet, spelled: &Spelled, page_type: u8) -> bool
    requires { sheet.old.order ≡ spelled.now.order }
{
    let (run, other) = runs_of(spelled.order);
    takes_pairs(sheet, spelled.order, run, other)
        && spelled.is(sheet.page()) == (page_type == 13)
        && takes_filling(sheet)
        && reads_back(sheet, spelled.order, run)
}

#[test]
fn fills_hash_pages(rt: HostRuntime) -> Result<(), Fail> {
    for (spelled, page_type) in [(&PAIRS[0], 13), (&PAIRS[1], 13), (&PAIRS[1], 2)] {
        let mut sheet = Sheet::new(rt.alloc(), 512, spelled.order, &header(page_type, 0))?;
        assert!(rt; fills(&mut sheet, spelled, page_type));
    }
    Ok(())
}
