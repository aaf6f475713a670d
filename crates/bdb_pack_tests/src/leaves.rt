//! Items of leaves in both orders: the bytes of the page, how much is free, and what the views read.
//! Values: docs/FORMAT.md, "The header", "Leaf items" and "What the writing calls spell".

use crate::Sheet;
use crate::spelled::{FILLING, Spelled, header};
use bdb_form::{LeafItem, Order, PageView, form};
use std::alloc::{AllocError, Global};
use std::test::Fail;

const fn inline(bytes: &[u8]) -> LeafItem<'_> {
    LeafItem::Inline {
        bytes,
        deleted: false,
    }
}

const CHAIN: LeafItem<'static> = LeafItem::Overflow {
    head: 0x0708,
    total: 0x01020304,
    deleted: false,
};

const SET: LeafItem<'static> = LeafItem::Duplicates {
    root: 9,
    deleted: false,
};

const DELETED: LeafItem<'static> = LeafItem::Inline {
    bytes: b"bcd",
    deleted: true,
};

// Whether a page takes these items of a leaf, and has so many bytes free after each.
fn takes_leaves(sheet: &mut Sheet, rows: &[(LeafItem<'_>, u32)]) -> bool {
    for (item, room) in rows {
        if !sheet.add_leaf(item) || sheet.room() != *room {
            return false;
        }
    }
    true
}

// A leaf with the pairs `a`, `bcd`, deleted; `a`, shared, and a chain; no bytes and a set off the page.
const PAIRS: [Spelled; 2] = [
    Spelled {
        order: Order::Little,
        front: &[
            0, 0, 0, 0, 1, 0, 0, 0, // LSN
            1, 0, 0, 0, // page number
            2, 1, 0, 0, // previous page
            6, 5, 4, 3, // next page
            6, 0, // entries
            0xd8, 1, // high free offset: 472
            1, 5, // level, page type
            0xfc, 1, 0xf4, 1, 0xfc, 1, 0xe8, 1, 0xe4, 1, 0xd8, 1, // 508, 500, 508, 488, 484, 472
        ],
        back: &[
            0, 0, 2, 0, 9, 0, 0, 0, 0, 0, 0, 0, // a set off the page
            0, 0, 1, 0, // no bytes
            0, 0, 3, 0, 8, 7, 0, 0, 4, 3, 2, 1, // a chain
            3, 0, 0x81, 0x62, 0x63, 0x64, 0, 0, // bcd, deleted
            1, 0, 1, 0x61, // a
        ],
    },
    Spelled {
        order: Order::Big,
        front: &[
            0, 0, 0, 0, 0, 0, 0, 1, // LSN
            0, 0, 0, 1, // page number
            0, 0, 1, 2, // previous page
            3, 4, 5, 6, // next page
            0, 6, // entries
            1, 0xd8, // high free offset: 472
            1, 5, // level, page type
            1, 0xfc, 1, 0xf4, 1, 0xfc, 1, 0xe8, 1, 0xe4, 1, 0xd8, // 508, 500, 508, 488, 484, 472
        ],
        back: &[
            0, 0, 2, 0, 0, 0, 0, 9, 0, 0, 0, 0, // a set off the page
            0, 0, 1, 0, // no bytes
            0, 0, 3, 0, 0, 0, 7, 8, 1, 2, 3, 4, // a chain
            0, 3, 0x81, 0x62, 0x63, 0x64, 0, 0, // bcd, deleted
            0, 1, 1, 0x61, // a
        ],
    },
];

// Whether a leaf reads as these pairs: key, data, and whether the key is that of the pair before.
fn reads_pairs(sheet: &Sheet, order: Order, pairs: &[(LeafItem<'_>, LeafItem<'_>, bool)]) -> bool {
    match form(sheet.page(), 1, order) {
        Ok(PageView::Leaf(leaf)) => {
            for i in 0..leaf.pairs() {
                match pairs.get(usize::from(i)) {
                    Some((key, value, shares))
                        if leaf.key(i) == *key
                            && leaf.value(i) == *value
                            && leaf.shares(i) == *shares => {}
                    _ => return false,
                }
            }
            usize::from(leaf.pairs()) == pairs.len()
        }
        _ => false,
    }
}

// Whether a page takes a key with two data and one with a set. A set is no key, and there is none to share before the first.
fn takes_pairs(sheet: &mut Sheet) -> bool {
    !sheet.add_leaf(&SET)
        && !sheet.share()
        && takes_leaves(sheet, &[(inline(b"a"), 480), (DELETED, 470)])
        && sheet.share()
        && takes_leaves(sheet, &[(CHAIN, 454), (inline(b""), 448), (SET, 434)])
}

// Whether a page takes two items more, which leave two bytes, and not one with a byte too many.
fn takes_one_pair_more(sheet: &mut Sheet) -> bool {
    !sheet.add_leaf(&inline(&FILLING[..430]))
        && takes_leaves(sheet, &[(inline(&FILLING[..421]), 8), (inline(b""), 2)])
}

// Whether a leaf reads as all these pairs.
fn reads_all(sheet: &Sheet, order: Order) -> bool {
    let pairs = [
        (inline(b"a"), DELETED, false),
        (inline(b"a"), CHAIN, true),
        (inline(b""), SET, false),
        (inline(&FILLING[..421]), inline(b""), false),
    ];
    reads_pairs(sheet, order, &pairs)
}

// Whether the two bytes that are left take no item, but a shared key.
fn takes_a_shared_key(sheet: &mut Sheet) -> bool {
    !sheet.add_leaf(&inline(b"")) && sheet.share() && sheet.room() == 0
}

fn fills(alloc: Global, spelled: &Spelled) -> Result<bool, AllocError> {
    let mut sheet = Sheet::new(alloc, 512, spelled.order, &header(5, 1))?;
    Ok(
        takes_pairs(&mut sheet)
            && spelled.is(sheet.page())
            && takes_one_pair_more(&mut sheet)
            && reads_all(&sheet, spelled.order)
            && takes_a_shared_key(&mut sheet),
    )
}

#[test]
fn fills_leaves_of_pairs(rt: HostRuntime) -> Result<(), Fail> {
    for spelled in &PAIRS {
        assert!(rt; fills(rt.alloc(), spelled)?);
    }
    Ok(())
}

// A leaf with an item of two bytes and a chain.
const ITEMS: [Spelled; 2] = [
    Spelled {
        order: Order::Little,
        front: &[
            0, 0, 0, 0, 1, 0, 0, 0, // LSN
            1, 0, 0, 0, // page number
            2, 1, 0, 0, // previous page
            6, 5, 4, 3, // next page
            2, 0, // entries
            0xec, 1, // high free offset: 492
            1, 12, // level, page type
            0xf8, 1, 0xec, 1, // 504, 492
        ],
        back: &[
            0, 0, 3, 0, 8, 7, 0, 0, 4, 3, 2, 1, // a chain
            2, 0, 1, 0x78, 0x79, 0, 0, 0, // xy
        ],
    },
    Spelled {
        order: Order::Big,
        front: &[
            0, 0, 0, 0, 0, 0, 0, 1, // LSN
            0, 0, 0, 1, // page number
            0, 0, 1, 2, // previous page
            3, 4, 5, 6, // next page
            0, 2, // entries
            1, 0xec, // high free offset: 492
            1, 12, // level, page type
            1, 0xf8, 1, 0xec, // 504, 492
        ],
        back: &[
            0, 0, 3, 0, 0, 0, 7, 8, 1, 2, 3, 4, // a chain
            0, 2, 1, 0x78, 0x79, 0, 0, 0, // xy
        ],
    },
];

// Whether an item of a leaf without pairs, of either type, is this one.
fn reads_item(sheet: &Sheet, order: Order, i: u16, item: &LeafItem<'_>) -> bool {
    match form(sheet.page(), 1, order) {
        Ok(PageView::RecnoLeaf(leaf)) => i < leaf.entries() && leaf.item(i) == *item,
        Ok(PageView::DupLeaf(leaf)) => i < leaf.entries() && leaf.item(i) == *item,
        _ => false,
    }
}

// Whether a page takes no set, which stands neither off a set nor in a recno, no shared key, as it has no pairs, and no item with a byte too many.
fn refuses_others(sheet: &mut Sheet) -> bool {
    !sheet.add_leaf(&SET) && !sheet.share() && !sheet.add_leaf(&inline(&FILLING[..458]))
}

// Whether a page is full with a third item, and reads as the three.
fn takes_a_third(sheet: &mut Sheet, order: Order) -> bool {
    takes_leaves(sheet, &[(inline(&FILLING[..457]), 0)])
        && reads_item(sheet, order, 0, &inline(b"xy"))
        && reads_item(sheet, order, 1, &CHAIN)
        && reads_item(sheet, order, 2, &inline(&FILLING[..457]))
        && !sheet.add_leaf(&inline(b""))
}

fn fills_other(sheet: &mut Sheet, spelled: &Spelled, page_type: u8) -> bool {
    takes_leaves(sheet, &[(inline(b"xy"), 476), (CHAIN, 462)])
        && spelled.is(sheet.page()) == (page_type == 12)
        && refuses_others(sheet)
        && takes_a_third(sheet, spelled.order)
}

#[test]
fn fills_other_leaves(rt: HostRuntime) -> Result<(), Fail> {
    for (spelled, page_type) in [(&ITEMS[0], 12), (&ITEMS[1], 12), (&ITEMS[0], 6)] {
        let mut sheet = Sheet::new(rt.alloc(), 512, spelled.order, &header(page_type, 1))?;
        assert!(rt; fills_other(&mut sheet, spelled, page_type));
    }
    Ok(())
}
