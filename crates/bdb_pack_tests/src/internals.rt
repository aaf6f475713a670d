//! Items of internal pages in both orders: the bytes of the page, how much is free, and what the views read.
//! Values: docs/FORMAT.md, "Internal items" and "Internal recno items".

ghost use Rattle.std.specs.Prelude.{◌≤◌};

use crate::Sheet;
use crate::spelled::{FILLING, Spelled, header};
use bdb_form::{InternalItem, InternalKey, Order, PageView, RecnoItem, form};
use std::alloc::{AllocError, Global};
use std::test::Fail;

const FIRST: InternalItem<'static> = InternalItem {
    child: 0x0203,
    count: 7,
    key: InternalKey::Inline(b"ab"),
};

const SECOND: InternalItem<'static> = InternalItem {
    child: 4,
    count: 0,
    key: InternalKey::Overflow {
        head: 5,
        total: 0x0600,
    },
};

// An internal page with the key `ab` and a key in a chain.
const KEYS: [Spelled; 2] = [
    Spelled {
        order: Order::Little,
        front: &[
            0, 0, 0, 0, 1, 0, 0, 0, // LSN
            1, 0, 0, 0, // page number
            2, 1, 0, 0, // previous page
            6, 5, 4, 3, // next page
            2, 0, // entries
            0xd8, 1, // high free offset: 472
            2, 3, // level, page type
            0xf0, 1, 0xd8, 1, // 496, 472
        ],
        back: &[
            12, 0, 3, 0, 4, 0, 0, 0, 0, 0, 0, 0, // a length, a chain, child 4, count 0
            0, 0, 3, 0, 5, 0, 0, 0, 0, 6, 0, 0, // the chain
            2, 0, 1, 0, 3, 2, 0, 0, 7, 0, 0, 0, 0x61, 0x62, 0, 0, // a length, inline, child, count 7, ab
        ],
    },
    Spelled {
        order: Order::Big,
        front: &[
            0, 0, 0, 0, 0, 0, 0, 1, // LSN
            0, 0, 0, 1, // page number
            0, 0, 1, 2, // previous page
            3, 4, 5, 6, // next page
            0, 2, // entries
            1, 0xd8, // high free offset: 472
            2, 3, // level, page type
            1, 0xf0, 1, 0xd8, // 496, 472
        ],
        back: &[
            0, 12, 3, 0, 0, 0, 0, 4, 0, 0, 0, 0, // a length, a chain, child 4, count 0
            0, 0, 3, 0, 0, 0, 0, 5, 0, 0, 6, 0, // the chain
            0, 2, 1, 0, 0, 0, 2, 3, 0, 0, 0, 7, 0x61, 0x62, 0, 0, // a length, inline, child, count 7, ab
        ],
    },
];

fn takes_keys(sheet: &mut Sheet, rows: &[(InternalItem<'_>, u32)]) -> bool {
    for (item, room) in rows {
        if !sheet.add_internal(item) || sheet.room() != *room {
            return false;
        }
    }
    true
}

fn reads_key(sheet: &Sheet, order: Order, i: u16, item: &InternalItem<'_>) -> bool {
    match form(sheet.page(), 1, order) {
        Ok(PageView::Internal(page)) => i < page.entries() && page.item(i) == *item,
        _ => false,
    }
}

// An item with a key of so many bytes.
fn last(long: usize) -> InternalItem<'static>
    requires { long ≤ 512 }
{
    InternalItem {
        child: 8,
        count: 1,
        key: InternalKey::Inline(&FILLING[..long]),
    }
}

// Whether a page is full with a third item, and takes none with a byte more.
fn takes_a_third(sheet: &mut Sheet) -> bool {
    !sheet.add_internal(&last(429)) && takes_keys(sheet, &[(last(428), 0)])
}

// Whether a page reads as the three.
fn reads_three(sheet: &Sheet, order: Order) -> bool {
    reads_key(sheet, order, 0, &FIRST)
        && reads_key(sheet, order, 1, &SECOND)
        && reads_key(sheet, order, 2, &last(428))
}

fn fills(alloc: Global, spelled: &Spelled) -> Result<bool, AllocError> {
    let mut sheet = Sheet::new(alloc, 512, spelled.order, &header(3, 2))?;
    Ok(
        takes_keys(&mut sheet, &[(FIRST, 468), (SECOND, 442)])
            && spelled.is(sheet.page())
            && takes_a_third(&mut sheet)
            && reads_three(&sheet, spelled.order),
    )
}

#[test]
fn fills_internal_pages(rt: HostRuntime) -> Result<(), Fail> {
    for spelled in &KEYS {
        assert!(rt; fills(rt.alloc(), spelled)?);
    }
    Ok(())
}

// An internal page of a recno tree with two items.
const COUNTS: [Spelled; 2] = [
    Spelled {
        order: Order::Little,
        front: &[
            0, 0, 0, 0, 1, 0, 0, 0, // LSN
            1, 0, 0, 0, // page number
            2, 1, 0, 0, // previous page
            6, 5, 4, 3, // next page
            2, 0, // entries
            0xf0, 1, // high free offset: 496
            2, 4, // level, page type
            0xf8, 1, 0xf0, 1, // 504, 496
        ],
        back: &[
            4, 0, 0, 0, 6, 5, 0, 0, // child 4, count
            3, 2, 0, 0, 7, 0, 0, 0, // child, count 7
        ],
    },
    Spelled {
        order: Order::Big,
        front: &[
            0, 0, 0, 0, 0, 0, 0, 1, // LSN
            0, 0, 0, 1, // page number
            0, 0, 1, 2, // previous page
            3, 4, 5, 6, // next page
            0, 2, // entries
            1, 0xf0, // high free offset: 496
            2, 4, // level, page type
            1, 0xf8, 1, 0xf0, // 504, 496
        ],
        back: &[
            0, 0, 0, 4, 0, 0, 5, 6, // child 4, count
            0, 0, 2, 3, 0, 0, 0, 7, // child, count 7
        ],
    },
];

fn takes_count(sheet: &mut Sheet, child: u32, count: u32, room: u32) -> bool {
    sheet.add_recno(&RecnoItem { child, count }) && sheet.room() == room
}

fn reads_count(sheet: &Sheet, order: Order, i: u16, item: RecnoItem) -> bool {
    match form(sheet.page(), 1, order) {
        Ok(PageView::RecnoInternal(page)) => i < page.entries() && page.item(i) == item,
        _ => false,
    }
}

fn places(alloc: Global, spelled: &Spelled) -> Result<bool, AllocError> {
    let mut sheet = Sheet::new(alloc, 512, spelled.order, &header(4, 2))?;
    Ok(
        takes_count(&mut sheet, 0x0203, 7, 476)
            && takes_count(&mut sheet, 4, 0x0506, 466)
            && spelled.is(sheet.page()),
    )
}

#[test]
fn places_counts(rt: HostRuntime) -> Result<(), Fail> {
    for spelled in &COUNTS {
        assert!(rt; places(rt.alloc(), spelled)?);
    }
    Ok(())
}

// Whether 407 items of ten bytes each fill a page of 4096 bytes.
fn takes_407(sheet: &mut Sheet) -> bool {
    for i in 0..407u32 {
        if !takes_count(sheet, i, 1000 + i, 4060 - 10 * i) {
            return false;
        }
    }
    !sheet.add_recno(&RecnoItem { child: 1, count: 1 })
}

// Whether a page reads as these.
fn reads_407(sheet: &Sheet, order: Order) -> bool {
    for i in 0..407u16 {
        let item = RecnoItem {
            child: u32::from(i),
            count: 1000 + u32::from(i),
        };
        if !reads_count(sheet, order, i, item) {
            return false;
        }
    }
    true
}

fn fills_with_counts(alloc: Global, order: Order) -> Result<bool, AllocError> {
    let mut sheet = Sheet::new(alloc, 4096, order, &header(4, 2))?;
    Ok(takes_407(&mut sheet) && reads_407(&sheet, order))
}

#[test]
fn fills_a_page_with_counts(rt: HostRuntime) -> Result<(), Fail> {
    assert!(rt; fills_with_counts(rt.alloc(), Order::Little)?);
    assert!(rt; fills_with_counts(rt.alloc(), Order::Big)?);
    Ok(())
}
