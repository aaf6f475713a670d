//! Each row of form first on a page of each type that can have it, in both orders, and good pages read back.

use bdb_form::{HashView, LeafView, PageView, RecnoLeafView, form, queue_form};
use bdb_meta::{HashItem, InternalKey, LeafItem, Order, put_u16, put_u32};
use std::process::Abort;

const SIZE: usize = 512;

/// A field of a page that is written.
#[derive(Clone, Copy)]
enum Field {
    Byte(usize, u8),
    Two(usize, u16),
    Four(usize, u32),
}

/// The rows of a page of these types, once these fields are written over a good one.
#[derive(Clone, Copy)]
struct Case {
    types: &'static [u8],
    fields: &'static [Field],
    code: u8,
}

const NONE: [Field; 0] = [];

// Two inline items of a leaf, `a` and `b`.
const LEAF: [Field; 10] = [
    Field::Two(20, 2), // entries
    Field::Byte(24, 1), // level
    Field::Two(26, 508),
    Field::Two(28, 504),
    Field::Two(508, 1), // length
    Field::Byte(510, 1), // inline
    Field::Byte(511, 0x61),
    Field::Two(504, 1),
    Field::Byte(506, 1),
    Field::Byte(507, 0x62),
];

// One item with the inline key `ab`, child 2 and count 7.
const INTERNAL: [Field; 9] = [
    Field::Two(20, 1), // entries
    Field::Byte(24, 2), // level
    Field::Two(26, 496),
    Field::Two(496, 2), // length
    Field::Byte(498, 1), // inline
    Field::Four(500, 2), // child
    Field::Four(504, 7), // count
    Field::Byte(508, 0x61),
    Field::Byte(509, 0x62),
];

// One item with child 2 and count 7.
const RECNO_INTERNAL: [Field; 5] = [
    Field::Two(20, 1), // entries
    Field::Byte(24, 2), // level
    Field::Two(26, 504),
    Field::Four(504, 2), // child
    Field::Four(508, 7), // count
];

// Two inline items of a hash page, `a` and `b`.
const HASH: [Field; 7] = [
    Field::Two(20, 2), // entries
    Field::Two(26, 510),
    Field::Two(28, 508),
    Field::Byte(510, 1), // inline
    Field::Byte(511, 0x61),
    Field::Byte(508, 1),
    Field::Byte(509, 0x62),
];

// Three bytes of data, of a chain with two references.
const OVERFLOW: [Field; 5] = [
    Field::Two(20, 2), // references
    Field::Two(22, 3), // length
    Field::Byte(26, 0x61),
    Field::Byte(27, 0x62),
    Field::Byte(28, 0x63),
];

const CASES: [Case; 27] = [
    // The number and the type.
    Case {
        types: &[0, 2, 3, 4, 5, 6, 7, 8, 9, 12, 13],
        fields: &[Field::Four(8, 2)],
        code: 1,
    },
    Case {
        types: &[5],
        fields: &[Field::Byte(25, 1)],
        code: 2,
    },
    Case {
        types: &[5],
        fields: &[Field::Byte(25, 10)],
        code: 2,
    },
    Case {
        types: &[5],
        fields: &[Field::Byte(25, 11)],
        code: 2,
    },
    Case {
        types: &[5],
        fields: &[Field::Byte(25, 14)],
        code: 2,
    },
    // The index goes past the page.
    Case {
        types: &[2, 3, 4, 5, 6, 12, 13],
        fields: &[Field::Two(20, 244)],
        code: 19,
    },
    // The level.
    Case {
        types: &[5, 6, 12],
        fields: &[Field::Byte(24, 2)],
        code: 20,
    },
    Case {
        types: &[3, 4],
        fields: &[Field::Byte(24, 1)],
        code: 20,
    },
    // The number of entries.
    Case {
        types: &[2, 5, 13],
        fields: &[Field::Two(20, 1)],
        code: 21,
    },
    Case {
        types: &[3, 4],
        fields: &[Field::Two(20, 0)],
        code: 21,
    },
    // An offset in the index, too near to the page's end, or not falling.
    Case {
        types: &[2, 3, 4, 5, 6, 12, 13],
        fields: &[Field::Two(26, 27)],
        code: 22,
    },
    Case {
        types: &[5, 6, 12],
        fields: &[Field::Two(28, 510)],
        code: 22,
    },
    Case {
        types: &[3],
        fields: &[Field::Two(26, 501)],
        code: 22,
    },
    Case {
        types: &[4],
        fields: &[Field::Two(26, 505)],
        code: 22,
    },
    Case {
        types: &[2, 13],
        fields: &[Field::Two(26, 512)],
        code: 22,
    },
    Case {
        types: &[2, 13],
        fields: &[Field::Two(28, 510)],
        code: 22,
    },
    // A bad offset of the second item comes before a bad type of the first.
    Case {
        types: &[5, 6, 12],
        fields: &[Field::Two(28, 27), Field::Byte(510, 4)],
        code: 22,
    },
    // The type of an item: unknown, or a set where a key or a lone item stands.
    Case {
        types: &[5, 6, 12],
        fields: &[Field::Byte(506, 4)],
        code: 23,
    },
    Case {
        types: &[5, 6, 12],
        fields: &[Field::Byte(510, 2)],
        code: 23,
    },
    Case {
        types: &[3],
        fields: &[Field::Byte(498, 2)],
        code: 23,
    },
    Case {
        types: &[2, 13],
        fields: &[Field::Byte(510, 2)],
        code: 23,
    },
    Case {
        types: &[2, 13],
        fields: &[Field::Byte(508, 5)],
        code: 23,
    },
    // An item past the page's end, or not of the length of its type.
    Case {
        types: &[5, 6, 12],
        fields: &[Field::Two(508, 2)],
        code: 24,
    },
    Case {
        types: &[3],
        fields: &[Field::Two(496, 5)],
        code: 24,
    },
    Case {
        types: &[3],
        fields: &[Field::Byte(498, 3)],
        code: 24,
    },
    Case {
        types: &[2, 13],
        fields: &[Field::Byte(508, 2)],
        code: 24,
    },
    // The data of an overflow page go past the page's end.
    Case {
        types: &[7],
        fields: &[Field::Two(22, 487)],
        code: 25,
    },
];

fn write(page: &mut [u8], fields: &[Field], order: Order) {
    for field in fields {
        match *field {
            Field::Byte(at, value) => write_byte(page, at, value),
            Field::Two(at, value) => {
                if at < page.len() && page.len() - at >= 2 {
                    put_u16(page, at, order, value);
                }
            }
            Field::Four(at, value) => {
                if at < page.len() && page.len() - at >= 4 {
                    put_u32(page, at, order, value);
                }
            }
        }
    }
}

fn write_byte(page: &mut [u8], at: usize, value: u8) {
    if let Some(byte) = page.get_mut(at) {
        *byte = value;
    }
}

fn body(page_type: u8) -> &'static [Field] {
    match page_type {
        2 | 13 => &HASH,
        3 => &INTERNAL,
        4 => &RECNO_INTERNAL,
        5 | 6 | 12 => &LEAF,
        7 => &OVERFLOW,
        _ => &NONE,
    }
}

fn good_page(page_type: u8, order: Order) -> [u8; SIZE] {
    let mut page = [0u8; SIZE];
    write(
        &mut page,
        &[Field::Four(8, 1), Field::Byte(25, page_type)],
        order,
    );
    write(&mut page, body(page_type), order);
    page
}

// The code of a refused page, 0 for a good one.
fn code_of(page: &[u8; SIZE], order: Order) -> u8 {
    match form(page, 1, order) {
        Ok(_) => 0,
        Err(code) => code,
    }
}

fn queue_code_of(page: &[u8; SIZE], order: Order) -> u8 {
    match queue_form(page, 1, order) {
        Ok(_) => 0,
        Err(code) => code,
    }
}

fn check_case(rt: &impl Abort, case: &Case, order: Order) {
    for page_type in case.types {
        let mut page = good_page(*page_type, order);
        assert_eq!(rt; code_of(&page, order), 0, "a good page of type {page_type}");
        write(&mut page, case.fields, order);
        assert_eq!(rt; code_of(&page, order), case.code, "type {page_type}");
    }
}

#[test]
fn refuses_by_the_first_row(rt: HostRuntime) {
    for case in &CASES {
        check_case(&rt, case, Order::Little);
        check_case(&rt, case, Order::Big);
    }
}

#[test]
fn refuses_queue_pages(rt: HostRuntime) {
    for order in [Order::Little, Order::Big] {
        let mut page = good_page(11, order);
        assert_eq!(rt; queue_code_of(&page, order), 0);
        write(&mut page, &[Field::Byte(25, 13)], order);
        assert_eq!(rt; queue_code_of(&page, order), 2);
        write(&mut page, &[Field::Four(8, 3)], order);
        assert_eq!(rt; queue_code_of(&page, order), 1);
        assert_eq!(rt; queue_code_of(&[0; SIZE], order), 0);
    }
}

fn is_inline(item: &LeafItem<'_>, bytes: &[u8]) -> bool {
    match item {
        LeafItem::Inline {
            bytes: found,
            deleted,
        } => *found == bytes && !deleted,
        LeafItem::Duplicates { .. } | LeafItem::Overflow { .. } => false,
    }
}

fn is_inline_data(item: &HashItem<'_>, bytes: &[u8]) -> bool {
    match item {
        HashItem::Inline(found) => *found == bytes,
        HashItem::Set(_) | HashItem::Overflow { .. } | HashItem::OffPage { .. } => false,
    }
}

// Whether a view of a good page reads as what was written.
fn reads_back(view: &PageView<'_>) -> bool {
    match view {
        PageView::Leaf(leaf) => leaf.pairs() == 1
            && is_inline(&leaf.key(0), b"a")
            && is_inline(&leaf.value(0), b"b")
            && !leaf.shares(0),
        PageView::RecnoLeaf(leaf) => leaf.entries() == 2
            && is_inline(&leaf.item(0), b"a")
            && is_inline(&leaf.item(1), b"b"),
        PageView::DupLeaf(leaf) => leaf.entries() == 2
            && is_inline(&leaf.item(0), b"a")
            && is_inline(&leaf.item(1), b"b"),
        PageView::Hash(page) => page.pairs() == 1
            && is_inline_data(&page.key(0), b"a")
            && is_inline_data(&page.value(0), b"b"),
        PageView::Internal(page) => {
            page.entries() == 1
                && {
                    let item = page.item(0);
                    item.child == 2 && item.count == 7 && item.key == InternalKey::Inline(b"ab")
                }
        }
        PageView::RecnoInternal(page) => {
            page.entries() == 1
                && {
                    let item = page.item(0);
                    item.child == 2 && item.count == 7
                }
        }
        PageView::Overflow(page) => page.bytes() == b"abc".as_slice() && page.header().entries == 2,
        PageView::Free(page) => page.header().number == 1,
        PageView::Meta(page) => page.header().number == 1,
        PageView::Zero(_) | PageView::Queue(_) => false,
    }
}

fn is_read_back(page: &[u8; SIZE], page_type: u8, order: Order) -> bool {
    match form(page, 1, order) {
        Ok(view) => view.header().page_type == page_type && reads_back(&view),
        Err(_) => false,
    }
}

#[test]
fn reads_good_pages_back(rt: HostRuntime) {
    for page_type in [0, 2, 3, 4, 5, 6, 7, 8, 9, 12, 13] {
        for order in [Order::Little, Order::Big] {
            let page = good_page(page_type, order);
            assert!(rt; is_read_back(&page, page_type, order), "type {page_type}");
        }
    }
}

// A third and a fourth entry of the index: the key of the first pair again, and its data again.
const SHARED: [Field; 3] = [
    Field::Two(20, 4), // entries
    Field::Two(30, 508),
    Field::Two(32, 504),
];

// Whether a leaf gives its only pair, and then none.
fn gives_pair(leaf: &LeafView<'_>) -> bool {
    let mut pairs = leaf.iter();
    let Some(pair) = pairs.next() else {
        return false;
    };
    is_inline(&pair.key, b"a")
        && is_inline(&pair.value, b"b")
        && !pair.shares
        && pairs.next().is_none()
}

fn gives_hash_pair(page: &HashView<'_>) -> bool {
    let mut pairs = page.iter();
    let Some(pair) = pairs.next() else {
        return false;
    };
    is_inline_data(&pair.key, b"a") && is_inline_data(&pair.value, b"b") && pairs.next().is_none()
}

// Whether a leaf gives its two items, and then none.
fn gives_items(leaf: &RecnoLeafView<'_>) -> bool {
    let mut items = leaf.items();
    let (Some(first), Some(second)) = (items.next(), items.next()) else {
        return false;
    };
    is_inline(&first, b"a") && is_inline(&second, b"b") && items.next().is_none()
}

fn gives_all(page: &[u8; SIZE], order: Order) -> bool {
    match form(page, 1, order) {
        Ok(PageView::Leaf(leaf)) => gives_pair(&leaf),
        Ok(PageView::Hash(page)) => gives_hash_pair(&page),
        Ok(PageView::RecnoLeaf(leaf)) => gives_items(&leaf),
        _ => false,
    }
}

#[test]
fn gives_items_one_by_one(rt: HostRuntime) {
    for order in [Order::Little, Order::Big] {
        for page_type in [2, 5, 6, 13] {
            assert!(rt;
                gives_all(&good_page(page_type, order), order),
                "type {page_type}"
            );
        }
    }
}

// Whether the second pair of a leaf that is given shares its key.
fn second_shares(page: &[u8; SIZE], order: Order) -> Option<bool> {
    let Ok(PageView::Leaf(leaf)) = form(page, 1, order) else {
        return None;
    };
    let mut pairs = leaf.iter();
    pairs.next()?;
    let pair = pairs.next()?;
    Some(pair.shares)
}

#[test]
fn tells_the_pairs_that_share_their_key(rt: HostRuntime) {
    for order in [Order::Little, Order::Big] {
        let mut page = good_page(5, order);
        assert_eq!(rt; second_shares(&page, order), None);
        write(&mut page, &SHARED, order);
        assert_eq!(rt; second_shares(&page, order), Some(true));
    }
}

fn is_zero_view(page: &[u8; SIZE]) -> bool {
    match form(page, 1, Order::Little) {
        Ok(PageView::Zero(_)) => true,
        _ => false,
    }
}

fn slot_reads(page: &[u8; SIZE], order: Order) -> bool {
    match queue_form(page, 1, order) {
        Ok(PageView::Queue(view)) if view.room() >= 16 => {
            let (valid, bytes) = view.slot(1, 4);
            let (free, _) = view.slot(0, 4);
            valid && !free && bytes == b"abcd".as_slice()
        }
        _ => false,
    }
}

#[test]
fn reads_zero_and_queue_pages(rt: HostRuntime) {
    assert!(rt; is_zero_view(&[0; SIZE]));
    for order in [Order::Little, Order::Big] {
        let mut page = good_page(11, order);
        let slot = [
            Field::Byte(36, 1),
            Field::Byte(37, 0x61),
            Field::Byte(38, 0x62),
            Field::Byte(39, 0x63),
            Field::Byte(40, 0x64),
        ];
        write(&mut page, &slot, order);
        assert!(rt; slot_reads(&page, order));
    }
}
