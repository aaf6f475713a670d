//! Chains and the values that they hold. Values: docs/FORMAT.md, "Other pages" and "Stage 6, chains and trees".

ghost use Rattle.std.specs.Prelude.{◌≡◌, IfSome};
ghost use Rattle.test_images.specs.of_image.Linked.{FitsChain};
ghost use Rattle.bdb_format.specs.Terms.{file_of};

use crate::fields::BTREE;
use bdb_format::{Fault, Order, Steps};
use bdb_graph::{Linked, link, open_image};
use bdb_overflow::{Datum, Pieces, check_chains, compare_datum, leaf_datum, pieces, pieces_at};
use std::alloc::Global;
use std::cmp::Ordering;
use std::marker::Brand;
use std::sync::ledger::{Blank, Ledger};
use test_images::{Field, LeafItem, PageView, write};

const PAGE: usize = 512;

const SIZE: usize = 13 * PAGE;

/// A value in a chain of eleven pages: how much of it each page holds, and how much the item tells in all.
/// Its bytes are `b`, but for the last one.
#[derive(Clone, Copy)]
struct Value {
    cut: [u16; 11],
    total: u32,
    last: u8,
}

// Full pages, and the rest on the last.
const FULL: [u16; 11] = [486, 486, 486, 486, 486, 486, 486, 486, 486, 486, 140];

const WHOLE: Value = Value {
    cut: FULL,
    total: 5000,
    last: 0x62,
};

// The same bytes, cut otherwise.
const OTHERWISE: Value = Value {
    cut: [454, 454, 454, 454, 454, 454, 454, 454, 454, 454, 460],
    total: 5000,
    last: 0x62,
};

const LAST_BYTE: Value = Value {
    cut: FULL,
    total: 5000,
    last: 0x63,
};

// A byte less.
const PREFIX: Value = Value {
    cut: [486, 486, 486, 486, 486, 486, 486, 486, 486, 486, 139],
    total: 4999,
    last: 0x62,
};

// A page without data.
const GAP: Value = Value {
    cut: [486, 486, 486, 486, 0, 486, 486, 486, 486, 486, 140],
    total: 4514,
    last: 0x62,
};

// A btree whose leaf has the key `a`, with data in the chain from page 2 on.
const LEAF: [Field; 13] = [
    Field::Four(32, 12), // last page
    Field::Four(520, 1), // page number
    Field::Two(532, 2), // entries
    Field::Byte(536, 1), // level
    Field::Byte(537, 5), // type
    Field::Two(538, 508),
    Field::Two(540, 496),
    Field::Byte(1010, 3), // overflow
    Field::Four(1012, 2), // head
    Field::Two(1020, 1), // length
    Field::Byte(1022, 1), // inline
    Field::Byte(1023, 0x61),
    Field::Two(1044, 1), // references to the chain
];

fn page_fields(page: u32, length: u16) -> [Field; 5] {
    [
        Field::Four(8, page),
        Field::Four(12, if page == 2 { 0 } else { page.saturating_sub(1) }),
        Field::Four(
            16,
            if page == 12 {
                0
            } else {
                page.saturating_add(1)
            },
        ),
        Field::Two(22, length),
        Field::Byte(25, 7),
    ]
}

fn write_page(page: &mut [u8], number: u32, length: u16, order: Order) {
    write(page, &page_fields(number, length), order);
    if let Some(data) = page.get_mut(26..26 + usize::from(length)) {
        data.fill(0x62);
    }
}

fn image_of(value: &Value, order: Order) -> [u8; SIZE] {
    let mut image = [0u8; SIZE];
    write(&mut image, &BTREE, order);
    write(&mut image, &LEAF, order);
    write(&mut image, &[Field::Four(1016, value.total)], order);
    for i in 0..11 {
        let start = (i + 2) * PAGE;
        write_page(
            &mut image[start..start + PAGE],
            i as u32 + 2,
            value.cut[i],
            order,
        );
    }
    write(
        &mut image,
        &[Field::Byte(12 * PAGE + 25 + usize::from(value.cut[10]), value.last)],
        order,
    );
    image
}

#[derive(Clone, Copy, Debug, PartialEq, Eq)]
enum Told {
    Accepted,
    Fault { stage: u8, page: u32, code: u8 },
    Refused,
}

// The item of the data on the leaf, where the image is linked.
#[tactic(auto, using(crate::proofs::Below::leaf_item_fits))]
fn datum_in<'a>(linked: &Linked<'a>) -> Option<Datum<'a>> {
    let forest = linked.forest();
    if forest.head().last < 1 {
        return None;
    }
    match forest.page(1) {
        PageView::Leaf(leaf) if leaf.pairs() > 0 => leaf_datum(&forest, &leaf.value(0)),
        _ => None,
    }
}

// The head of its chain.
#[tactic(auto, using(crate::proofs::Below::leaf_item_fits))]
fn head_in(linked: &Linked<'_>) -> Option<u32>
    ensures { IfSome result (λ head. FitsChain (file_of linked.now) head) }
{
    let forest = linked.forest();
    if forest.head().last < 1 {
        return None;
    }
    match forest.page(1) {
        PageView::Leaf(leaf) if leaf.pairs() > 0 => match leaf.value(0) {
            LeafItem::Overflow { head, .. } => Some(head),
            _ => None,
        },
        _ => None,
    }
}

// The same pieces, from the linked image, and from its bytes by order and page size.
fn pieces_in<'a>(linked: &Linked<'a>) -> Option<Pieces<'a>> {
    let head = head_in(linked)?;
    Some(pieces(linked, linked.chain(head)))
}

#[tactic(auto, using(crate::proofs::Below::legal_size, crate::proofs::Below::linked_whole))]
fn bare_pieces_in<'a>(linked: &Linked<'a>) -> Option<Pieces<'a>> {
    let head = head_in(linked)?;
    let forest = linked.forest();
    let file = forest.head();
    Some(pieces_at(forest.image(), file.order, file.page_size, head))
}

// Whether pieces are these bytes of each page, all but the last of them `b`.
fn are(mut found: Pieces<'_>, value: &Value) -> bool {
    for length in &value.cut {
        match found.next() {
            Some(piece) => {
                if piece.len() != usize::from(*length) || !piece.iter().all(|byte| *byte == 0x62) {
                    return false;
                }
            }
            None => return false,
        }
    }
    found.next().is_none()
}

fn have_pieces(linked: &Linked<'_>, value: &Value) -> bool {
    match (pieces_in(linked), bare_pieces_in(linked)) {
        (Some(found), Some(bare)) => {
            are(found.again(), value) && are(bare, value) && are(found, value)
        }
        _ => false,
    }
}

fn verdict_in(linked: &Linked<'_>) -> Told {
    match check_chains(linked) {
        Ok(()) => Told::Accepted,
        Err(Fault { stage, page, code }) => Told::Fault { stage, page, code },
    }
}

/// What is told of the image of a value.
#[derive(Drop)]
struct Answers<'a> {
    verdict: Told,
    has_pieces: bool,
    datum: Option<Datum<'a>>,
}

fn told_of_value<'a, L: Ledger>(
    alloc: Global,
    image: &'a [u8; SIZE],
    value: &Value,
    steps: &mut Steps<L>,
) -> Answers<'a> {
    let refused = Answers {
        verdict: Told::Refused,
        has_pieces: false,
        datum: None,
    };
    let Ok(formed) = open_image(alloc, image) else {
        return refused;
    };
    let Ok(linked) = link(alloc, formed, steps) else {
        return refused;
    };
    Answers {
        verdict: verdict_in(&linked),
        has_pieces: have_pieces(&linked, value),
        datum: datum_in(&linked),
    }
}

fn answers_counted<'a, L: Ledger>(
    alloc: Global,
    image: &'a [u8; SIZE],
    value: &Value,
    blank: Blank,
) -> Answers<'a>
    requires name { blank.name ≡ L.name }
    requires parts { blank.parts ≡ L.parts }
    requires one { L.parts ≡ 1 }
{
    let mut steps = Steps::<L>::new(blank);
    told_of_value(alloc, image, value, &mut steps)
}

fn answers_of<'a>(alloc: Global, image: &'a [u8; SIZE], value: &Value) -> Answers<'a> {
    answers_counted::<Brand>(alloc, image, value, Blank::new(1))
}

const BOTH: [Order; 2] = [Order::Little, Order::Big];

#[test]
fn tells_a_chain_of_another_length(rt: HostRuntime) {
    let cases = [
        (WHOLE, Told::Accepted),
        (OTHERWISE, Told::Accepted),
        (GAP, Told::Accepted),
        (
            Value {
                total: 5001,
                ..WHOLE
            },
            Told::Fault {
                stage: 6,
                page: 1,
                code: 1,
            },
        ),
        (
            Value {
                total: 4999,
                ..WHOLE
            },
            Told::Fault {
                stage: 6,
                page: 1,
                code: 1,
            },
        ),
        (
            Value {
                total: 486,
                ..WHOLE
            },
            Told::Fault {
                stage: 6,
                page: 1,
                code: 1,
            },
        ),
    ];
    for (value, told) in &cases {
        for order in BOTH {
            let image = image_of(value, order);
            assert_eq!(rt; answers_of(rt.alloc(), &image, value).verdict, *told);
        }
    }
}

#[test]
fn gives_the_piece_of_each_page(rt: HostRuntime) {
    for value in &[WHOLE, OTHERWISE, PREFIX, GAP] {
        for order in BOTH {
            let image = image_of(value, order);
            assert!(rt; answers_of(rt.alloc(), &image, value).has_pieces);
        }
    }
}

// Whether a value has these bytes, counted and copied.
fn has_bytes(alloc: Global, datum: &Datum<'_>, bytes: &[u8]) -> bool {
    match datum.copy(alloc) {
        Ok(copy) => copy.as_slice() == bytes && datum.len() == bytes.len() as u64,
        Err(_) => false,
    }
}

#[test]
fn copies_a_value(rt: HostRuntime) {
    for order in BOTH {
        let mut bytes = [0x62u8; 5000];
        let image = image_of(&WHOLE, order);
        match answers_of(rt.alloc(), &image, &WHOLE).datum {
            Some(datum) => assert!(rt; has_bytes(rt.alloc(), &datum, &bytes)),
            None => assert!(rt; false, "no value"),
        }
        bytes[4999] = 0x63;
        let image = image_of(&LAST_BYTE, order);
        match answers_of(rt.alloc(), &image, &LAST_BYTE).datum {
            Some(datum) => assert!(rt; has_bytes(rt.alloc(), &datum.again(), &bytes)),
            None => assert!(rt; false, "no value"),
        }
    }
}

// The order of the values of two images, one in each order of bytes.
fn order_of(alloc: Global, a: &Value, b: &Value) -> Option<Ordering> {
    let first = image_of(a, Order::Little);
    let second = image_of(b, Order::Big);
    let a = answers_of(alloc, &first, a).datum?;
    let b = answers_of(alloc, &second, b).datum?;
    Some(compare_datum(&a, &b))
}

#[test]
fn compares_two_chains(rt: HostRuntime) {
    let cases = [
        (WHOLE, WHOLE, Ordering::Equal),
        (WHOLE, OTHERWISE, Ordering::Equal),
        (OTHERWISE, WHOLE, Ordering::Equal),
        (WHOLE, LAST_BYTE, Ordering::Less),
        (LAST_BYTE, WHOLE, Ordering::Greater),
        (OTHERWISE, LAST_BYTE, Ordering::Less),
        (PREFIX, WHOLE, Ordering::Less),
        (WHOLE, PREFIX, Ordering::Greater),
        (OTHERWISE, PREFIX, Ordering::Greater),
        (GAP, WHOLE, Ordering::Less),
        (GAP, GAP, Ordering::Equal),
    ];
    for (a, b, order) in &cases {
        assert_eq!(rt; order_of(rt.alloc(), a, b), Some(*order));
    }
}

// The order of bytes and the value of an image, both ways round.
fn orders_of(alloc: Global, bytes: &[u8], value: &Value) -> Option<(Ordering, Ordering)> {
    let image = image_of(value, Order::Little);
    let chained = answers_of(alloc, &image, value).datum?;
    let inline = Datum::Inline(bytes);
    Some((
        compare_datum(&inline, &chained),
        compare_datum(&chained, &inline),
    ))
}

#[test]
fn compares_bytes_with_a_chain(rt: HostRuntime) {
    let bytes = [0x62u8; 5001];
    let same = Some((Ordering::Equal, Ordering::Equal));
    let below = Some((Ordering::Less, Ordering::Greater));
    let above = Some((Ordering::Greater, Ordering::Less));
    assert_eq!(rt; orders_of(rt.alloc(), &bytes[..5000], &WHOLE), same);
    assert_eq!(rt; orders_of(rt.alloc(), &bytes[..4514], &GAP), same);
    assert_eq!(rt; orders_of(rt.alloc(), &bytes[..4999], &WHOLE), below);
    assert_eq!(rt; orders_of(rt.alloc(), &bytes[..0], &WHOLE), below);
    assert_eq!(rt; orders_of(rt.alloc(), &bytes[..5000], &LAST_BYTE), below);
    assert_eq!(rt; orders_of(rt.alloc(), &bytes, &WHOLE), above);
    assert_eq!(rt; orders_of(rt.alloc(), &bytes, &LAST_BYTE), below);
}
