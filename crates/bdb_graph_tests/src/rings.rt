//! Reach on long ways: rings, ways that lead into one, and ways that meet. Values: docs/FORMAT.md, "Stage 5, reach".

ghost use Rattle.std.specs.Prelude.{◌≤◌};

use crate::linking::{PAIR, TABLE, THIRD_BUCKET, Told, told_by};
use bdb_format::Order;
use std::alloc::{AllocError, Global};
use test_images::{Field, write};

const SIZE: usize = 8 * 512;

/// What is written over a hash file with three buckets, and what comes of it.
#[derive(Clone, Copy)]
struct Case {
    fields: &'static [Field],
    told: Told,
}

// The hash pages 5 and 6 are one another's next, and page 5 names the chains of pages 4 and 7.
const RING_WITH_TAILS: [Field; 22] = [
    Field::Four(32, 7), // last page
    Field::Four(2056, 4),
    Field::Two(2068, 1), // references
    Field::Byte(2073, 7),
    Field::Four(2568, 5),
    Field::Four(2572, 6), // previous
    Field::Four(2576, 6), // next
    Field::Two(2580, 2), // entries
    Field::Byte(2585, 13),
    Field::Two(2586, 500),
    Field::Two(2588, 488),
    Field::Byte(3060, 3), // a key in a chain
    Field::Four(3064, 4), // head
    Field::Byte(3048, 3), // data in a chain
    Field::Four(3052, 7), // head
    Field::Four(3080, 6),
    Field::Four(3084, 5), // previous
    Field::Four(3088, 5), // next
    Field::Byte(3097, 13),
    Field::Four(3592, 7),
    Field::Two(3604, 1), // references
    Field::Byte(3609, 7),
];

// Page 1 names the chains of page 4 and of pages 5 and 6.
const WAYS_THAT_MEET: [Field; 18] = [
    Field::Four(32, 6), // last page
    Field::Two(532, 2), // entries
    Field::Two(538, 500),
    Field::Two(540, 488),
    Field::Byte(1012, 3), // a key in a chain
    Field::Four(1016, 4), // head
    Field::Byte(1000, 3), // data in a chain
    Field::Four(1004, 5), // head
    Field::Four(2056, 4),
    Field::Two(2068, 1), // references
    Field::Byte(2073, 7),
    Field::Four(2568, 5),
    Field::Four(2576, 6), // next
    Field::Two(2580, 1), // references
    Field::Byte(2585, 7),
    Field::Four(3080, 6),
    Field::Four(3084, 5), // previous
    Field::Byte(3097, 7),
];

const CASES: [Case; 2] = [
    Case {
        fields: &RING_WITH_TAILS,
        told: Told::Fault {
            stage: 5,
            page: 4,
            code: 1,
        },
    },
    Case {
        fields: &WAYS_THAT_MEET,
        told: Told::Accepted,
    },
];

fn told_of(alloc: Global, case: &Case, order: Order) -> Told {
    let mut image = [0u8; SIZE];
    write(&mut image, &TABLE, order);
    write(&mut image, &THIRD_BUCKET, order);
    write(&mut image, case.fields, order);
    told_by(alloc, &image)
}

#[test]
fn finds_a_ring_below_its_tails(rt: HostRuntime) {
    for case in &CASES {
        for order in [Order::Little, Order::Big] {
            assert_eq!(rt; told_of(rt.alloc(), case, order), case.told);
        }
    }
}

// The last of a thousand overflow pages behind leaf 1.
const LAST: u32 = 1001;

/// How the overflow pages name one another.
#[derive(Clone, Copy)]
enum Way {
    /// From page 2 up, and the leaf names page 2 as the head.
    Chain,
    /// From page 2 up, and nothing names page 2.
    Unowned,
    /// From the last page down, and nothing names the last.
    Down,
    /// From page 2 up, and the last names page 2.
    Ring,
}

// The pages before and after an overflow page on such a way; 0 for none.
fn neighbours(way: Way, page: u32) -> (u32, u32)
    requires page { 2 ≤ page }
    requires last { page ≤ 1001 }
{
    let before = if page == 2 { 0 } else { page - 1 };
    let after = if page == LAST { 0 } else { page + 1 };
    match way {
        Way::Chain | Way::Unowned => (before, after),
        Way::Down => (after, before),
        Way::Ring => (
            if page == 2 { LAST } else { before },
            if page == LAST { 2 } else { after },
        ),
    }
}

// The datum of the leaf's pair stands in the chain from page 2 on.
const HEAD: [Field; 4] = [
    Field::Two(540, 496),
    Field::Byte(1010, 3),
    Field::Four(1012, 2), // head
    Field::Two(1044, 1), // references
];

fn put_overflow(image: &mut [u8], way: Way, page: u32)
    requires page { 2 ≤ page }
    requires last { page ≤ 1001 }
{
    let at = page as usize * 512;
    let (previous, next) = neighbours(way, page);
    let fields = [
        Field::Four(at + 8, page),
        Field::Four(at + 12, previous),
        Field::Four(at + 16, next),
        Field::Byte(at + 25, 7),
    ];
    write(image, &fields, Order::Little);
}

fn told_of_way(alloc: Global, way: Way) -> Result<Told, AllocError> {
    let mut image = vec![in alloc; 0u8; 1002 * 512]?;
    write(&mut image, &PAIR, Order::Little);
    write(&mut image, &[Field::Four(32, LAST)], Order::Little);
    for page in 2..LAST + 1 {
        put_overflow(&mut image, way, page);
    }
    if let Way::Chain = way {
        write(&mut image, &HEAD, Order::Little);
    }
    Ok(told_by(alloc, &image))
}

fn fault(stage: u8, page: u32) -> Told {
    Told::Fault {
        stage,
        page,
        code: 1,
    }
}

#[test]
fn goes_a_thousand_pages_up(rt: HostRuntime) {
    let alloc = rt.alloc();
    assert_eq!(rt; told_of_way(alloc, Way::Chain), Ok(Told::Accepted));
    assert_eq!(rt; told_of_way(alloc, Way::Unowned), Ok(fault(4, 2)));
    assert_eq!(rt; told_of_way(alloc, Way::Down), Ok(fault(4, LAST)));
    assert_eq!(rt; told_of_way(alloc, Way::Ring), Ok(fault(5, 2)));
}
