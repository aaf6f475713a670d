//! Faults that count in any order. Values: docs/FORMAT.md, "Stage 8, contents".

ghost use Rattle.std.specs.Prelude.{◌≡◌};

use crate::files::TWO_DATABASES;
use crate::judging::SIZE;
use bdb_file::{AllError, First, FirstError, NamedList, Readable, Rows, verify_all, verify_by};
use bdb_format::{Fault, Order, Steps};
use std::alloc::Global;
use std::marker::Brand;
use std::sync::ledger::{Blank, Ledger};
use test_images::{Field, is_list_of, write};

/// What is written over the file of two databases, and what is named of it, with all rows and in any order.
#[derive(Clone, Copy)]
struct Case {
    fields: &'static [Field],
    named: &'static [Fault],
    in_any_order: &'static [Fault],
}

const CASES: [Case; 4] = [
    Case {
        fields: &[],
        named: &[],
        in_any_order: &[],
    },
    // The pairs of a are b=x and a=y.
    Case {
        fields: &[
            Field::Two(1556, 4), // entries
            Field::Two(1562, 508), // offsets: a key, then its data
            Field::Two(1564, 504),
            Field::Two(1566, 500),
            Field::Two(1568, 496),
            Field::Two(2044, 1), // key b
            Field::Byte(2046, 1),
            Field::Byte(2047, 0x62),
            Field::Two(2040, 1), // x
            Field::Byte(2042, 1),
            Field::Byte(2043, 0x78),
            Field::Two(2036, 1), // key a
            Field::Byte(2038, 1),
            Field::Byte(2039, 0x61),
            Field::Two(2032, 1), // y
            Field::Byte(2034, 1),
            Field::Byte(2035, 0x79),
        ],
        named: &[Fault {
            stage: 8,
            page: 3,
            code: 3,
        }],
        in_any_order: &[],
    },
    // The names out of order, and a key of bucket 1 in bucket 0, on page 5.
    Case {
        fields: &[
            Field::Byte(1011, 0x60),
            Field::Two(2580, 2), // entries
            Field::Two(2586, 510), // the key
            Field::Byte(3070, 1),
            Field::Byte(3071, 0x63),
            Field::Two(2588, 508), // the data
            Field::Byte(3068, 1),
            Field::Byte(3069, 0x64),
        ],
        named: &[
            Fault {
                stage: 8,
                page: 1,
                code: 3,
            },
            Fault {
                stage: 8,
                page: 5,
                code: 8,
            },
        ],
        in_any_order: &[
            Fault {
                stage: 8,
                page: 1,
                code: 3,
            },
            Fault {
                stage: 8,
                page: 5,
                code: 8,
            },
        ],
    },
    // The keys of a out of order, and that key in bucket 0.
    Case {
        fields: &[
            Field::Two(1556, 4),
            Field::Two(1562, 508),
            Field::Two(1564, 504),
            Field::Two(1566, 500),
            Field::Two(1568, 496),
            Field::Two(2044, 1),
            Field::Byte(2046, 1),
            Field::Byte(2047, 0x62),
            Field::Two(2040, 1),
            Field::Byte(2042, 1),
            Field::Byte(2043, 0x78),
            Field::Two(2036, 1),
            Field::Byte(2038, 1),
            Field::Byte(2039, 0x61),
            Field::Two(2032, 1),
            Field::Byte(2034, 1),
            Field::Byte(2035, 0x79),
            Field::Two(2580, 2),
            Field::Two(2586, 510),
            Field::Byte(3070, 1),
            Field::Byte(3071, 0x63),
            Field::Two(2588, 508),
            Field::Byte(3068, 1),
            Field::Byte(3069, 0x64),
        ],
        named: &[
            Fault {
                stage: 8,
                page: 3,
                code: 3,
            },
            Fault {
                stage: 8,
                page: 5,
                code: 8,
            },
        ],
        in_any_order: &[Fault {
            stage: 8,
            page: 5,
            code: 8,
        }],
    },
];

/// Whether its databases are a and b.
fn has_both(readable: &Readable<'_>) -> bool {
    readable.databases() == 2
        && readable.by_name(Some(b"a")).is_some()
        && readable.by_name(Some(b"b")).is_some()
}

fn are_all(found: Result<Readable<'_>, AllError>, named: &[Fault]) -> bool {
    match found {
        Ok(readable) => named.is_empty() && has_both(&readable),
        Err(AllError::Faults(list)) => is_list_of(&list, named),
        Err(AllError::Memory) => false,
    }
}

fn is_first(found: Result<Readable<'_>, FirstError>, named: &[Fault]) -> bool {
    match (found, named.first()) {
        (Ok(readable), None) => has_both(&readable),
        (Err(FirstError::Fault(found)), Some(first)) => *first == found.fault(),
        _ => false,
    }
}

fn names_all<L: Ledger>(
    alloc: Global,
    image: &[u8; SIZE],
    named: &[Fault],
    steps: &mut Steps<L>,
) -> bool {
    match verify_all(alloc, image, steps) {
        Ok(_) => named.is_empty(),
        Err(AllError::Faults(list)) => is_list_of(&list, named),
        Err(AllError::Memory) => false,
    }
}

fn is_named<L: Ledger>(alloc: Global, image: &[u8; SIZE], case: &Case, blank: Blank) -> bool
    requires name { blank.name ≡ L.name }
    requires parts { blank.parts ≡ L.parts }
    requires one { L.parts ≡ 1 }
{
    let mut steps = Steps::<L>::new(blank);
    names_all(alloc, image, case.named, &mut steps)
        && are_all(
            verify_by::<NamedList, L>(alloc, image, Rows::AnyOrder, &mut steps),
            case.in_any_order,
        )
        && is_first(
            verify_by::<First, L>(alloc, image, Rows::AnyOrder, &mut steps),
            case.in_any_order,
        )
}

fn is_case(alloc: Global, case: &Case, order: Order) -> bool {
    let mut image = [0u8; SIZE];
    write(&mut image, &TWO_DATABASES, order);
    write(&mut image, case.fields, order);
    is_named::<Brand>(alloc, &image, case, Blank::new(1))
}

#[test]
fn takes_no_notice_of_order(rt: HostRuntime) {
    for case in &CASES {
        for order in [Order::Little, Order::Big] {
            assert!(rt; is_case(rt.alloc(), case, order));
        }
    }
}
