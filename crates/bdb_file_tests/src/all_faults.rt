//! All faults of the first faulty stage of a whole file. Values: docs/FORMAT.md, "Faults".

ghost use Rattle.std.specs.Prelude.{◌≡◌};

use crate::files::TWO_DATABASES;
use crate::judging::SIZE;
use bdb_file::{AllError, verify_all};
use bdb_format::{Fault, Order, Steps};
use std::alloc::Global;
use std::marker::Brand;
use std::sync::ledger::{Blank, Ledger};
use test_images::{Field, is_list_of, write};

/// What is written over the file of two databases, and what is named of it.
#[derive(Clone, Copy)]
struct Case {
    fields: &'static [Field],
    named: &'static [Fault],
}

const CASES: [Case; 6] = [
    Case {
        fields: &[],
        named: &[],
    },
    // The number of page 3, and a compressed btree on page 2.
    Case {
        fields: &[Field::Four(1544, 9), Field::Four(1072, 0x80)],
        named: &[
            // Compression
            Fault {
                stage: 2,
                page: 2,
                code: 9,
            },
            Fault {
                stage: 2,
                page: 3,
                code: 1,
            },
        ],
    },
    // The leaves of the master and of a name neighbours, beside a wrong page of b.
    Case {
        fields: &[
            Field::Four(524, 3),
            Field::Four(1552, 1),
            Field::Byte(1006, 0),
        ],
        named: &[
            Fault {
                stage: 6,
                page: 1,
                code: 3,
            },
            Fault {
                stage: 6,
                page: 3,
                code: 3,
            },
        ],
    },
    // b names page 2 as well, so that page 4 has no name.
    Case {
        fields: &[Field::Byte(1006, 2)],
        named: &[
            Fault {
                stage: 7,
                page: 2,
                code: 5,
            },
            Fault {
                stage: 7,
                page: 4,
                code: 1,
            },
        ],
    },
    // b's page in low order first.
    Case {
        fields: &[Field::Byte(1003, 4), Field::Byte(1006, 0)],
        named: &[
            Fault {
                stage: 7,
                page: 1,
                code: 3,
            },
            Fault {
                stage: 7,
                page: 4,
                code: 1,
            },
        ],
    },
    // The names out of order, and a key of bucket 1 in bucket 0, on page 5.
    Case {
        fields: &[
            Field::Byte(1011, 0x60),
            Field::Two(2580, 2), // entries
            Field::Two(2586, 510), // the key
            Field::Byte(3070, 1),
            Field::Byte(3071, 0x63),
            Field::Two(2588, 508), // the data
            Field::Byte(3068, 1),
            Field::Byte(3069, 0x64),
        ],
        named: &[
            Fault {
                stage: 8,
                page: 1,
                code: 3,
            },
            Fault {
                stage: 8,
                page: 5,
                code: 8,
            },
        ],
    },
];

fn names_counted<L: Ledger>(
    alloc: Global,
    image: &[u8; SIZE],
    named: &[Fault],
    blank: Blank,
) -> bool
    requires name { blank.name ≡ L.name }
    requires parts { blank.parts ≡ L.parts }
    requires one { L.parts ≡ 1 }
{
    let mut steps = Steps::<L>::new(blank);
    match verify_all(alloc, image, &mut steps) {
        Ok(_) => named.is_empty(),
        Err(AllError::Faults(list)) => is_list_of(&list, named),
        Err(AllError::Memory) => false,
    }
}

fn is_as_named(alloc: Global, case: &Case, order: Order) -> bool {
    let mut image = [0u8; SIZE];
    write(&mut image, &TWO_DATABASES, order);
    write(&mut image, case.fields, order);
    names_counted::<Brand>(alloc, &image, case.named, Blank::new(1))
}

#[test]
fn names_all_faults_of_a_file(rt: HostRuntime) {
    for case in &CASES {
        for order in [Order::Little, Order::Big] {
            assert!(rt; is_as_named(rt.alloc(), case, order));
        }
    }
}
