//! All faults of the first faulty stage. Values: docs/FORMAT.md, "Faults".

ghost use Rattle.std.specs.Prelude.{◌≡◌, ◌≤◌, ◌^◌, length};

use crate::linking::{PAIR, TREE};
use bdb_format::{Fault, Named, Order, Steps, Unsupported};
use bdb_graph::{link_all, open_all};
use std::alloc::Global;
use std::marker::Brand;
use std::sync::ledger::{Blank, Ledger};
use test_images::{AllError, Field, is_list_of, write};

const SIZE: usize = 5 * 512;

/// What is written over zeros, and what is named of it.
#[derive(Clone, Copy)]
struct Case {
    base: &'static [Field],
    fields: &'static [Field],
    named: &'static [Fault],
}

const CASES: [Case; 7] = [
    Case {
        base: &PAIR,
        fields: &[],
        named: &[],
    },
    // Two pages above the last one that aren't zero pages, beside a wrong level of page 1.
    Case {
        base: &PAIR,
        fields: &[
            Field::Byte(1535, 1),
            Field::Byte(2559, 1),
            Field::Byte(536, 2),
        ],
        named: &[
            Fault {
                stage: 1,
                page: 2,
                code: 12,
            },
            Fault {
                stage: 1,
                page: 4,
                code: 12,
            },
        ],
    },
    // Two pages with a fault of form, beside a root that isn't there.
    Case {
        base: &TREE,
        fields: &[
            Field::Four(88, 9),
            Field::Four(1032, 7),
            Field::Four(1544, 7),
        ],
        named: &[
            Fault {
                stage: 2,
                page: 2,
                code: 1,
            },
            Fault {
                stage: 2,
                page: 3,
                code: 1,
            },
        ],
    },
    // An internal page whose first item names page 0, and the second that page itself.
    Case {
        base: &TREE,
        fields: &[Field::Four(1012, 0), Field::Four(980, 1)],
        named: &[
            Fault {
                stage: 3,
                page: 1,
                code: 1,
            },
            Fault {
                stage: 3,
                page: 1,
                code: 2,
            },
        ],
    },
    // Both items of the root name leaf 2.
    Case {
        base: &TREE,
        fields: &[Field::Four(980, 2)],
        named: &[
            Fault {
                stage: 4,
                page: 2,
                code: 2,
            },
            Fault {
                stage: 4,
                page: 3,
                code: 1,
            },
        ],
    },
    // Two overflow pages that are each its own next.
    Case {
        base: &PAIR,
        fields: &[
            Field::Four(32, 3),
            Field::Four(1032, 2),
            Field::Four(1036, 2),
            Field::Four(1040, 2),
            Field::Byte(1049, 7),
            Field::Four(1544, 3),
            Field::Four(1548, 3),
            Field::Four(1552, 3),
            Field::Byte(1561, 7),
        ],
        named: &[
            Fault {
                stage: 5,
                page: 2,
                code: 1,
            },
            Fault {
                stage: 5,
                page: 3,
                code: 1,
            },
        ],
    },
    // A case that isn't supported, beside a fault of form on page 1.
    Case {
        base: &PAIR,
        fields: &[Field::Four(48, 0x80), Field::Four(520, 7)],
        named: &[
            // Compression
            Fault {
                stage: 2,
                page: 0,
                code: 9,
            },
            Fault {
                stage: 2,
                page: 1,
                code: 1,
            },
        ],
    },
];

fn judge<L: Ledger>(alloc: Global, image: &[u8], steps: &mut Steps<L>) -> Result<(), AllError>
    requires { length image.now ≤ 2 ^ 30 }
{
    let formed = open_all(alloc, image)?;
    link_all(alloc, formed, steps)?;
    Ok(())
}

fn judge_counted<L: Ledger>(alloc: Global, image: &[u8], blank: Blank) -> Result<(), AllError>
    requires size { length image.now ≤ 2 ^ 30 }
    requires name { blank.name ≡ L.name }
    requires parts { blank.parts ≡ L.parts }
    requires one { L.parts ≡ 1 }
{
    let mut steps = Steps::<L>::new(blank);
    judge(alloc, image, &mut steps)
}

fn judge_of(alloc: Global, case: &Case, order: Order) -> Result<(), AllError> {
    let mut image = [0u8; SIZE];
    write(&mut image, case.base, order);
    write(&mut image, case.fields, order);
    judge_counted::<Brand>(alloc, &image, Blank::new(1))
}

/// Whether these, and no others, are named of a file.
fn names(judged: Result<(), AllError>, named: &[Fault]) -> bool {
    match judged {
        Ok(()) => named.is_empty(),
        Err(AllError::Faults(list)) => is_list_of(&list, named),
        Err(AllError::Memory) => false,
    }
}

#[test]
fn names_all_faults_of_the_first_faulty_stage(rt: HostRuntime) {
    for case in &CASES {
        for order in [Order::Little, Order::Big] {
            assert!(rt; names(judge_of(rt.alloc(), case, order), case.named));
        }
    }
}
