//! The verdict of the first two stages. Values: docs/FORMAT.md, "Faults".

use crate::fields::{BTREE, LEAF};
use bdb_format::{Fault, Order, Unsupported, Verdict};
use bdb_graph::open_image;
use std::alloc::Global;
use test_images::{Field, write};

const SIZE: usize = 512;

/// What is written over a file of three pages whose last is page 1, and its verdict.
#[derive(Clone, Copy)]
struct Case {
    fields: &'static [Field],
    verdict: Option<Verdict>,
}

const CASES: [Case; 9] = [
    Case {
        fields: &[],
        verdict: None,
    },
    // Version 10.
    Case {
        fields: &[Field::Four(16, 10)],
        verdict: Some(Verdict::Unsupported(Unsupported::Version, 0)),
    },
    // Pages of 65536 bytes.
    Case {
        fields: &[Field::Four(20, 65536)],
        verdict: Some(Verdict::Unsupported(Unsupported::LargePage, 0)),
    },
    // A last page that isn't there.
    Case {
        fields: &[Field::Four(32, 3)],
        verdict: Some(Verdict::Fault(Fault {
            stage: 1,
            page: 0,
            code: 11,
        })),
    },
    // A byte above the last page, before the level of page 1.
    Case {
        fields: &[Field::Byte(536, 2), Field::Byte(1535, 1)],
        verdict: Some(Verdict::Fault(Fault {
            stage: 1,
            page: 2,
            code: 12,
        })),
    },
    Case {
        fields: &[Field::Byte(536, 2)],
        verdict: Some(Verdict::Fault(Fault {
            stage: 2,
            page: 1,
            code: 20,
        })),
    },
    // The same where page 2 is the last, and has no number.
    Case {
        fields: &[
            Field::Four(32, 2),
            Field::Byte(536, 2),
            Field::Byte(1535, 1),
        ],
        verdict: Some(Verdict::Fault(Fault {
            stage: 2,
            page: 1,
            code: 20,
        })),
    },
    // The least page comes first, whatever its code: unknown flags, and a wrong number on page 1.
    Case {
        fields: &[Field::Four(48, 0x100), Field::Four(520, 7)],
        verdict: Some(Verdict::Fault(Fault {
            stage: 2,
            page: 0,
            code: 10,
        })),
    },
    Case {
        fields: &[Field::Four(48, 0x80)],
        verdict: Some(Verdict::Unsupported(Unsupported::Compression, 0)),
    },
];

fn verdict_of(alloc: Global, image: &[u8]) -> Option<Verdict> {
    if image.len() > 1 << 30 {
        return None;
    }
    match open_image(alloc, image) {
        Ok(_) => None,
        Err(verdict) => Some(verdict),
    }
}

fn image_of(fields: &[Field], order: Order) -> [u8; 3 * SIZE] {
    let mut image = [0u8; 3 * SIZE];
    write(&mut image, &BTREE, order);
    write(&mut image, &LEAF, order);
    write(&mut image, fields, order);
    image
}

#[test]
fn tells_the_first_fault(rt: HostRuntime) {
    for case in &CASES {
        for order in [Order::Little, Order::Big] {
            let image = image_of(case.fields, order);
            assert_eq!(rt; verdict_of(rt.alloc(), &image), case.verdict);
        }
    }
}

#[test]
fn tells_the_length(rt: HostRuntime) {
    let image = image_of(&[], Order::Little);
    for (length, code) in [(0, 1), (511, 1), (512, 11), (1023, 10), (1024, 0)] {
        let verdict = if code == 0 {
            None
        } else {
            Some(Verdict::Fault(Fault {
                stage: 1,
                page: 0,
                code,
            }))
        };
        assert_eq!(rt; verdict_of(rt.alloc(), &image[..length]), verdict);
    }
}
