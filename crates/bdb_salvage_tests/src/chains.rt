//! Chains, whole and damaged.

ghost use Rattle.std.specs.Prelude.{◌≡◌};

use crate::images::CHAIN;
use crate::told::{Case, is_given};
use bdb_salvage::{Bytes, Datum, Guess, Order, Steps, chain_of};
use std::alloc::Global;
use std::marker::Brand;
use std::sync::ledger::{Blank, Ledger};
use test_images::{Field, write};

const WHOLE: Case = Case {
    length: 2048,
    fields: &CHAIN,
    changes: &[],
    pairs: &[(b"k", b"abcde")],
    loose: &[],
};

const DAMAGED: [&[Field]; 8] = [
    // it ends early
    &[Field::Four(1040, 0)],
    // it is a byte longer than its total, and a byte shorter
    &[Field::Four(1000, 4)],
    &[Field::Four(1000, 6)],
    // its second page names another one before it
    &[Field::Four(1548, 1)],
    // its first page names one
    &[Field::Four(1036, 3)],
    // a ring
    &[Field::Four(1552, 2)],
    // its data go past the page's end
    &[Field::Two(1558, 487)],
    // its second page isn't there
    &[Field::Four(1040, 4)],
];

#[test]
fn gives_nothing_of_a_damaged_chain(rt: HostRuntime) {
    assert!(rt; is_given(rt.alloc(), &WHOLE));
    for changes in &DAMAGED {
        let case = Case {
            changes,
            pairs: &[],
            ..WHOLE
        };
        assert!(rt; is_given(rt.alloc(), &case));
    }
}

// Chains with fewer bytes than pages, and one with as many.
const THIN: [Case; 4] = [
    Case {
        changes: &[
            Field::Four(1000, 0),
            Field::Two(1046, 0),
            Field::Two(1558, 0),
        ],
        pairs: &[(b"k", b"")],
        ..WHOLE
    },
    Case {
        changes: &[
            Field::Four(1000, 1),
            Field::Two(1046, 0),
            Field::Two(1558, 1),
        ],
        pairs: &[(b"k", b"d")],
        ..WHOLE
    },
    Case {
        changes: &[
            Field::Four(1000, 1),
            Field::Two(1046, 1),
            Field::Two(1558, 0),
        ],
        pairs: &[(b"k", b"a")],
        ..WHOLE
    },
    Case {
        changes: &[
            Field::Four(1000, 2),
            Field::Two(1046, 1),
            Field::Two(1558, 1),
        ],
        pairs: &[(b"k", b"ad")],
        ..WHOLE
    },
];

#[test]
fn gives_the_bytes_of_a_chain_with_blank_pages(rt: HostRuntime) {
    for case in &THIN {
        assert!(rt; is_given(rt.alloc(), case));
    }
}

/// The value of a chain, if it's whole.
fn value<L: Ledger>(
    alloc: Global,
    image: &[u8],
    order: Order,
    head: u32,
    total: u32,
    blank: Blank,
) -> Option<Bytes>
    requires name { blank.name ≡ L.name }
    requires parts { blank.parts ≡ L.parts }
    requires one { L.parts ≡ 1 }
{
    if image.len() > 2048 {
        return None;
    }
    let mut steps = Steps::<L>::new(blank);
    let page_size = 512;
    let pieces = chain_of(image, Guess { order, page_size }, head, total, &mut steps)?;
    Datum::Chained(pieces).copy(alloc).ok()
}

fn is_whole(alloc: Global, order: Order, head: u32, total: u32) -> bool {
    let mut image = [0u8; 2048];
    write(&mut image, &CHAIN, order);
    match value::<Brand>(alloc, &image, order, head, total, Blank::new(1)) {
        Some(value) => value.as_slice() == b"abcde".as_slice(),
        None => false,
    }
}

#[test]
fn finds_a_chain_by_its_head(rt: HostRuntime) {
    for order in [Order::Little, Order::Big] {
        assert!(rt; is_whole(rt.alloc(), order, 2, 5));
        assert!(rt; !is_whole(rt.alloc(), order, 2, 6));
        assert!(rt; !is_whole(rt.alloc(), order, 3, 2));
        assert!(rt; !is_whole(rt.alloc(), order, 0, 0));
        assert!(rt; !is_whole(rt.alloc(), order, 4, 0));
    }
}
