//! Leaves by themselves, and what page 0 tells.

use crate::images::{LEAF, LOST_LEAF, RECORDS};
use crate::told::{Case, is_given, is_told, tells_none};
use test_images::Field;

const TOLD: [Case; 3] = [
    // a leaf that nothing names
    Case {
        length: 2048,
        fields: &LOST_LEAF,
        changes: &[],
        pairs: &[(b"a", b"1"), (b"b", b"2")],
        loose: &[],
    },
    // the last piece is a byte short of a page
    Case {
        length: 2047,
        fields: &LOST_LEAF,
        changes: &[],
        pairs: &[(b"a", b"1")],
        loose: &[],
    },
    // the deleted record isn't loose
    Case {
        length: 1024,
        fields: &RECORDS,
        changes: &[],
        pairs: &[],
        loose: &[b"a", b"c"],
    },
];

const GIVEN: [Case; 7] = [
    // page 0 is a leaf
    Case {
        length: 512,
        fields: &LEAF,
        changes: &[],
        pairs: &[(b"k", b"v")],
        loose: &[],
    },
    // its number isn't looked at
    Case {
        length: 512,
        fields: &LEAF,
        changes: &[Field::Four(8, 77)],
        pairs: &[(b"k", b"v")],
        loose: &[],
    },
    // a deleted pair
    Case {
        length: 512,
        fields: &LEAF,
        changes: &[Field::Byte(492, 0x81)],
        pairs: &[],
        loose: &[],
    },
    // an odd number of entries
    Case {
        length: 512,
        fields: &LEAF,
        changes: &[Field::Two(20, 1)],
        pairs: &[],
        loose: &[],
    },
    // data that go past the page's end
    Case {
        length: 512,
        fields: &LEAF,
        changes: &[Field::Two(490, 20)],
        pairs: &[],
        loose: &[],
    },
    // no page
    Case {
        length: 511,
        fields: &LEAF,
        changes: &[],
        pairs: &[],
        loose: &[],
    },
    // page 0 is no metadata, and a guess is given
    Case {
        length: 2048,
        fields: &LOST_LEAF,
        changes: &[Field::Four(12, 0)],
        pairs: &[(b"a", b"1"), (b"b", b"2")],
        loose: &[],
    },
];

#[test]
fn gives_what_leaves_hold(rt: HostRuntime) {
    for case in &TOLD {
        assert!(rt; is_told(rt.alloc(), case));
        assert!(rt; is_given(rt.alloc(), case));
    }
    for case in &GIVEN {
        assert!(rt; is_given(rt.alloc(), case));
    }
}

#[test]
fn refuses_where_page_0_tells_no_guess(rt: HostRuntime) {
    assert!(rt; tells_none(rt.alloc(), 2048, &LOST_LEAF, &[Field::Four(12, 0)]));
    assert!(rt; tells_none(rt.alloc(), 2048, &LOST_LEAF, &[Field::Four(20, 500)]));
    assert!(rt; tells_none(rt.alloc(), 2048, &LOST_LEAF, &[Field::Four(20, 65536)]));
    assert!(rt; tells_none(rt.alloc(), 23, &LOST_LEAF, &[]));
    assert!(rt; tells_none(rt.alloc(), 0, &LOST_LEAF, &[]));
}
