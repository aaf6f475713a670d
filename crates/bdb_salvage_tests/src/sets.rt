//! Sets off the page, whole and damaged.

use crate::images::{ROOTED_SET, SET};
use crate::told::{Case, is_given};
use test_images::Field;

const WHOLE: [Case; 4] = [
    Case {
        length: 2048,
        fields: &SET,
        changes: &[],
        pairs: &[(b"k", b"x"), (b"k", b"y")],
        loose: &[],
    },
    Case {
        length: 2560,
        fields: &ROOTED_SET,
        changes: &[],
        pairs: &[(b"k", b"x"), (b"k", b"y")],
        loose: &[],
    },
    // two pairs name it, the second with the key l
    Case {
        length: 2048,
        fields: &SET,
        changes: &[
            Field::Two(532, 4),
            Field::Two(542, 470),
            Field::Two(544, 450),
            Field::Two(982, 1),
            Field::Byte(984, 1),
            Field::Byte(985, 0x6c),
            Field::Byte(964, 2),
            Field::Four(966, 2),
        ],
        pairs: &[(b"k", b"x"), (b"k", b"y"), (b"l", b"x"), (b"l", b"y")],
        loose: &[],
    },
    // the pair is deleted, and its set isn't let go
    Case {
        length: 2048,
        fields: &SET,
        changes: &[Field::Byte(994, 0x82)],
        pairs: &[],
        loose: &[],
    },
];

// Changes of the set, by which it isn't whole.
const DAMAGED: [&[Field]; 5] = [
    // its first leaf names one before it
    &[Field::Four(1036, 5)],
    // its second leaf names another one before it
    &[Field::Four(1548, 1)],
    // it ends in a leaf of a wrong type
    &[Field::Byte(1561, 6)],
    // a ring
    &[Field::Four(1552, 2)],
    // the chain of the key isn't whole
    &[
        Field::Byte(1014, 3),
        Field::Two(538, 500),
        Field::Four(1016, 2),
        Field::Four(1020, 1),
    ],
];

// Changes of the set with a root.
const LOST: [&[Field]; 4] = [
    // the root has a fault: its level
    &[Field::Byte(2072, 1)],
    // its level is too high for a leaf below it
    &[Field::Byte(2072, 3)],
    // its first child isn't there, or is page 0
    &[Field::Four(2152, 9)],
    &[Field::Four(2152, 0)],
];

#[test]
fn gives_the_data_of_whole_sets(rt: HostRuntime) {
    for case in &WHOLE {
        assert!(rt; is_given(rt.alloc(), case));
    }
}

#[test]
fn lets_the_records_of_other_sets_go_as_loose(rt: HostRuntime) {
    for changes in &DAMAGED {
        let case = Case {
            length: 2048,
            fields: &SET,
            changes,
            pairs: &[],
            loose: &[b"x", b"y"],
        };
        assert!(rt; is_given(rt.alloc(), &case));
    }
    for changes in &LOST {
        let case = Case {
            length: 2560,
            fields: &ROOTED_SET,
            changes,
            pairs: &[],
            loose: &[b"x", b"y"],
        };
        assert!(rt; is_given(rt.alloc(), &case));
    }
}
