//! Small files, little-endian, with pages of 512 bytes. Values: docs/FORMAT.md.

use crate::images::File;
use test_images::Field;

// A btree with its root on page 1, the last page.
pub const BTREE: [Field; 7] = [
    Field::Bytes(12, &[0x62, 0x31, 0x05, 0]), // magic number of page 0
    Field::Bytes(16, &[9]), // version
    Field::Bytes(20, &[0x00, 0x02]), // page size
    Field::Bytes(25, &[9]), // type
    Field::Bytes(32, &[1]), // last page
    Field::Bytes(76, &[2]), // least number of keys on a page
    Field::Bytes(88, &[1]), // root
];

// A leaf on page 1 with the one pair `a`, `b`.
pub const A_LEAF: [Field; 6] = [
    Field::Bytes(520, &[1]), // page number
    Field::Bytes(532, &[2, 0, 0xf8, 1]), // entries, high free offset
    Field::Bytes(536, &[1, 5]), // level, type
    Field::Bytes(538, &[0xfc, 1, 0xf8, 1]), // offsets: a key, then its data
    Field::Bytes(1016, &[1, 0, 1, 0x62]), // data b
    Field::Bytes(1020, &[1, 0, 1, 0x61]), // key a
];

pub const ONE_PAIR: File = File {
    length: 1024,
    parts: &[&BTREE, &A_LEAF],
};

/// A pair whose data are 40,000 bytes in a chain: all pages but those of the chain, which are 2 to 84.
pub const LONG_VALUE: File = File {
    length: 1024,
    parts: &[
        &BTREE,
        &A_LEAF,
        &[
            Field::Bytes(32, &[84]), // last page
            Field::Bytes(534, &[0xf0, 1]),
            Field::Bytes(540, &[0xf0, 1]), // offset of the data
            Field::Bytes(1008, &[0, 0, 3, 0, 2, 0, 0, 0, 0x40, 0x9c, 0, 0]), // data in a chain
        ],
    ],
};
