//! Btrees written a field a line, with what they list and what is found in them.

use test_images::Field;

/// A key with one of its data.
#[derive(Clone, Copy)]
pub struct Entry {
    pub key: &'static [u8],
    pub value: &'static [u8],
}

/// A page, and what is written over its zeros.
#[derive(Clone, Copy)]
pub struct Part {
    pub page: u8,
    pub fields: &'static [Field],
}

/// A btree, its list, and keys that it hasn't.
#[derive(Clone, Copy)]
pub struct Case {
    pub pages: usize,
    pub parts: &'static [Part],
    pub list: &'static [Entry],
    pub missing: &'static [&'static [u8]],
}

// A file of two pages.
pub const PLAIN: [Field; 6] = [
    Field::Four(12, 0x53162), // magic number
    Field::Four(16, 9), // version
    Field::Four(20, 0x200), // page size
    Field::Byte(25, 9), // type
    Field::Four(32, 1), // last page
    Field::Four(88, 1), // root
];

// The same with duplicates.
pub const DUPLICATES: [Field; 7] = [
    Field::Four(12, 0x53162), // magic number
    Field::Four(16, 9), // version
    Field::Four(20, 0x200), // page size
    Field::Byte(25, 9), // type
    Field::Four(32, 1), // last page
    Field::Four(48, 1), // flags
    Field::Four(88, 1), // root
];

// Three pages, with sorted duplicates.
pub const WITH_SORTED_SET: [Field; 7] = [
    Field::Four(12, 0x53162), // magic number
    Field::Four(16, 9), // version
    Field::Four(20, 0x200), // page size
    Field::Byte(25, 9), // type
    Field::Four(32, 2), // last page
    Field::Four(48, 65), // flags
    Field::Four(88, 1), // root
];

// Five pages, with duplicates in any order.
pub const WITH_SET: [Field; 7] = [
    Field::Four(12, 0x53162), // magic number
    Field::Four(16, 9), // version
    Field::Four(20, 0x200), // page size
    Field::Byte(25, 9), // type
    Field::Four(32, 4), // last page
    Field::Four(48, 1), // flags
    Field::Four(88, 1), // root
];

// Five pages.
pub const WITH_CHAINS: [Field; 6] = [
    Field::Four(12, 0x53162), // magic number
    Field::Four(16, 9), // version
    Field::Four(20, 0x200), // page size
    Field::Byte(25, 9), // type
    Field::Four(32, 4), // last page
    Field::Four(88, 1), // root
];

// Eight pages.
pub const WITH_LEVELS: [Field; 6] = [
    Field::Four(12, 0x53162), // magic number
    Field::Four(16, 9), // version
    Field::Four(20, 0x200), // page size
    Field::Byte(25, 9), // type
    Field::Four(32, 7), // last page
    Field::Four(88, 1), // root
];

// Keys 61 and 6100, with data 31 and 32.
pub const TWO_KEYS: [Field; 20] = [
    Field::Four(8, 1), // page number
    Field::Two(20, 4), // entries
    Field::Byte(24, 1), // level
    Field::Byte(25, 5), // leaf
    Field::Two(26, 0x1fc), // offsets
    Field::Two(28, 0x1f8),
    Field::Two(30, 0x1f0),
    Field::Two(32, 0x1ec),
    Field::Two(508, 1), // key 61
    Field::Byte(510, 1),
    Field::Byte(511, 0x61),
    Field::Two(504, 1), // its data
    Field::Byte(506, 1),
    Field::Byte(507, 0x31),
    Field::Two(496, 2), // key 6100
    Field::Byte(498, 1),
    Field::Byte(499, 0x61),
    Field::Two(492, 1), // its data
    Field::Byte(494, 1),
    Field::Byte(495, 0x32),
];

// The data of key 61 are marked deleted.
pub const FIRST_DELETED: [Field; 1] = [Field::Byte(506, 0x81)];

// Both data are.
pub const BOTH_DELETED: [Field; 2] = [Field::Byte(506, 0x81), Field::Byte(494, 0x81)];

// Three pairs share the key 61, and one has the key 62.
pub const SHARED: [Field; 30] = [
    Field::Four(8, 1), // page number
    Field::Two(20, 8), // entries
    Field::Byte(24, 1), // level
    Field::Byte(25, 5), // leaf
    Field::Two(26, 0x1fc), // offsets
    Field::Two(28, 0x1f8),
    Field::Two(30, 0x1fc),
    Field::Two(32, 0x1f4),
    Field::Two(34, 0x1fc),
    Field::Two(36, 0x1f0),
    Field::Two(38, 0x1ec),
    Field::Two(40, 0x1e8),
    Field::Two(508, 1), // the key of three pairs
    Field::Byte(510, 1),
    Field::Byte(511, 0x61),
    Field::Two(504, 1), // their data
    Field::Byte(506, 1),
    Field::Byte(507, 0x31),
    Field::Two(500, 1),
    Field::Byte(502, 1),
    Field::Byte(503, 0x32),
    Field::Two(496, 1),
    Field::Byte(498, 1),
    Field::Byte(499, 0x33),
    Field::Two(492, 1), // key 62
    Field::Byte(494, 1),
    Field::Byte(495, 0x62),
    Field::Two(488, 1), // its data
    Field::Byte(490, 1),
    Field::Byte(491, 0x34),
];

// The second of the three is marked deleted.
pub const ONE_DELETED: [Field; 1] = [Field::Byte(502, 0x81)];

// A leaf without pairs.
pub const EMPTY: [Field; 3] = [
    Field::Four(8, 1), // page number
    Field::Byte(24, 1), // level
    Field::Byte(25, 5), // leaf
];

// The data of key 61 are a set off the page.
pub const HAS_SET: [Field; 19] = [
    Field::Four(8, 1), // page number
    Field::Two(20, 4), // entries
    Field::Byte(24, 1), // level
    Field::Byte(25, 5), // leaf
    Field::Two(26, 0x1fc), // offsets
    Field::Two(28, 0x1f0),
    Field::Two(30, 0x1ec),
    Field::Two(32, 0x1e8),
    Field::Two(508, 1), // key 61
    Field::Byte(510, 1),
    Field::Byte(511, 0x61),
    Field::Byte(498, 2), // a set off the page
    Field::Four(500, 2), // its root
    Field::Two(492, 1), // key 62
    Field::Byte(494, 1),
    Field::Byte(495, 0x62),
    Field::Two(488, 1), // its data
    Field::Byte(490, 1),
    Field::Byte(491, 0x34),
];

// A set of 31, 32 that is deleted, and 33.
pub const SORTED_SET: [Field; 16] = [
    Field::Four(8, 2), // page number
    Field::Two(20, 3), // entries
    Field::Byte(24, 1), // level
    Field::Byte(25, 0xc), // sorted data
    Field::Two(26, 0x1fc), // offsets
    Field::Two(28, 0x1f8),
    Field::Two(30, 0x1f4),
    Field::Two(508, 1),
    Field::Byte(510, 1),
    Field::Byte(511, 0x31),
    Field::Two(504, 1), // deleted
    Field::Byte(506, 0x81),
    Field::Byte(507, 0x32),
    Field::Two(500, 1),
    Field::Byte(502, 1),
    Field::Byte(503, 0x33),
];

// The root of a set, above pages 3 and 4.
pub const SET_ROOT: [Field; 8] = [
    Field::Four(8, 2), // page number
    Field::Two(20, 2), // entries
    Field::Byte(24, 2), // level
    Field::Byte(25, 4), // internal
    Field::Two(26, 0x1f8), // offsets
    Field::Two(28, 0x1f0),
    Field::Four(504, 3), // child
    Field::Four(496, 4), // child
];

// Its first data.
pub const SET_FIRST: [Field; 13] = [
    Field::Four(8, 3), // page number
    Field::Four(16, 4), // next
    Field::Two(20, 2), // entries
    Field::Byte(24, 1), // level
    Field::Byte(25, 6), // data
    Field::Two(26, 0x1fc), // offsets
    Field::Two(28, 0x1f8),
    Field::Two(508, 1),
    Field::Byte(510, 1),
    Field::Byte(511, 0x33),
    Field::Two(504, 1),
    Field::Byte(506, 1),
    Field::Byte(507, 0x31),
];

// Its last data.
pub const SET_LAST: [Field; 13] = [
    Field::Four(8, 4), // page number
    Field::Four(12, 3), // previous
    Field::Two(20, 2), // entries
    Field::Byte(24, 1), // level
    Field::Byte(25, 6), // data
    Field::Two(26, 0x1fc), // offsets
    Field::Two(28, 0x1f8),
    Field::Two(508, 1), // deleted
    Field::Byte(510, 0x81),
    Field::Byte(511, 0x32),
    Field::Two(504, 1),
    Field::Byte(506, 1),
    Field::Byte(507, 0x30),
];

// The data of key 61 and the key after it are chains.
pub const HAS_CHAINS: [Field; 20] = [
    Field::Four(8, 1), // page number
    Field::Two(20, 4), // entries
    Field::Byte(24, 1), // level
    Field::Byte(25, 5), // leaf
    Field::Two(26, 0x1fc), // offsets
    Field::Two(28, 0x1f0),
    Field::Two(30, 0x1e4),
    Field::Two(32, 0x1e0),
    Field::Two(508, 1), // key 61
    Field::Byte(510, 1),
    Field::Byte(511, 0x61),
    Field::Byte(498, 3), // a chain
    Field::Four(500, 2), // its first page
    Field::Four(504, 3), // its length
    Field::Byte(486, 3), // a chain is a key
    Field::Four(488, 4), // its first page
    Field::Four(492, 3), // its length
    Field::Two(480, 1), // its data
    Field::Byte(482, 1),
    Field::Byte(483, 0x34),
];

// The first page of a chain, with 31 and 32.
pub const CHAIN_FIRST: [Field; 7] = [
    Field::Four(8, 2), // page number
    Field::Four(16, 3), // next
    Field::Two(20, 1), // references
    Field::Two(22, 2), // bytes
    Field::Byte(25, 7), // overflow
    Field::Byte(26, 0x31),
    Field::Byte(27, 0x32),
];

// The last page, with 33.
pub const CHAIN_LAST: [Field; 5] = [
    Field::Four(8, 3), // page number
    Field::Four(12, 2), // previous
    Field::Two(22, 1), // bytes
    Field::Byte(25, 7), // overflow
    Field::Byte(26, 0x33),
];

// A chain of one page, with 62, 63 and 64.
pub const CHAIN_KEY: [Field; 7] = [
    Field::Four(8, 4), // page number
    Field::Two(20, 1), // references
    Field::Two(22, 3), // bytes
    Field::Byte(25, 7), // overflow
    Field::Byte(26, 0x62),
    Field::Byte(27, 0x63),
    Field::Byte(28, 0x64),
];

// The root of three levels: keys from 66 on are below page 3.
pub const TOP: [Field; 12] = [
    Field::Four(8, 1), // page number
    Field::Two(20, 2), // entries
    Field::Byte(24, 3), // level
    Field::Byte(25, 3), // internal
    Field::Two(26, 0x1f0), // offsets
    Field::Two(28, 0x1dc),
    Field::Byte(498, 1), // an empty key
    Field::Four(500, 2), // child
    Field::Two(476, 1), // key 66
    Field::Byte(478, 1),
    Field::Four(480, 3), // child
    Field::Byte(488, 0x66),
];

// Keys from 64 on are below page 5.
pub const LEFT: [Field; 12] = [
    Field::Four(8, 2), // page number
    Field::Two(20, 2), // entries
    Field::Byte(24, 2), // level
    Field::Byte(25, 3), // internal
    Field::Two(26, 0x1f0), // offsets
    Field::Two(28, 0x1dc),
    Field::Byte(498, 1), // an empty key
    Field::Four(500, 4), // child
    Field::Two(476, 1), // key 64
    Field::Byte(478, 1),
    Field::Four(480, 5), // child
    Field::Byte(488, 0x64),
];

// Keys from 68 on are below page 7.
pub const RIGHT: [Field; 12] = [
    Field::Four(8, 3), // page number
    Field::Two(20, 2), // entries
    Field::Byte(24, 2), // level
    Field::Byte(25, 3), // internal
    Field::Two(26, 0x1f0), // offsets
    Field::Two(28, 0x1dc),
    Field::Byte(498, 1), // an empty key
    Field::Four(500, 6), // child
    Field::Two(476, 1), // key 68
    Field::Byte(478, 1),
    Field::Four(480, 7), // child
    Field::Byte(488, 0x68),
];

// One pair, with key 62.
pub const LEAF_62: [Field; 13] = [
    Field::Four(8, 4), // page number
    Field::Four(16, 5), // next
    Field::Two(20, 2), // entries
    Field::Byte(24, 1), // level
    Field::Byte(25, 5), // leaf
    Field::Two(26, 0x1fc), // offsets
    Field::Two(28, 0x1f8),
    Field::Two(508, 1),
    Field::Byte(510, 1),
    Field::Byte(511, 0x62),
    Field::Two(504, 1),
    Field::Byte(506, 1),
    Field::Byte(507, 0x32),
];

// One pair, with key 64.
pub const LEAF_64: [Field; 14] = [
    Field::Four(8, 5), // page number
    Field::Four(12, 4), // previous
    Field::Four(16, 6), // next
    Field::Two(20, 2), // entries
    Field::Byte(24, 1), // level
    Field::Byte(25, 5), // leaf
    Field::Two(26, 0x1fc), // offsets
    Field::Two(28, 0x1f8),
    Field::Two(508, 1),
    Field::Byte(510, 1),
    Field::Byte(511, 0x64),
    Field::Two(504, 1),
    Field::Byte(506, 1),
    Field::Byte(507, 0x34),
];

// One pair, with key 66.
pub const LEAF_66: [Field; 14] = [
    Field::Four(8, 6), // page number
    Field::Four(12, 5), // previous
    Field::Four(16, 7), // next
    Field::Two(20, 2), // entries
    Field::Byte(24, 1), // level
    Field::Byte(25, 5), // leaf
    Field::Two(26, 0x1fc), // offsets
    Field::Two(28, 0x1f8),
    Field::Two(508, 1),
    Field::Byte(510, 1),
    Field::Byte(511, 0x66),
    Field::Two(504, 1),
    Field::Byte(506, 1),
    Field::Byte(507, 0x36),
];

// One pair, with key 68.
pub const LEAF_68: [Field; 13] = [
    Field::Four(8, 7), // page number
    Field::Four(12, 6), // previous
    Field::Two(20, 2), // entries
    Field::Byte(24, 1), // level
    Field::Byte(25, 5), // leaf
    Field::Two(26, 0x1fc), // offsets
    Field::Two(28, 0x1f8),
    Field::Two(508, 1),
    Field::Byte(510, 1),
    Field::Byte(511, 0x68),
    Field::Two(504, 1),
    Field::Byte(506, 1),
    Field::Byte(507, 0x38),
];

pub const CASES: [Case; 10] = [
    Case {
        pages: 2,
        parts: &[
            Part {
                page: 0,
                fields: &PLAIN,
            },
            Part {
                page: 1,
                fields: &TWO_KEYS,
            },
        ],
        list: &[
            Entry {
                key: &[0x61],
                value: &[0x31],
            },
            Entry {
                key: &[0x61, 0],
                value: &[0x32],
            },
        ],
        missing: &[&[], &[0x60], &[0x61, 0, 0], &[0x61, 1], &[0x62]],
    },
    Case {
        pages: 2,
        parts: &[
            Part {
                page: 0,
                fields: &PLAIN,
            },
            Part {
                page: 1,
                fields: &TWO_KEYS,
            },
            Part {
                page: 1,
                fields: &FIRST_DELETED,
            },
        ],
        list: &[Entry {
            key: &[0x61, 0],
            value: &[0x32],
        }],
        missing: &[&[0x61]],
    },
    Case {
        pages: 2,
        parts: &[
            Part {
                page: 0,
                fields: &PLAIN,
            },
            Part {
                page: 1,
                fields: &TWO_KEYS,
            },
            Part {
                page: 1,
                fields: &BOTH_DELETED,
            },
        ],
        list: &[],
        missing: &[&[0x61], &[0x61, 0]],
    },
    Case {
        pages: 2,
        parts: &[
            Part {
                page: 0,
                fields: &PLAIN,
            },
            Part {
                page: 1,
                fields: &EMPTY,
            },
        ],
        list: &[],
        missing: &[&[], &[0x61]],
    },
    Case {
        pages: 2,
        parts: &[
            Part {
                page: 0,
                fields: &DUPLICATES,
            },
            Part {
                page: 1,
                fields: &SHARED,
            },
        ],
        list: &[
            Entry {
                key: &[0x61],
                value: &[0x31],
            },
            Entry {
                key: &[0x61],
                value: &[0x32],
            },
            Entry {
                key: &[0x61],
                value: &[0x33],
            },
            Entry {
                key: &[0x62],
                value: &[0x34],
            },
        ],
        missing: &[&[0x60], &[0x61, 0]],
    },
    Case {
        pages: 2,
        parts: &[
            Part {
                page: 0,
                fields: &DUPLICATES,
            },
            Part {
                page: 1,
                fields: &SHARED,
            },
            Part {
                page: 1,
                fields: &ONE_DELETED,
            },
        ],
        list: &[
            Entry {
                key: &[0x61],
                value: &[0x31],
            },
            Entry {
                key: &[0x61],
                value: &[0x33],
            },
            Entry {
                key: &[0x62],
                value: &[0x34],
            },
        ],
        missing: &[&[0x63]],
    },
    Case {
        pages: 3,
        parts: &[
            Part {
                page: 0,
                fields: &WITH_SORTED_SET,
            },
            Part {
                page: 1,
                fields: &HAS_SET,
            },
            Part {
                page: 2,
                fields: &SORTED_SET,
            },
        ],
        list: &[
            Entry {
                key: &[0x61],
                value: &[0x31],
            },
            Entry {
                key: &[0x61],
                value: &[0x33],
            },
            Entry {
                key: &[0x62],
                value: &[0x34],
            },
        ],
        missing: &[&[0x31], &[0x32]],
    },
    Case {
        pages: 5,
        parts: &[
            Part {
                page: 0,
                fields: &WITH_SET,
            },
            Part {
                page: 1,
                fields: &HAS_SET,
            },
            Part {
                page: 2,
                fields: &SET_ROOT,
            },
            Part {
                page: 3,
                fields: &SET_FIRST,
            },
            Part {
                page: 4,
                fields: &SET_LAST,
            },
        ],
        list: &[
            Entry {
                key: &[0x61],
                value: &[0x33],
            },
            Entry {
                key: &[0x61],
                value: &[0x31],
            },
            Entry {
                key: &[0x61],
                value: &[0x30],
            },
            Entry {
                key: &[0x62],
                value: &[0x34],
            },
        ],
        missing: &[&[0x30]],
    },
    Case {
        pages: 5,
        parts: &[
            Part {
                page: 0,
                fields: &WITH_CHAINS,
            },
            Part {
                page: 1,
                fields: &HAS_CHAINS,
            },
            Part {
                page: 2,
                fields: &CHAIN_FIRST,
            },
            Part {
                page: 3,
                fields: &CHAIN_LAST,
            },
            Part {
                page: 4,
                fields: &CHAIN_KEY,
            },
        ],
        list: &[
            Entry {
                key: &[0x61],
                value: &[0x31, 0x32, 0x33],
            },
            Entry {
                key: &[0x62, 0x63, 0x64],
                value: &[0x34],
            },
        ],
        missing: &[&[0x62, 0x63], &[0x62, 0x63, 0x64, 0]],
    },
    Case {
        pages: 8,
        parts: &[
            Part {
                page: 0,
                fields: &WITH_LEVELS,
            },
            Part {
                page: 1,
                fields: &TOP,
            },
            Part {
                page: 2,
                fields: &LEFT,
            },
            Part {
                page: 3,
                fields: &RIGHT,
            },
            Part {
                page: 4,
                fields: &LEAF_62,
            },
            Part {
                page: 5,
                fields: &LEAF_64,
            },
            Part {
                page: 6,
                fields: &LEAF_66,
            },
            Part {
                page: 7,
                fields: &LEAF_68,
            },
        ],
        list: &[
            Entry {
                key: &[0x62],
                value: &[0x32],
            },
            Entry {
                key: &[0x64],
                value: &[0x34],
            },
            Entry {
                key: &[0x66],
                value: &[0x36],
            },
            Entry {
                key: &[0x68],
                value: &[0x38],
            },
        ],
        missing: &[
            &[],
            &[0x61],
            &[0x62, 0],
            &[0x63],
            &[0x65],
            &[0x67],
            &[0x69],
            &[0xff],
        ],
    },
];
