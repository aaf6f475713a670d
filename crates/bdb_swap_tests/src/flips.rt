//! Files of each kind, a field a line. Values: docs/FORMAT.md, "Metadata pages" to "Items" and "The other byte order".

use crate::told::{Told, outcome};
use bdb_swap::Order;
use test_images::Field;

/// A file of so many pages, as what is written over zeros.
#[derive(Clone, Copy)]
struct Sample {
    pages: usize,
    fields: &'static [Field],
}

/// A master on pages 0 and 1, which names an empty btree, `a`, on page 2 with the leaf 3. The number of a page is in high order first in
/// both orders.
const MASTER: [Field; 29] = [
    Field::Four(0, 1), // LSN
    Field::Four(4, 28),
    Field::Four(12, 0x053162), // magic number of page 0
    Field::Four(16, 9), // version
    Field::Four(20, 512), // page size
    Field::Byte(25, 9), // type
    Field::Four(32, 3), // last page
    Field::Four(48, 0x20), // flags
    Field::Four(88, 1), // root
    Field::Four(520, 1), // page 1
    Field::Two(532, 2), // entries
    Field::Byte(536, 1), // level
    Field::Byte(537, 5), // leaf
    Field::Two(538, 508), // offsets: a key, then its data
    Field::Two(540, 500),
    Field::Two(1020, 1), // key a
    Field::Byte(1022, 1),
    Field::Byte(1023, 0x61),
    Field::Two(1012, 4), // its page
    Field::Byte(1014, 1),
    Field::Bytes(1015, &[0, 0, 0, 2]),
    Field::Four(1032, 2), // page 2
    Field::Four(1036, 0x053162),
    Field::Four(1040, 9),
    Field::Four(1044, 512),
    Field::Byte(1049, 9),
    Field::Four(1112, 3), // root
    Field::Four(1544, 3), // page 3
    Field::Bytes(1560, &[1, 5]), // level, type
];

/// A btree with a separator and a key in one chain.
const CHAIN: [Field; 55] = [
    Field::Four(12, 0x053162), // magic number of page 0
    Field::Four(16, 9), // version
    Field::Four(20, 512), // page size
    Field::Byte(25, 9), // type
    Field::Four(32, 4), // last page
    Field::Four(76, 2), // least number of keys on a page
    Field::Four(88, 1), // root
    Field::Four(520, 1), // page 1
    Field::Two(532, 2), // entries
    Field::Two(534, 476), // the lowest byte of an item
    Field::Byte(536, 2), // level
    Field::Byte(537, 3), // internal
    Field::Two(538, 500), // offsets
    Field::Two(540, 476),
    Field::Byte(1014, 1), // child 2, without a key
    Field::Four(1016, 2),
    Field::Two(988, 12), // child 3, with a key in a chain
    Field::Byte(990, 3),
    Field::Four(992, 3),
    Field::Byte(1002, 3),
    Field::Four(1004, 4), // head
    Field::Four(1008, 400), // length
    Field::Four(1032, 2), // page 2
    Field::Four(1040, 3), // next
    Field::Two(1044, 2), // entries
    Field::Two(1046, 504),
    Field::Byte(1048, 1), // level
    Field::Byte(1049, 5), // leaf
    Field::Two(1050, 508), // offsets
    Field::Two(1052, 504),
    Field::Two(1532, 1), // key a
    Field::Byte(1534, 1),
    Field::Byte(1535, 0x61),
    Field::Two(1528, 1), // data 1
    Field::Byte(1530, 1),
    Field::Byte(1531, 0x31),
    Field::Four(1544, 3), // page 3
    Field::Four(1548, 2), // previous
    Field::Two(1556, 2), // entries
    Field::Two(1558, 496),
    Field::Byte(1560, 1), // level
    Field::Byte(1561, 5), // leaf
    Field::Two(1562, 500), // offsets
    Field::Two(1564, 496),
    Field::Byte(2038, 3), // a key in a chain
    Field::Four(2040, 4), // head
    Field::Four(2044, 400), // length
    Field::Two(2032, 1), // data 2
    Field::Byte(2034, 1),
    Field::Byte(2035, 0x32),
    Field::Four(2056, 4), // page 4
    Field::Two(2068, 2), // how many items name it
    Field::Two(2070, 400), // bytes on the page
    Field::Byte(2073, 7), // overflow
    Field::Bytes(2074, &[0x62; 400]),
];

/// Two pairs on page 1 that share a key, one of them deleted.
const SHARED: [Field; 20] = [
    Field::Four(12, 0x053162), // magic number of page 0
    Field::Four(16, 9), // version
    Field::Four(20, 512), // page size
    Field::Byte(25, 9), // type
    Field::Four(32, 1), // last page
    Field::Four(88, 1), // root
    Field::Four(520, 1), // page 1
    Field::Two(532, 4), // entries
    Field::Byte(536, 1), // level
    Field::Byte(537, 5), // leaf
    Field::Two(538, 508), // offsets
    Field::Two(540, 504),
    Field::Two(542, 508), // the key again
    Field::Two(544, 500),
    Field::Two(1020, 1), // key
    Field::Byte(1022, 1),
    Field::Two(1016, 1), // data
    Field::Byte(1018, 1),
    Field::Two(1012, 1),
    Field::Byte(1014, 0x81), // deleted
];

/// A table of two buckets, with a set of two data on page 1.
const TABLE: [Field; 30] = [
    Field::Four(12, 0x061561), // magic number of page 0
    Field::Four(16, 9), // version
    Field::Four(20, 512), // page size
    Field::Byte(25, 8), // type
    Field::Four(32, 2), // last page
    Field::Four(48, 1), // flags: duplicates
    Field::Four(72, 1), // greatest bucket
    Field::Four(76, 1), // high mask
    Field::Four(92, 0x5e688dd1), // the hash of a text
    Field::Four(96, 1), // spares
    Field::Four(100, 1),
    Field::Four(220, 7), // the last spare, which counts for no bucket
    Field::Four(520, 1), // page 1
    Field::Two(532, 2), // entries
    Field::Two(534, 499), // the lowest byte of an item
    Field::Byte(537, 13), // a sorted page of a hash
    Field::Two(538, 510), // offsets
    Field::Two(540, 499),
    Field::Byte(1011, 2), // a set: each datum between its lengths
    Field::Two(1012, 1),
    Field::Byte(1014, 0x31),
    Field::Two(1015, 1),
    Field::Two(1017, 1),
    Field::Byte(1019, 0x32),
    Field::Two(1020, 1),
    Field::Byte(1022, 1), // key a
    Field::Byte(1023, 0x61),
    Field::Four(1032, 2), // page 2
    Field::Byte(1048, 0),
    Field::Byte(1049, 13),
];

/// A queue with two records on page 1.
const QUEUE: [Field; 13] = [
    Field::Four(12, 0x042253), // magic number of page 0
    Field::Four(16, 4), // version
    Field::Four(20, 512), // page size
    Field::Byte(25, 10), // type
    Field::Four(72, 1), // first record
    Field::Four(76, 3), // the next one to be written
    Field::Four(80, 4), // length of a record
    Field::Four(84, 32), // padding
    Field::Four(88, 60), // records a page
    Field::Four(520, 1), // page 1
    Field::Byte(537, 11), // queue
    Field::Bytes(540, &[1, 0x61, 0x62, 0x63, 0x64]), // record 1
    Field::Bytes(548, &[1, 0x65, 0x66, 0x67, 0x68]),
];

/// A pair whose data, of five bytes, goes into its key.
const OVERLAP: [Field; 17] = [
    Field::Four(12, 0x053162), // magic number of page 0
    Field::Four(16, 9), // version
    Field::Four(20, 512), // page size
    Field::Byte(25, 9), // type
    Field::Four(32, 1), // last page
    Field::Four(88, 1), // root
    Field::Four(520, 1), // page 1
    Field::Two(532, 2), // entries
    Field::Byte(536, 1), // level
    Field::Byte(537, 5), // leaf
    Field::Two(538, 508), // offsets
    Field::Two(540, 504),
    Field::Two(1016, 5), // length of the data
    Field::Byte(1018, 1),
    Field::Two(1020, 1),
    Field::Byte(1022, 1),
    Field::Byte(1023, 0x61),
];

const SAMPLES: [Sample; 5] = [
    Sample {
        pages: 4,
        fields: &MASTER,
    },
    Sample {
        pages: 5,
        fields: &CHAIN,
    },
    // the last page is above the last one that page 0 tells
    Sample {
        pages: 3,
        fields: &SHARED,
    },
    Sample {
        pages: 3,
        fields: &TABLE,
    },
    Sample {
        pages: 2,
        fields: &QUEUE,
    },
];

const ORDERS: [Order; 2] = [Order::Little, Order::Big];

#[test]
fn writes_the_same_fields_in_either_order(rt: HostRuntime) {
    for sample in &SAMPLES {
        for from in ORDERS {
            for to in ORDERS {
                assert_eq!(rt;
                    outcome(rt.alloc(), sample.pages, sample.fields, from, to),
                    Told::Expected
                );
            }
        }
    }
}

#[test]
fn refuses_overlapping_items_in_the_other_order_alone(rt: HostRuntime) {
    let alloc = rt.alloc();
    assert_eq!(rt;
        outcome(alloc, 2, &OVERLAP, Order::Little, Order::Big),
        Told::Overlap(1)
    );
    assert_eq!(rt;
        outcome(alloc, 2, &OVERLAP, Order::Big, Order::Little),
        Told::Overlap(1)
    );
    assert_eq!(rt;
        outcome(alloc, 2, &OVERLAP, Order::Little, Order::Little),
        Told::Expected
    );
}
