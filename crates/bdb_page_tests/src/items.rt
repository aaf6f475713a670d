//! The hash of keys, and one item of a leaf read, deleted and refused. Values: docs/FORMAT.md.

use bdb_meta::{ItemFault, LeafItem, Order, hash5, header, index_end, leaf_item};

// The sample file's page 1: `a` at 508, `b` at 504.
const FIELDS: [(usize, u8); 12] = [
    (20, 2), // entries
    (24, 1), // level
    (25, 5), // type
    (26, 0xfc),
    (27, 1),
    (28, 0xf8),
    (29, 1),
    (504, 1), // length
    (506, 1), // inline
    (507, 0x62),
    (508, 1),
    (510, 1),
];

/// What the second item of that page is, once some bytes are changed.
#[derive(Clone, Copy, Debug, PartialEq, Eq)]
enum Second {
    Live,
    Deleted,
    Refused(ItemFault),
    Other,
}

const CASES: [(&[(usize, u8)], Second); 4] = [
    (&[], Second::Live),
    (&[(506, 0x81)], Second::Deleted),
    (&[(506, 0x04)], Second::Refused(ItemFault::Kind)),
    (&[(504, 9)], Second::Refused(ItemFault::Extent)),
];

fn write(page: &mut [u8], fields: &[(usize, u8)]) {
    for (at, value) in fields {
        if let Some(byte) = page.get_mut(*at) {
            *byte = *value;
        }
    }
}

fn read_second(page: &[u8; 512]) -> Second {
    if index_end(page, Order::Little) > page.len() || header(page, Order::Little).entries < 2 {
        return Second::Other;
    }
    match leaf_item(page, Order::Little, 1) {
        Ok(LeafItem::Inline { bytes, deleted }) => seen(bytes, deleted),
        Ok(_) => Second::Other,
        Err(fault) => Second::Refused(fault),
    }
}

fn seen(bytes: &[u8], deleted: bool) -> Second {
    if bytes != b"b".as_slice() {
        return Second::Other;
    }
    if deleted {
        Second::Deleted
    } else {
        Second::Live
    }
}

#[test]
fn reads_one_item(rt: HostRuntime) {
    for (fields, expected) in &CASES {
        let mut page = [0u8; 512];
        write(&mut page, &FIELDS);
        write(&mut page, fields);
        assert_eq!(rt; read_second(&page), *expected);
    }
}

#[test]
fn hashes_keys(rt: HostRuntime) {
    let cases: [(&[u8], u32); 4] = [
        (b"", 0),
        (b"a", 0x00000061),
        (b"ab", 0x610098D1),
        (b"%$sniglet^&\0", 0x5E688DD1),
    ];
    for (bytes, expected) in cases {
        assert_eq!(rt; hash5(bytes), expected);
    }
}
