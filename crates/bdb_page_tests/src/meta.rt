use self::Put::{Byte, Number};
use bdb_meta::FileKind::{Btree, Hash, Queue};
use bdb_meta::MetaFault::{Fault, Unsupported as LeftOut};
use bdb_meta::{
    BtreeMeta, FileKind, HashMeta, Head, MetaFault, Order, QueueMeta, Unsupported, btree_meta,
    hash_meta, head, put_btree_meta, put_hash_meta, put_queue_meta, put_u32, queue_meta,
};
use std::process::Abort;

const ORDERS: [Order; 2] = [Order::Little, Order::Big];

const LAST: u32 = 9;

/// A field that is written over: a byte or a number, at its place.
#[derive(Clone, Copy, Debug)]
enum Put {
    Byte(usize, u8),
    Number(usize, u32),
}

fn change(bytes: &mut [u8], order: Order, put: Put) {
    match put {
        Byte(at, byte) => {
            if let Some(cell) = bytes.get_mut(at) {
                *cell = byte;
            }
        }
        Number(at, number) => {
            if at < 1000 && at + 4 <= bytes.len() {
                put_u32(bytes, at, order, number);
            }
        }
    }
}

/// Page 0 of the sample file: see docs/FORMAT.md, "The sample file".
const SAMPLE: [Put; 7] = [
    Number(12, 0x053162),
    Number(16, 9),
    Number(20, 512),
    Byte(25, 9),
    Number(32, 1),
    Number(76, 2),
    Number(88, 1),
];

fn sample(order: Order) -> [u8; 1024] {
    let mut image = [0; 1024];
    for put in SAMPLE {
        change(&mut image, order, put);
    }
    image
}

/// One field of page 0 of the sample file, and the row that then is the first to hold.
const HEADS: [(Put, MetaFault); 12] = [
    (Number(12, 0), Fault(2)),
    (Number(12, 0x074582), LeftOut(Unsupported::Heap)),
    (Number(16, 10), LeftOut(Unsupported::Version)),
    (Number(20, 768), Fault(5)),
    (Number(20, 65536), LeftOut(Unsupported::LargePage)),
    (Byte(24, 1), LeftOut(Unsupported::Encryption)),
    (Byte(26, 0x01), LeftOut(Unsupported::Checksum)),
    (Byte(26, 0x02), LeftOut(Unsupported::Partition)),
    (Byte(26, 0x04), LeftOut(Unsupported::Partition)),
    (Number(36, 1), LeftOut(Unsupported::Partition)),
    (Number(20, 2048), Fault(10)),
    (Number(32, 2), Fault(11)),
];

#[test]
fn heads_by_row(rt: HostRuntime) {
    for order in ORDERS {
        let whole = Head {
            order,
            page_size: 512,
            kind: Btree,
            last: 1,
            pages: 2,
        };
        assert_eq!(rt; head(&sample(order)), Ok(whole));
        for (put, fault) in HEADS {
            let mut image = sample(order);
            change(&mut image, order, put);
            assert_eq!(rt; head(&image), Err(fault), "{put:?}");
        }
    }
}

fn check_lengths(rt: &impl Abort, image: &[u8; 1024]) {
    assert_eq!(rt; head(&[]), Err(Fault(1)));
    assert_eq!(rt; head(&image[..511]), Err(Fault(1)));
    assert_eq!(rt; head(&image[..512]), Err(Fault(11)));
    assert_eq!(rt; head(&image[..1023]), Err(Fault(10)));
}

#[test]
fn heads_by_length(rt: HostRuntime) {
    for order in ORDERS {
        check_lengths(&rt, &sample(order));
    }
}

/// The fields of a btree, of a table of six buckets in four groups, and of a queue of two records.
const BTREE: BtreeMeta = BtreeMeta {
    flags: 0x20,
    minkey: 2,
    re_len: 7,
    re_pad: 0x20,
    root: 1,
    free: 3,
};

fn table() -> HashMeta {
    let mut spares = [0; 32];
    for (group, spare) in [1, 1, 2, 3].iter().enumerate() {
        spares[group] = *spare;
    }
    HashMeta {
        flags: 0x05,
        max_bucket: 5,
        high_mask: 7,
        low_mask: 3,
        ffactor: 40,
        spares,
        free: 3,
    }
}

const QUEUE: QueueMeta = QueueMeta {
    first: 1,
    current: 3,
    re_len: 20,
    re_pad: 0x20,
    per_page: 20,
};

/// A page of metadata as it is written.
fn written(kind: FileKind, order: Order, number: u32) -> [u8; 512] {
    let mut page = [0; 512];
    match kind {
        Btree => put_btree_meta(&mut page, order, number, LAST, &BTREE),
        Hash => put_hash_meta(&mut page, order, number, LAST, 6, &table()),
        Queue => put_queue_meta(&mut page, order, LAST, &QUEUE),
    }
    page
}

/// The row that is the first to hold for a page of metadata.
fn refusal(kind: FileKind, page: &[u8; 512], order: Order, number: u32) -> Option<MetaFault> {
    match kind {
        Btree => btree_meta(page, order, number).err(),
        Hash => hash_meta(page, order, number, LAST).err(),
        Queue => queue_meta(page, order).err(),
    }
}

/// A field of a page of metadata of a kind with its number, and the row that then is the first to hold.
const PAGES: [(FileKind, u32, Put, Option<MetaFault>); 32] = [
    (Btree, 1, Number(8, 2), Some(Fault(1))),
    (Btree, 1, Byte(25, 8), Some(Fault(2))),
    (Btree, 1, Number(12, 0x061561), Some(Fault(3))),
    (Btree, 0, Number(12, 0x061561), None),
    (
        Btree,
        1,
        Number(16, 10),
        Some(LeftOut(Unsupported::Version)),
    ),
    (Btree, 0, Number(16, 10), None),
    (Btree, 1, Number(20, 1024), Some(Fault(5))),
    (Hash, 0, Byte(24, 1), Some(LeftOut(Unsupported::Encryption))),
    (
        Hash,
        0,
        Byte(26, 0x03),
        Some(LeftOut(Unsupported::Checksum)),
    ),
    (
        Hash,
        0,
        Byte(26, 0x04),
        Some(LeftOut(Unsupported::Partition)),
    ),
    (
        Queue,
        0,
        Number(36, 1),
        Some(LeftOut(Unsupported::Partition)),
    ),
    (
        Btree,
        1,
        Number(48, 0x80),
        Some(LeftOut(Unsupported::Compression)),
    ),
    (Btree, 1, Number(48, 0x100), Some(Fault(10))),
    (Btree, 1, Number(48, 0x03), Some(Fault(10))),
    (Btree, 1, Number(48, 0x44), Some(Fault(10))),
    (Btree, 0, Number(48, 0x22), Some(Fault(10))),
    (Btree, 1, Number(48, 0x22), None),
    (Hash, 0, Number(92, 0), Some(LeftOut(Unsupported::OwnHash))),
    (Hash, 0, Number(48, 0x08), Some(Fault(12))),
    (Hash, 0, Number(76, 6), Some(Fault(13))),
    (Hash, 0, Number(80, 7), Some(Fault(13))),
    (Hash, 0, Number(72, 8), Some(Fault(13))),
    (Hash, 0, Number(96, 0), Some(Fault(14))),
    (Hash, 0, Number(108, 0), Some(Fault(14))),
    (Hash, 0, Number(112, 1), None),
    (Queue, 0, Number(92, 1), Some(LeftOut(Unsupported::Extent))),
    (Queue, 0, Number(88, 21), Some(Fault(16))),
    (Queue, 0, Number(80, 484), Some(Fault(16))),
    (Queue, 0, Number(72, 0), Some(Fault(17))),
    (Queue, 0, Number(76, 0), Some(Fault(17))),
    (
        Queue,
        0,
        Number(72, 4),
        Some(LeftOut(Unsupported::WrappedQueue)),
    ),
    (Queue, 0, Number(76, 1), None),
];

#[test]
fn pages_by_row(rt: HostRuntime) {
    for order in ORDERS {
        for (kind, number, put, fault) in PAGES {
            let mut page = written(kind, order, number);
            change(&mut page, order, put);
            assert_eq!(rt;
                refusal(kind, &page, order, number),
                fault,
                "{kind:?} {put:?}"
            );
        }
    }
}

#[test]
fn fields_read_back(rt: HostRuntime) {
    for order in ORDERS {
        for number in [0, 7] {
            let page = written(Btree, order, number);
            assert_eq!(rt; btree_meta(&page, order, number), Ok(BTREE));
            let page = written(Hash, order, number);
            assert_eq!(rt; hash_meta(&page, order, number, LAST), Ok(table()));
        }
        let page = written(Queue, order, 0);
        assert_eq!(rt; queue_meta(&page, order), Ok(QUEUE));
    }
}
