//! The bytes of a small queue, spelled from docs/FORMAT.md, "Queue metadata" and "Built queues".

use crate::queues::built_queue;
use crate::settings::queue_settings;
use crate::values::{Numbered, numbered};
use bdb_need::Order;
use std::test::Fail;

// Records 2 and 4, of five bytes each.
const RECORDS: [Numbered; 2] = [(2, b"abcde"), (4, b"vwxyz")];

// Whether an image is these bytes, with zeros between and behind them: bytes of metadata up to its flags, its fields, and the beginning of page 1.
fn is_spelled(image: &[u8], head: &[u8], fields: &[u8], page: &[u8]) -> bool {
    image.len() == 1024
        && image.get(..36) == Some(head)
        && image.get(72..92) == Some(fields)
        && image.get(512..572) == Some(page)
        && image.iter().skip(36).take(36).all(|byte| *byte == 0)
        && image.iter().skip(92).take(420).all(|byte| *byte == 0)
        && image.iter().skip(572).all(|byte| *byte == 0)
}

#[test]
fn a_little_endian_queue_is_spelled(rt: HostRuntime) -> Result<(), Fail> {
    let list = numbered(rt.alloc(), &RECORDS)?;
    let Some(image) = built_queue(
        rt.alloc(),
        &queue_settings(Order::Little, 512, 5),
        list.as_slice(),
    )?
    else {
        assert!(rt; false);
        return Ok(());
    };
    // LSN 0 and 1, page 0, magic number, version 4, page size, type 10, free page 0, last page 1
    let head =
        b"\x00\x00\x00\x00\x01\x00\x00\x00\x00\x00\x00\x00\x53\x22\x04\x00\x04\x00\x00\x00\x00\x02\x00\x00\
            \x00\x0a\x00\x00\x00\x00\x00\x00\x01\x00\x00\x00";
    // first 2, current 5, re_len 5, re_pad 42, 484 / 8 records on a page
    let fields =
        b"\x02\x00\x00\x00\x05\x00\x00\x00\x05\x00\x00\x00\x2a\x00\x00\x00\x3c\x00\x00\x00";
    // LSN 0 and 1, page 1, 13 zeros, type 11, two zeros; slots of 8 bytes, each with a record begins with 3: empty, record 2, empty, record 4
    let page =
        b"\x00\x00\x00\x00\x01\x00\x00\x00\x01\x00\x00\x00\x00\x00\x00\x00\x00\x00\x00\x00\x00\x00\x00\x00\x00\x0b\x00\x00\
        \x00\x00\x00\x00\x00\x00\x00\x00\x03abcde\x00\x00\x00\x00\x00\x00\x00\x00\x00\x00\x03vwxyz\x00\x00";
    assert!(rt; is_spelled(image.as_slice(), head, fields, page));
    Ok(())
}

#[test]
fn a_big_endian_queue_is_spelled(rt: HostRuntime) -> Result<(), Fail> {
    let list = numbered(rt.alloc(), &RECORDS)?;
    let Some(image) = built_queue(
        rt.alloc(),
        &queue_settings(Order::Big, 512, 5),
        list.as_slice(),
    )?
    else {
        assert!(rt; false);
        return Ok(());
    };
    let head =
        b"\x00\x00\x00\x00\x00\x00\x00\x01\x00\x00\x00\x00\x00\x04\x22\x53\x00\x00\x00\x04\x00\x00\x02\x00\
            \x00\x0a\x00\x00\x00\x00\x00\x00\x00\x00\x00\x01";
    let fields =
        b"\x00\x00\x00\x02\x00\x00\x00\x05\x00\x00\x00\x05\x00\x00\x00\x2a\x00\x00\x00\x3c";
    let page =
        b"\x00\x00\x00\x00\x00\x00\x00\x01\x00\x00\x00\x01\x00\x00\x00\x00\x00\x00\x00\x00\x00\x00\x00\x00\x00\x0b\x00\x00\
        \x00\x00\x00\x00\x00\x00\x00\x00\x03abcde\x00\x00\x00\x00\x00\x00\x00\x00\x00\x00\x03vwxyz\x00\x00";
    assert!(rt; is_spelled(image.as_slice(), head, fields, page));
    Ok(())
}
