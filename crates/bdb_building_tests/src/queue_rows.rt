//! Queues of one, two and several pages, in both orders. Values: docs/FORMAT.md, "Built queues".

use crate::queues::built_queue;
use crate::settings::queue_settings;
use crate::values::ORDERS;
use bdb_gen::generate;
use bdb_need::{Bytes, KeyRef, Kind, Order, PairRef, TextPairs, u32_at};
use std::alloc::{AllocError, Global};
use std::test::Fail;
use test_lists::gives;

/// A queue of records with these numbers: what its metadata says, how many pages the file has, and which of them are zero pages.
#[derive(Clone, Copy)]
struct Row {
    page_size: u32,
    re_len: u32,
    numbers: &'static [u32],
    first: u32,
    current: u32,
    per_page: u32,
    pages: u32,
    zero_pages: &'static [u32],
}

// (512 - 28) / 8 = 60 records of 4 bytes on a page, (512 - 28) / 4 = 121 of none, (512 - 28) / 12 = 40 of 8, (512 - 28) / 484 = 1 of 483,
// (32768 - 28) / 4 = 8185 of none, (32768 - 28) / 32740 = 1 of 32739
const ROWS: [Row; 17] = [
    // no records
    Row {
        page_size: 512,
        re_len: 4,
        numbers: &[],
        first: 1,
        current: 1,
        per_page: 60,
        pages: 1,
        zero_pages: &[],
    },
    Row {
        page_size: 512,
        re_len: 0,
        numbers: &[],
        first: 1,
        current: 1,
        per_page: 121,
        pages: 1,
        zero_pages: &[],
    },
    // one page
    Row {
        page_size: 512,
        re_len: 4,
        numbers: &[1],
        first: 1,
        current: 2,
        per_page: 60,
        pages: 2,
        zero_pages: &[],
    },
    Row {
        page_size: 512,
        re_len: 4,
        numbers: &[2, 3, 59],
        first: 2,
        current: 60,
        per_page: 60,
        pages: 2,
        zero_pages: &[],
    },
    Row {
        page_size: 512,
        re_len: 4,
        numbers: &[60],
        first: 60,
        current: 61,
        per_page: 60,
        pages: 2,
        zero_pages: &[],
    },
    // two pages, of which the first may have no record
    Row {
        page_size: 512,
        re_len: 4,
        numbers: &[60, 61],
        first: 60,
        current: 62,
        per_page: 60,
        pages: 3,
        zero_pages: &[],
    },
    Row {
        page_size: 512,
        re_len: 4,
        numbers: &[61],
        first: 61,
        current: 62,
        per_page: 60,
        pages: 3,
        zero_pages: &[1],
    },
    // several pages
    Row {
        page_size: 512,
        re_len: 4,
        numbers: &[1, 60, 61, 120, 121],
        first: 1,
        current: 122,
        per_page: 60,
        pages: 4,
        zero_pages: &[],
    },
    Row {
        page_size: 512,
        re_len: 4,
        numbers: &[5, 241, 300],
        first: 5,
        current: 301,
        per_page: 60,
        pages: 6,
        zero_pages: &[2, 3, 4],
    },
    Row {
        page_size: 512,
        re_len: 4,
        numbers: &[7, 130, 420],
        first: 7,
        current: 421,
        per_page: 60,
        pages: 8,
        zero_pages: &[2, 4, 5, 6],
    },
    // records without bytes
    Row {
        page_size: 512,
        re_len: 0,
        numbers: &[1, 121],
        first: 1,
        current: 122,
        per_page: 121,
        pages: 2,
        zero_pages: &[],
    },
    Row {
        page_size: 512,
        re_len: 0,
        numbers: &[1, 122, 364],
        first: 1,
        current: 365,
        per_page: 121,
        pages: 5,
        zero_pages: &[3],
    },
    Row {
        page_size: 32768,
        re_len: 0,
        numbers: &[8185, 8186],
        first: 8185,
        current: 8187,
        per_page: 8185,
        pages: 3,
        zero_pages: &[],
    },
    // records that are not a multiple of 4 with the byte before them
    Row {
        page_size: 512,
        re_len: 8,
        numbers: &[1, 40, 41],
        first: 1,
        current: 42,
        per_page: 40,
        pages: 3,
        zero_pages: &[],
    },
    // the longest records that have room
    Row {
        page_size: 512,
        re_len: 483,
        numbers: &[1, 2, 4],
        first: 1,
        current: 5,
        per_page: 1,
        pages: 5,
        zero_pages: &[3],
    },
    Row {
        page_size: 512,
        re_len: 480,
        numbers: &[3],
        first: 3,
        current: 4,
        per_page: 1,
        pages: 4,
        zero_pages: &[1, 2],
    },
    Row {
        page_size: 32768,
        re_len: 32739,
        numbers: &[1, 3],
        first: 1,
        current: 4,
        per_page: 1,
        pages: 4,
        zero_pages: &[2],
    },
];

// Adds a record: its bytes are the low one of its number.
fn add_record(
    alloc: Global,
    number: u32,
    long: u32,
    list: &mut TextPairs,
) -> Result<(), AllocError> {
    let [_, _, _, low] = number.to_be_bytes();
    let value = vec![in alloc; low; long.min(32768) as usize]?;
    list.push(PairRef {
        key: KeyRef::Number(number),
        value: value.as_slice(),
        line: 0,
    })
}

fn list_of(alloc: Global, row: &Row) -> Result<TextPairs, AllocError> {
    let mut list = TextPairs::new(alloc);
    for number in row.numbers {
        add_record(alloc, *number, row.re_len, &mut list)?;
    }
    Ok(list)
}

// The number in four bytes of page 0.
fn field(image: &[u8], at: usize, order: Order) -> Option<u32> {
    let bytes = image.get(at..at.saturating_add(4))?;
    if bytes.len() < 4 {
        return None;
    }
    Some(u32_at(bytes, 0, order))
}

// Whether page 0 says what it is to say: its last page, first and current record, length, pad and records on a page.
fn says(image: &[u8], order: Order, row: &Row) -> bool {
    field(image, 32, order) == Some(row.pages.saturating_sub(1))
        && field(image, 72, order) == Some(row.first)
        && field(image, 76, order) == Some(row.current)
        && field(image, 80, order) == Some(row.re_len)
        && field(image, 84, order) == Some(0x2a)
        && field(image, 88, order) == Some(row.per_page)
}

// Whether just these pages above page 0 are zero pages.
fn has_zero_pages(image: &[u8], row: &Row) -> bool {
    let size = row.page_size as usize;
    let mut right = true;
    for p in 1..row.pages {
        let start = (p as usize).saturating_mul(size);
        let page = image.get(start..start.saturating_add(size)).unwrap_or(b"?");
        let is_zero = page.iter().all(|byte| *byte == 0);
        right = right && is_zero == row.zero_pages.contains(&p);
    }
    right
}

fn is_row_built(alloc: Global, order: Order, row: &Row) -> Result<bool, AllocError> {
    let list = list_of(alloc, row)?;
    let settings = queue_settings(order, row.page_size, row.re_len);
    let Some(image) = built_queue(alloc, &settings, list.as_slice())? else {
        return Ok(false);
    };
    let image = image.as_slice();
    let long = (row.pages as usize).saturating_mul(row.page_size as usize);
    let right = image.len() == long && says(image, order, row) && has_zero_pages(image, row);
    Ok(right && gives(alloc, image, list.as_slice(), b"58")?)
}

#[test]
fn queues_are_built_in_both_orders(rt: HostRuntime) -> Result<(), Fail> {
    for order in ORDERS {
        for row in ROWS {
            assert!(rt; is_row_built(rt.alloc(), order, &row)?);
        }
    }
    Ok(())
}

// Whether the queue of so many generated records is built on so many pages, and gives them.
fn is_generated(alloc: Global, count: u32, pages: usize) -> Result<bool, AllocError> {
    if count > 200000 {
        return Ok(false);
    }
    let list = generate(alloc, Kind::Queue, 1, count)?;
    let settings = queue_settings(Order::Little, 4096, 16);
    let Some(image) = built_queue(alloc, &settings, list.as_slice())? else {
        return Ok(false);
    };
    let image = image.as_slice();
    Ok(image.len() == pages.saturating_mul(4096) && gives(alloc, image, list.as_slice(), b"0")?)
}

// (4096 - 28) / 20 = 203 records on a page.
#[test]
fn generated_records_are_built(rt: HostRuntime) -> Result<(), Fail> {
    assert!(rt; is_generated(rt.alloc(), 203, 2)?);
    assert!(rt; is_generated(rt.alloc(), 1000, 6)?);
    assert!(rt; is_generated(rt.alloc(), 200000, 987)?);
    Ok(())
}

// A list of records with numbers and lengths.
fn listed(alloc: Global, records: &[(u32, u32)]) -> Result<TextPairs, AllocError> {
    let mut list = TextPairs::new(alloc);
    for (number, long) in records {
        add_record(alloc, *number, *long, &mut list)?;
    }
    Ok(list)
}

#[test]
fn a_record_behind_all_pages_is_refused(rt: HostRuntime) -> Result<(), Fail> {
    // 60 records on each of the pages up to the last that a file may have
    let list = listed(rt.alloc(), &[(1, 4), (125829061, 4)])?;
    assert!(rt;
        built_queue(
            rt.alloc(),
            &queue_settings(Order::Little, 512, 4),
            list.as_slice()
        )
        .is_err()
    );
    let list = listed(rt.alloc(), &[(1, 4), (4294967294, 4)])?;
    assert!(rt;
        built_queue(
            rt.alloc(),
            &queue_settings(Order::Little, 512, 4),
            list.as_slice()
        )
        .is_err()
    );
    Ok(())
}
