//! Values on pages of 512 and of 32,768 bytes in both orders: where they stand, and what the views read of their chains.
//! Values: docs/FORMAT.md, "The header".

ghost use Rattle.std.specs.Prelude.{◌≤◌, IsTrue, length};
ghost use Rattle.bdb_form.specs.of_format.Terms.{is_page_size};

use bdb_form::{Bytes, Header, Order, PageView, form};
use bdb_pack::{Pages, Stored, push_value};
use std::alloc::{AllocError, Global};
use std::test::Fail;

const MEGABYTE: usize = 1 << 20;

// A megabyte, which repeats itself after a number of bytes that no page has room for a multiple of.
fn value_of(alloc: Global) -> Result<Bytes, AllocError> {
    let mut bytes = Bytes::new(alloc);
    let mut piece = [0u8; 251];
    for (i, byte) in piece.iter_mut().enumerate() {
        *byte = i as u8;
    }
    for _ in 0..4178 {
        bytes.push_all(&piece)?;
    }
    Ok(bytes)
}

// Whether the header of a page of a chain, which begins at page 1, is right.
fn is_header(header: &Header, number: u32, count: u32) -> bool {
    let next = number.saturating_add(1);
    header.number == number
        && header.previous == number.saturating_sub(1)
        && header.next == (if next == count { 0 } else { next })
        && header.entries == 1
        && header.level == 0
        && header.page_type == 7
}

// What is left of a value behind a page of its chain, where the page is full or has all that was left.
fn left_behind<'a>(
    page: &[u8],
    number: u32,
    count: u32,
    order: Order,
    value: &'a [u8],
) -> Option<&'a [u8]>
    requires { IsTrue (is_page_size (length page.now)) }
{
    match form(page, number, order) {
        Ok(PageView::Overflow(view)) => {
            let bytes = view.bytes();
            let (piece, left) = value.split_at(value.len().min(page.len().saturating_sub(26)));
            if bytes == piece && !bytes.is_empty() && is_header(&view.header(), number, count) {
                Some(left)
            } else {
                None
            }
        }
        _ => None,
    }
}

// Whether the pages behind the first are the chain of a value, and the first is a zero page still.
fn holds_chain(pages: &Pages, order: Order, value: &[u8]) -> bool {
    let count = pages.count();
    if count == 0 || !pages.page(0).iter().all(|byte| *byte == 0) {
        return false;
    }
    let mut left = value;
    for number in 1..count {
        match left_behind(pages.page(number), number, count, order, left) {
            Some(rest) => left = rest,
            None => return false,
        }
    }
    left.is_empty()
}

// Whether a value is stored in so many pages, and read back.
fn stores(
    alloc: Global,
    size: u32,
    order: Order,
    value: &[u8],
    chain: u32,
) -> Result<bool, AllocError>
    requires legal { IsTrue (is_page_size size) }
    requires short { length value.now ≤ 1048576 }
{
    let mut pages = Pages::new(alloc, size, order);
    pages.add()?;
    let stored = push_value(&mut pages, value)?;
    let added = pages.count().saturating_sub(1);
    Ok(match stored {
        Stored::Inline => chain == 0 && added == 0,
        Stored::Chain { head, total } => {
            head == 1
                && total as usize == value.len()
                && added == chain
                && holds_chain(&pages, order, value)
        }
    })
}

// Whether values of these lengths are stored in so many pages.
fn stores_all(
    alloc: Global,
    size: u32,
    order: Order,
    rows: &[(usize, u32)],
) -> Result<bool, AllocError>
    requires { IsTrue (is_page_size size) }
{
    let bytes = value_of(alloc)?;
    for (long, chain) in rows {
        match bytes.as_slice().get(..*long) {
            Some(value) if value.len() <= MEGABYTE => {
                if !stores(alloc, size, order, value, *chain)? {
                    return Ok(false);
                }
            }
            _ => return Ok(false),
        }
    }
    Ok(true)
}

// A value that is an eighth of a page, and a byte longer; that fills a page but its header, and a byte longer; a megabyte.
const SMALL: [(usize, u32); 5] = [(64, 0), (65, 1), (486, 1), (487, 2), (MEGABYTE, 2158)];

const LARGE: [(usize, u32); 5] = [(4096, 0), (4097, 1), (32742, 1), (32743, 2), (MEGABYTE, 33)];

#[test]
fn stores_values(rt: HostRuntime) -> Result<(), Fail> {
    for order in [Order::Little, Order::Big] {
        assert!(rt; stores_all(rt.alloc(), 512, order, &SMALL)?);
        assert!(rt; stores_all(rt.alloc(), 32768, order, &LARGE)?);
    }
    Ok(())
}

/// The headers of a chain of 487 bytes on pages of 512, in an order.
#[derive(Clone, Copy)]
struct Chain {
    order: Order,
    first: [u8; 26],
    second: [u8; 26],
}

const CHAINS: [Chain; 2] = [
    Chain {
        order: Order::Little,
        first: [
            0, 0, 0, 0, 1, 0, 0, 0, // LSN
            1, 0, 0, 0, // page number
            0, 0, 0, 0, // previous page
            2, 0, 0, 0, // next page
            1, 0, // references
            0xe6, 1, // 486 bytes
            0, 7, // level, page type
        ],
        second: [
            0, 0, 0, 0, 1, 0, 0, 0, // LSN
            2, 0, 0, 0, // page number
            1, 0, 0, 0, // previous page
            0, 0, 0, 0, // next page
            1, 0, // references
            1, 0, // 1 byte
            0, 7, // level, page type
        ],
    },
    Chain {
        order: Order::Big,
        first: [
            0, 0, 0, 0, 0, 0, 0, 1, // LSN
            0, 0, 0, 1, // page number
            0, 0, 0, 0, // previous page
            0, 0, 0, 2, // next page
            0, 1, // references
            1, 0xe6, // 486 bytes
            0, 7, // level, page type
        ],
        second: [
            0, 0, 0, 0, 0, 0, 0, 1, // LSN
            0, 0, 0, 2, // page number
            0, 0, 0, 1, // previous page
            0, 0, 0, 0, // next page
            0, 1, // references
            0, 1, // 1 byte
            0, 7, // level, page type
        ],
    },
];

// Whether a page is a header, bytes and zeros.
fn is_spelled(page: &[u8], header: &[u8; 26], bytes: &[u8]) -> bool {
    if page.len() != 512 || bytes.len() > 486 {
        return false;
    }
    let (front, rest) = page.split_at(26);
    let (data, gap) = rest.split_at(bytes.len());
    front == header.as_slice() && data == bytes && gap.iter().all(|byte| *byte == 0)
}

// Whether a value of 487 bytes stands on pages 1 and 2.
fn spells(pages: &Pages, chain: &Chain) -> bool {
    pages.count() >= 3
        && is_spelled(pages.page(1), &chain.first, &[0x66; 486])
        && is_spelled(pages.page(2), &chain.second, &[0x66])
}

// A zero page with the chain behind it.
fn chain_of(alloc: Global, order: Order) -> Result<Pages, AllocError> {
    let mut pages = Pages::new(alloc, 512, order);
    pages.add()?;
    push_value(&mut pages, &[0x66; 487])?;
    Ok(pages)
}

#[test]
fn spells_chains(rt: HostRuntime) -> Result<(), Fail> {
    for chain in &CHAINS {
        let pages = chain_of(rt.alloc(), chain.order)?;
        assert!(rt; pages.count() == 3 && spells(&pages, chain));
    }
    Ok(())
}

// Whether page 1 of a chain is copied to page 3, and the chain stays.
fn copies(alloc: Global, chain: &Chain) -> Result<bool, AllocError> {
    let mut pages = chain_of(alloc, chain.order)?;
    if pages.count() != 3 || pages.add_copy(1)? != 3 || pages.count() != 4 {
        return Ok(false);
    }
    Ok(spells(&pages, chain) && is_spelled(pages.page(3), &chain.first, &[0x66; 486]))
}

#[test]
fn copies_a_page(rt: HostRuntime) -> Result<(), Fail> {
    for chain in &CHAINS {
        assert!(rt; copies(rt.alloc(), chain)?);
    }
    Ok(())
}
