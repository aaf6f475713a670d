ghost use Rattle.std.specs.Prelude.{◌≡◌, ◌+◌, ◌-◌, ◌*◌, ◌/◌, ◌<◌, ◌≤◌, ◌^◌, IfOk, IsTrue, length, min, take, replicate};
ghost use Rattle.bdb_layout.specs.of_format.Terms.{header_bytes, is_page_size, overwritten};
ghost use Rattle.bdb_pack.specs.Built.{with_page};
ghost use Rattle.bdb_pack.specs.Values.{IsStored, chain_page, piece_length, piece_next, with_piece};

use crate::Pages;
use bdb_layout::{Header, Order, PageType, put_header};
use std::alloc::AllocError;

/// Where a value stands: on the page, or in a chain of its own.
#[derive(Drop)]
pub enum Stored {
    Inline,
    Chain { head: u32, total: u32 },
}

// Writes a page of a chain over a zero page.
fn put_piece(page: &mut [u8], order: Order, header: &Header, piece: &[u8])
    requires { 26 + length piece.now ≤ length page.old }
    ensures { page.new ≡ overwritten (overwritten page.old 0 (header_bytes order header.now)) 26 piece.now }
{
    put_header(page, order, header);
    put_bytes(page, 26, piece);
}

// Writes bytes from a place on.
fn put_bytes(page: &mut [u8], at: usize, bytes: &[u8])
    requires { at + length bytes.now ≤ length page.old }
    ensures { page.new ≡ overwritten page.old at bytes.now }
{
    page[at..at + bytes.len()].copy_from_slice(bytes);
}

// How many bytes of what is left a page takes.
fn piece_len(size: usize, rest: &[u8]) -> usize
    requires { 26 ≤ size }
    ensures { result ≡ piece_length size rest.now }
{
    if size - 26 < rest.len() {
        size - 26
    } else {
        rest.len()
    }
}

// The number of the next page of a chain, 0 after the last.
fn next_number(size: usize, number: u32, rest: &[u8]) -> u32
    requires size { 26 ≤ size }
    requires number { number < 2 ^ 21 }
    ensures { result ≡ piece_next size number rest.now }
{
    if piece_len(size, rest) < rest.len() {
        number + 1
    } else {
        0
    }
}

// Adds a page of a chain with the first bytes of what is left of a value, and answers its number and how many they are.
fn push_piece(pages: &mut Pages, previous: u32, rest: &[u8]) -> Result<(u32, usize), AllocError>
    requires few { length pages.old.pages < 2 ^ 21 }
    requires some { 0 < length rest.now }
    ensures number { IfOk result (λ added. added.0 ≡ length pages.old.pages) }
    ensures taken { IfOk result (λ added. added.1 ≡ min (pages.old.size - 26) (length rest.now)) }
    ensures page { IfOk result (λ _. pages.new ≡ with_piece pages.old previous rest.now) }
{
    let order = pages.order();
    let size = pages.size();
    let number = pages.add()?;
    let n = piece_len(size, rest);
    let next = next_number(size, number, rest);
    let header = Header {
        number,
        previous,
        next,
        entries: 1,
        high_free: n as u16,
        level: 0,
        page_type: PageType::OVERFLOW,
    };
    put_piece(pages.page_mut(number), order, &header, &rest[..n]);
    Ok((number, n))
}

/// Stores a value: a short one stands on the page of its item, a longer one in a chain of its own. An error means
/// that memory ran out.
pub fn push_value(pages: &mut Pages, value: &[u8]) -> Result<Stored, AllocError>
    requires short { length value.now < 2 ^ 32 }
    requires first { 0 < length pages.old.pages }
    requires few { pages.old.size / 8 < length value.now → length value.now ≤ (2 ^ 21 - length pages.old.pages) * (pages.old.size - 26) }
    ensures { IfOk result (λ stored. IsStored pages.old pages.new value.now stored) }
{
    if value.len() <= pages.size() / 8 {
        return Ok(Stored::Inline);
    }
    let head = pages.count();
    let mut previous = 0;
    let mut rest = value;
    while !rest.is_empty() {
        let (number, n) = push_piece(pages, previous, rest)?;
        previous = number;
        rest = &rest[n..];
    }
    Ok(Stored::Chain {
        head,
        total: value.len() as u32,
    })
}
