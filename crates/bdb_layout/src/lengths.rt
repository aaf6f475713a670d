//! How long things are: items, pages, slots of a queue page, and what is padded.
ghost use Rattle.std.specs.Prelude.{◌≡◌, ◌+◌, ◌*◌, ◌<◌, ◌≤◌, ◌^◌, drop, length, take};
ghost use Rattle.bdb_format.specs.Terms.{entries_of, hash_end, index_end, internal_end, leaf_end, pad4, records_per_page};

use crate::{offset_at, u16_at};
use bdb_format::Order;

/// Where the item of a leaf that begins at a place ends.
pub fn leaf_end(page: &[u8], order: Order, at: usize) -> usize
    requires { at + 3 ≤ length page.now }
    ensures { result ≡ leaf_end order page.now at }
{
    match page[at + 2] % 128 {
        1 => at + 3 + usize::from(u16_at(page, at, order)),
        _ => at + 12,
    }
}

/// Where the item of an internal page with keys that begins at a place ends.
pub fn internal_end(page: &[u8], order: Order, at: usize) -> usize
    requires { at + 2 ≤ length page.now }
    ensures { result ≡ internal_end order page.now at }
{
    at + 12 + usize::from(u16_at(page, at, order))
}

/// Where the item of an internal page of a recno tree that begins at a place ends.
pub fn recno_end(at: usize) -> usize
    requires { at < 2 ^ 63 }
    ensures { result ≡ at + 8 }
{
    at + 8
}

// Where an item of a hash page ends: where the one before it begins, the first at the page's end.
pub(crate) fn hash_end(page: &[u8], order: Order, index: u16) -> usize
    requires room { index_end order page.now ≤ length page.now }
    requires entry { index < entries_of order page.now }
    ensures { result ≡ hash_end order page.now index }
{
    if index == 0 {
        page.len()
    } else {
        usize::from(offset_at(page, order, index - 1))
    }
}

/// The bytes of a page of an image.
pub fn page_slice(image: &[u8], size: u32, number: u32) -> &[u8]
    requires { number * size + size ≤ length image.now }
    ensures bytes { result.now ≡ take size (drop (number * size) image.now) }
    ensures whole { length result.now ≡ size }
{
    let size = size as usize;
    let start = number as usize * size;
    &image[start..start + size]
}

/// How many bytes a thing of a length takes where each is padded to a multiple of 4.
pub fn pad4(length: usize) -> usize
    requires { length + 3 < 2 ^ 64 }
    ensures { result ≡ pad4 length }
{
    length.div_ceil(4) * 4
}

/// The bytes of a slot of a queue page: the one that says what it is, the record, and what pads them.
pub fn slot_size(re_len: u32) -> usize
    ensures size { result ≡ pad4 (re_len + 1) }
    ensures room { re_len + 1 ≤ result }
    ensures high { result ≤ re_len + 4 }
{
    pad4(re_len as usize + 1)
}

/// How many records of `re_len` bytes stand on a page of `size` bytes.
pub fn records_per_page(size: u32, re_len: u32) -> u32
    requires { 28 ≤ size }
    ensures { result ≡ records_per_page size re_len }
{
    ((size as usize - 28) / slot_size(re_len)) as u32
}
