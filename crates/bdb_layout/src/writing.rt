ghost use Rattle.std.specs.Prelude.{◌≡◌, ◌+◌, ◌<◌, ◌≤◌, ◌^◌, ◌∷◌, ◌++◌, [], length};
ghost use Rattle.bdb_format.specs.Terms.{IsKey, IsLeafContent, hash_bytes, header_bytes, internal_bytes, kind_byte, leaf_bytes, overwritten, recno_bytes};
ghost use Rattle.bdb_format.specs.Terms.{spelled};
ghost use Rattle.bdb_layout.specs.Seen.{HasOrder, hash_content_seen, internal_item_seen, leaf_item_seen};

use crate::items::{HashItem, InternalItem, InternalKey, LeafItem};
use crate::numbers::{put_u16, put_u32};
use bdb_format::{Header, Order, RecnoItem};

// The kinds of an item of a leaf, and of the key of an internal item.
const INLINE: u8 = 1;

const DUPLICATES: u8 = 2;

const OVERFLOW: u8 = 3;

// The kinds of an item of a hash page.
const HASH_INLINE: u8 = 1;

const HASH_SET: u8 = 2;

const HASH_OVERFLOW: u8 = 3;

const HASH_OFF_PAGE: u8 = 4;

// Writes a byte.
fn put_byte(page: &mut [u8], at: usize, byte: u8)
    requires { at + 1 ≤ length page.old }
    ensures { page.new ≡ overwritten page.old at (byte ∷ []) }
{
    page[at] = byte;
}

// Writes bytes from a place on.
fn put_bytes(page: &mut [u8], at: usize, bytes: &[u8])
    requires { at + length bytes.now ≤ length page.old }
    ensures { page.new ≡ overwritten page.old at bytes.now }
{
    page[at..at + bytes.len()].copy_from_slice(bytes);
}

// Writes two numbers of four bytes.
fn put_pair(page: &mut [u8], at: usize, order: Order, first: u32, second: u32)
    requires { at + 8 ≤ length page.old }
    ensures { page.new ≡ overwritten page.old at (spelled 4 order first ++ spelled 4 order second) }
{
    put_u32(page, at, order, first);
    put_u32(page, at + 4, order, second);
}

/// Writes a header into the first 26 bytes, with a log sequence number of 0 and 1.
pub fn put_header(page: &mut [u8], order: Order, header: &Header)
    requires { 26 ≤ length page.old }
    ensures { page.new ≡ overwritten page.old 0 (header_bytes order header.now) }
{
    put_pair(page, 0, order, 0, 1);
    put_u32(page, 8, order, header.number);
    put_u32(page, 12, order, header.previous);
    put_u32(page, 16, order, header.next);
    put_u16(page, 20, order, header.entries);
    put_u16(page, 22, order, header.high_free);
    put_bytes(page, 24, &[header.level, header.page_type]);
}

// The kind of an item of a leaf, with the bit of a deleted one.
fn kind_byte(kind: u8, deleted: bool) -> u8
    requires { kind < 128 }
    ensures { result ≡ kind_byte kind deleted }
{
    if deleted { kind + 128 } else { kind }
}

// Writes an item of a leaf that lies off the page: its kind and two numbers.
fn put_off_page(page: &mut [u8], at: usize, order: Order, kind: u8, first: u32, second: u32)
    requires { at + 12 ≤ length page.old }
    ensures { page.new ≡ overwritten page.old at (0 ∷ 0 ∷ kind ∷ 0 ∷ (spelled 4 order first ++ spelled 4 order second)) }
{
    put_bytes(page, at, &[0, 0, kind, 0]);
    put_pair(page, at + 4, order, first, second);
}

// Writes an item of a leaf that lies on the page: its length, its kind and its bytes.
fn put_on_page(page: &mut [u8], at: usize, order: Order, kind: u8, bytes: &[u8])
    requires room { at + 3 + length bytes.now ≤ length page.old }
    requires short { length bytes.now < 2 ^ 16 }
    ensures { page.new ≡ overwritten page.old at (spelled 2 order (length bytes.now) ++ (kind ∷ bytes.now)) }
{
    put_u16(page, at, order, bytes.len() as u16);
    put_byte(page, at + 2, kind);
    put_bytes(page, at + 3, bytes);
}

/// Writes an item of a leaf at a place of a page. All other bytes stay, as they do with each writer.
pub fn put_leaf_item(page: &mut [u8], order: Order, at: usize, item: &LeafItem<'_>)
    requires fits { IsLeafContent (leaf_item_seen item.now).content }
    requires room { at + length (leaf_bytes order (leaf_item_seen item.now)) ≤ length page.old }
    ensures { page.new ≡ overwritten page.old at (leaf_bytes order (leaf_item_seen item.now)) }
{
    match *item {
        LeafItem::Inline { bytes, deleted } => {
            let kind = kind_byte(INLINE, deleted);
            put_on_page(page, at, order, kind, bytes);
        }
        LeafItem::Duplicates { root, deleted } => {
            let kind = kind_byte(DUPLICATES, deleted);
            put_off_page(page, at, order, kind, root, 0);
        }
        LeafItem::Overflow {
            head,
            total,
            deleted,
        } => {
            let kind = kind_byte(OVERFLOW, deleted);
            put_off_page(page, at, order, kind, head, total);
        }
    }
}

// Writes an item of an internal page up to its key: the key's length and kind, the page below and
// its record count.
fn put_internal_start(
    page: &mut [u8],
    at: usize,
    order: Order,
    size: u16,
    kind: u8,
    item: &InternalItem<'_>,
)
    requires { at + 12 ≤ length page.old }
    ensures { page.new ≡ overwritten page.old at (spelled 2 order size ++ (kind ∷ 0 ∷ (spelled 4 order item.now.child ++ spelled 4 order item.now.count))) }
{
    put_u16(page, at, order, size);
    put_bytes(page, at + 2, &[kind, 0]);
    put_pair(page, at + 4, order, item.child, item.count);
}

/// Writes an item of an internal page.
pub fn put_internal_item(page: &mut [u8], order: Order, at: usize, item: &InternalItem<'_>)
    requires fits { IsKey (internal_item_seen item.now).key }
    requires room { at + length (internal_bytes order (internal_item_seen item.now)) ≤ length page.old }
    ensures { page.new ≡ overwritten page.old at (internal_bytes order (internal_item_seen item.now)) }
{
    match item.key {
        InternalKey::Inline(key) => {
            put_internal_start(page, at, order, key.len() as u16, INLINE, item);
            put_bytes(page, at + 12, key);
        }
        InternalKey::Overflow { head, total } => {
            put_internal_start(page, at, order, 12, OVERFLOW, item);
            put_off_page(page, at + 12, order, OVERFLOW, head, total);
        }
    }
}

/// Writes an item of an internal page of a recno tree.
pub fn put_recno_item(page: &mut [u8], order: Order, at: usize, item: &RecnoItem)
    requires { at + length (recno_bytes order item.now) ≤ length page.old }
    ensures { page.new ≡ overwritten page.old at (recno_bytes order item.now) }
{
    put_pair(page, at, order, item.child, item.count);
}

// Writes an item of a hash page that lies on it: its kind and its bytes.
fn put_hash_bytes(page: &mut [u8], at: usize, kind: u8, bytes: &[u8])
    requires { at + 1 + length bytes.now ≤ length page.old }
    ensures { page.new ≡ overwritten page.old at (kind ∷ bytes.now) }
{
    put_byte(page, at, kind);
    put_bytes(page, at + 1, bytes);
}

// Writes an item of a hash page that names a chain of overflow pages.
fn put_hash_chain(page: &mut [u8], at: usize, order: Order, head: u32, total: u32)
    requires { at + 12 ≤ length page.old }
    ensures { page.new ≡ overwritten page.old at (3 ∷ 0 ∷ 0 ∷ 0 ∷ (spelled 4 order head ++ spelled 4 order total)) }
{
    put_bytes(page, at, &[HASH_OVERFLOW, 0, 0, 0]);
    put_pair(page, at + 4, order, head, total);
}

// Writes an item of a hash page that names the root of a set off the page.
fn put_hash_root(page: &mut [u8], at: usize, order: Order, root: u32)
    requires { at + 8 ≤ length page.old }
    ensures { page.new ≡ overwritten page.old at (4 ∷ 0 ∷ 0 ∷ 0 ∷ spelled 4 order root) }
{
    put_bytes(page, at, &[HASH_OFF_PAGE, 0, 0, 0]);
    put_u32(page, at + 4, order, root);
}

/// Writes an item of a hash page. A set must be spelled in the order of the call.
pub fn put_hash_item(page: &mut [u8], order: Order, at: usize, item: &HashItem<'_>)
    requires same_order { HasOrder order item.now }
    requires room { at + length (hash_bytes order (hash_content_seen item.now)) ≤ length page.old }
    ensures { page.new ≡ overwritten page.old at (hash_bytes order (hash_content_seen item.now)) }
{
    match item {
        HashItem::Inline(bytes) => put_hash_bytes(page, at, HASH_INLINE, bytes),
        HashItem::Set(set) => {
            let run = set.bytes();
            put_hash_bytes(page, at, HASH_SET, run);
        }
        HashItem::Overflow { head, total } => put_hash_chain(page, at, order, *head, *total),
        HashItem::OffPage { root } => put_hash_root(page, at, order, *root),
    }
}
