ghost use Rattle.std.specs.Prelude.{◌≡◌, ◌+◌, ◌/◌, ◌≤◌, ◌<◌, ◌^◌, IsTrue};
ghost use Rattle.bdb_places.specs.of_format.Terms.{is_page_size};
ghost use Rattle.bdb_places.specs.Places.{values_seen};
ghost use Rattle.bdb_mkleaves.specs.Runs.{IsShort};
ghost use Rattle.bdb_mkleaves.specs.Spread.{key_item_cost};
ghost use Rattle.bdb_mkleaves.specs.Units.{KeyedUnit, chain_pages, has_own_tree, length_chain, length_cost, page_room, record_cost, unit_cost, value_cost};

use bdb_pack::pad4;
use bdb_places::Values;

/// The bytes of a page behind its header.
pub fn page_room(size: usize) -> usize
    requires { IsTrue (is_page_size size) }
    ensures { result ≡ page_room size }
{
    size - 26
}

/// The bytes of the item on a leaf of a value of so many bytes: a long one has a chain.
pub fn length_cost(size: usize, len: usize) -> usize
    requires { IsTrue (is_page_size size) }
    ensures cost { result ≡ length_cost size len }
    ensures few { result ≤ size / 8 + 12 }
{
    if len <= size / 8 { pad4(3 + len) } else { 12 }
}

/// The bytes of a value's item on a leaf.
pub fn value_cost(size: usize, value: &[u8]) -> usize
    requires { IsTrue (is_page_size size) }
    ensures cost { result ≡ value_cost size value.now }
    ensures few { result ≤ size / 8 + 12 }
{
    length_cost(size, value.len())
}

/// What a record, or a datum of a set, takes of its leaf, by the length of its value.
pub fn record_cost(size: usize, len: usize) -> usize
    requires { IsTrue (is_page_size size) }
    ensures cost { result ≡ record_cost size len }
    ensures fits { result ≤ page_room size }
{
    2 + length_cost(size, len)
}

/// How many pages the chain of a value of so many bytes has: none where it stands on the leaf.
pub fn length_chain(size: usize, len: usize) -> u128
    requires legal { IsTrue (is_page_size size) }
    requires short { len < 2 ^ 32 }
    ensures pages { result ≡ length_chain size len }
    ensures few { result ≤ 2 ^ 32 }
{
    if len <= size / 8 {
        return 0;
    }
    let room = page_room(size);
    ((len + room - 1) / room) as u128
}

/// How many pages the chain of a value has.
pub fn chain_pages(size: usize, value: &[u8]) -> u128
    requires legal { IsTrue (is_page_size size) }
    requires short { IsShort value.now }
    ensures pages { result ≡ chain_pages size value.now }
    ensures few { result ≤ 2 ^ 32 }
{
    length_chain(size, value.len())
}

/// What the item over a leaf takes of its page where it isn't the first; the leaf begins with this key.
pub fn key_item_cost(size: usize, key: &[u8]) -> u16
    requires { IsTrue (is_page_size size) }
    ensures cost { result ≡ key_item_cost size key.now }
    ensures fits { result + 14 ≤ page_room size }
{
    if key.len() <= size / 8 {
        (2 + pad4(12 + key.len())) as u16
    } else {
        26
    }
}

/// What a key with its data takes of its leaf.
#[derive(Clone, Copy)]
pub struct LeafCost {
    /// The bytes of its items and entries.
    pub cost: usize,
    /// Whether its data have a tree of their own, as they would take too much: then they count with its root.
    pub has_tree: bool,
}

/// What a key takes of its leaf: with all its data, or with the root of their tree. It ends where the data take too much, so that no sum is too large.
pub fn leaf_cost(size: usize, key: &[u8], values: Values<'_>) -> LeafCost
    requires { IsTrue (is_page_size size) }
    ensures cost { result.cost ≡ unit_cost size (KeyedUnit key.now (values_seen values.entry)) }
    ensures tree { result.has_tree ≡ has_own_tree size key.now (values_seen values.entry) }
    ensures fits { result.cost ≤ page_room size }
{
    let alone = value_cost(size, key);
    let most = page_room(size) / 4;
    let mut cost = alone;
    for i in 0..values.len() {
        cost += 4 + value_cost(size, values.at(i));
        if values.len() > 1 && cost > most {
            return LeafCost {
                cost: alone + 16,
                has_tree: true,
            };
        }
    }
    LeafCost {
        cost,
        has_tree: false,
    }
}
