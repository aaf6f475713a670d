ghost use Rattle.std.specs.Prelude.{ℕ, ◌≡◌, ◌+◌, ◌-◌, ◌≤◌, ◌<◌, ◌*◌, ◌∷◌, ◌++◌, [], OnOk, length};
ghost use Rattle.std.specs.List.{All};
ghost use Rattle.bdb_mkhash.specs.of_mkleaves.Spread.{pages_over};

use crate::levels::levels_over_keys;
use std::alloc::{AllocError, Global};

/// Leaves on which units are put from left to right: how many bytes the open one has left, and what the items over them would take of
/// a page, but that over the first leaf.
#[derive(Drop)]
pub(crate) struct KeyedLeaves {
    room: usize,
    left: usize,
    items: Vec<u16>,
}

impl KeyedLeaves {
    /// The first leaf, with nothing on it.
    pub(crate) fn new(alloc: Global, room: usize) -> KeyedLeaves
        ensures room { result.room ≡ room }
        ensures left { result.left ≡ room }
        ensures items { result.items.items ≡ [] }
    {
        KeyedLeaves {
            room,
            left: room,
            items: Vec::new(alloc),
        }
    }

    /// Puts a unit on the open leaf where that has enough left, and else on a new one, over which an item takes `item` bytes.
    pub(crate) fn put(&mut self, cost: usize, item: u16) -> Result<(), AllocError>
        requires { cost ≤ self.old.room }
        ensures room { self.new.room ≡ self.old.room }
        ensures left { cost ≤ self.old.left → OnOk result (self.new.left ≡ self.old.left - cost) }
        ensures same { cost ≤ self.old.left → OnOk result (self.new.items.items ≡ self.old.items.items) }
        ensures begun { self.old.left < cost → OnOk result (self.new.left ≡ self.old.room - cost) }
        ensures few { OnOk result (length self.new.items.items ≤ length self.old.items.items + 1) }
        ensures more { self.old.left < cost → OnOk result (self.new.items.items ≡ self.old.items.items ++ (item ∷ [])) }
    {
        if cost <= self.left {
            self.left -= cost;
        } else {
            self.items.push(item)?;
            self.left = self.room - cost;
        }
        Ok(())
    }

    /// The leaves, with the levels over them.
    pub(crate) fn tree_pages(self) -> u128
        requires room { 14 ≤ self.room }
        requires fit { All (λ cost. cost ≤ self.room - 14) self.items.items }
        ensures pages { (first : ℕ) → result ≡ (length self.items.items + 1)
            + pages_over (length self.items.items + 1) self.room 14 (first ∷ self.items.items) }
        ensures few { result ≤ 3 * (length self.items.items + 1) }
    {
        let KeyedLeaves {
            room,
            left: _,
            items,
        } = self;
        let leaves = items.len() as u128 + 1;
        leaves + levels_over_keys(items, room)
    }
}
