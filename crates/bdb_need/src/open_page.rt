ghost use Rattle.std.specs.Prelude.{◌≡◌, ◌+◌, ◌≤◌, ◌<◌, ◌*◌, ◌^◌, ◌∷◌, [], replicate};
ghost use Rattle.bdb_mkhash.specs.of_mkleaves.Spread.{pages_over};
ghost use Rattle.bdb_need.specs.Counting.{ArePut};

use crate::levels::levels_over_counts;

/// Pages on which things are put from left to right: how many are closed, and how many bytes the open one has left.
#[derive(Clone, Copy)]
pub(crate) struct OpenPage {
    room: usize,
    closed: u128,
    left: usize,
}

impl OpenPage {
    /// The first page, with nothing on it.
    pub(crate) fn new(room: usize) -> OpenPage
        ensures { result ≡ record { room = room; closed = 0; left = room } }
    {
        OpenPage {
            room,
            closed: 0,
            left: room,
        }
    }

    /// Puts a thing on the open page where that has enough left, and else on a new one.
    pub(crate) fn put(&mut self, cost: usize)
        requires fits { cost ≤ self.old.room }
        requires few { self.old.closed < 2 ^ 100 }
        ensures { ArePut self.old self.new (cost ∷ []) }
    {
        if cost <= self.left {
            self.left -= cost;
        } else {
            self.closed += 1;
            self.left = self.room - cost;
        }
    }

    /// Puts so many things that take the same.
    pub(crate) fn put_many(&mut self, count: u64, cost: usize)
        requires some { 0 < cost }
        requires fits { cost ≤ self.old.room }
        requires few { self.old.closed < 2 ^ 100 }
        ensures { ArePut self.old self.new (replicate count cost) }
    {
        let here = (self.left / cost) as u64;
        if count <= here {
            self.left -= count as usize * cost;
            return;
        }
        let rest = count - here - 1;
        let each = (self.room / cost) as u64;
        self.closed += u128::from(rest / each + 1);
        self.left = self.room - (rest % each + 1) as usize * cost;
    }

    /// The pages as leaves of a tree, with the levels over them, whose items count records.
    pub(crate) fn tree_pages(&self) -> u128
        requires room { 60 ≤ self.now.room }
        requires few { self.now.closed < 2 ^ 100 }
        ensures pages { result ≡ (self.now.closed + 1) + pages_over (self.now.closed + 1) self.now.room 10 (replicate (self.now.closed + 1) 10) }
        ensures few { result ≤ 3 * (self.now.closed + 1) }
    {
        let leaves = self.closed + 1;
        leaves + levels_over_counts(leaves, self.room)
    }
}
