//! What is counted of a file.
ghost use Rattle.std.specs.Prelude.{◌≡◌, ◌<◌, ◌^◌, ◌-◌};
ghost use Rattle.bdb_stat.specs.declared.class.Class.{Class as AnyClass};
ghost use Rattle.bdb_stat.specs.Figures.{Counts, count_in};

use crate::class::Class;

/// The figures of a file's pages: how many there are, how many of each class, the greatest level of a page of a tree (a leaf has level 1; 0 without
/// trees), and how many bytes in them hold nothing.
#[derive(Clone, Copy, Debug, PartialEq, Eq)]
pub struct Stat {
    pub pages: u32,
    pub meta: u32,
    pub internal: u32,
    pub leaf: u32,
    pub hash: u32,
    pub overflow: u32,
    pub free: u32,
    pub reserve: u32,
    pub queue: u32,
    pub tail: u32,
    pub levels: u8,
    pub unused: u64,
}

impl Stat {
    /// The figures of a file of so many pages, of which none is counted yet.
    pub(crate) fn of(pages: u32) -> Stat
        ensures pages { result.pages ≡ pages }
        ensures classes { (class : AnyClass) → count_in result class ≡ 0 }
        ensures levels { result.levels ≡ 0 }
        ensures unused { result.unused ≡ 0 }
    {
        Stat {
            pages,
            meta: 0,
            internal: 0,
            leaf: 0,
            hash: 0,
            overflow: 0,
            free: 0,
            reserve: 0,
            queue: 0,
            tail: 0,
            levels: 0,
            unused: 0,
        }
    }

    /// Counts one more page of a class.
    pub(crate) fn count(&mut self, class: Class)
        requires { (other : AnyClass) → count_in self.old other < 2 ^ 32 - 1 }
        ensures { Counts class self.old self.new }
    {
        match class {
            Class::Meta => self.meta += 1,
            Class::Internal => self.internal += 1,
            Class::Leaf => self.leaf += 1,
            Class::Hash => self.hash += 1,
            Class::Overflow => self.overflow += 1,
            Class::Free => self.free += 1,
            Class::Reserve => self.reserve += 1,
            Class::Queue => self.queue += 1,
            Class::Tail => self.tail += 1,
        }
    }
}
