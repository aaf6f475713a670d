ghost use Rattle.std.specs.Prelude.{◌≡◌, true, not, IfOk, OnErr, OnOk};
ghost use Rattle.std.specs.BTreeSet.{IsEmpty, IsUnchanged, Updates};
ghost use Rattle.std.specs.Cmp.Lexicographic.{slice_cmp};
ghost use Rattle.std.specs.Ordering.{nat_cmp};
ghost use Rattle.bdb_overflow.specs.Datum.{datum_seen};
ghost use Rattle.bdb_overflow.specs.Keys.{has_key};

use crate::{Datum, Key};
use std::alloc::{AllocError, Global};
use std::collections::BTreeSet;
use std::marker::Model;

/// The keys seen so far.
#[derive(Drop)]
pub struct Keys<'a> {
    set: BTreeSet<Key<'a>>,
}

impl<'a> Model for Keys<'a> {
    ghost use Rattle.std.specs.Prelude.{List, ℕ};
    ghost use Rattle.std.specs.BTreeSet.{BTreeSet};

    ghost Value = { BTreeSet (List ℕ) };

    ghost view = { λ it. it.set };
}

impl<'a> Keys<'a> {
    /// No key.
    pub fn new(alloc: Global) -> Keys<'a>
        ensures { IsEmpty result }
    {
        Keys {
            set: BTreeSet::new(alloc),
        }
    }

    /// Adds a key, and says whether it's new. An error means that memory ran out.
    pub fn add(&mut self, key: Datum<'a>) -> Result<bool, AllocError>
        ensures added { IfOk result (λ is_new. is_new ≡ not (has_key self.old (datum_seen key.entry))) }
        ensures updates { OnOk result (Updates (slice_cmp nat_cmp) self.old self.new (datum_seen key.entry) true) }
        ensures unchanged { OnErr result (IsUnchanged self.old self.new) }
    {
        let is_new = self.set.insert(Key::of(key))?;
        Ok(is_new)
    }
}
