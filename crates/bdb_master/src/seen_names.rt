ghost use Rattle.std.specs.Prelude.{◌≡◌, IfOk, OnOk, not};
ghost use Rattle.std.specs.BTreeSet.{IsEmpty};
ghost use Rattle.bdb_master.specs.Names.{HasAdded};
ghost use Rattle.bdb_format.specs.Terms.{file_of};
ghost use Rattle.bdb_btree.specs.of_image.Linked.{FitsChain};
ghost use Rattle.bdb_overflow.specs.Datum.{datum_seen};
ghost use Rattle.bdb_overflow.specs.Held.{FitsHeld, chain_value, value_held};
ghost use Rattle.bdb_overflow.specs.Keys.{has_key};

use bdb_btree::Forest;
use bdb_overflow::{Datum, Held, Keys};
use std::alloc::{AllocError, Global};
use std::collections::BTreeSet;
use std::marker::Model;

/// The names seen so far, and the heads of those that are chains: a chain that was seen isn't read again.
#[derive(Drop)]
pub(crate) struct SeenNames<'a> {
    forest: Forest<'a>,
    keys: Keys<'a>,
    heads: BTreeSet<u32>,
}

impl<'a> Model for SeenNames<'a> {
    ghost use Rattle.bdb_buckets.specs.Chained.{AreAmong, Seen};

    ghost Value = { Seen };

    ghost view = { λ v. record { image = v.forest; keys = v.keys } };

    ghost invariant = { λ v. AreAmong (record { image = v.forest; keys = v.keys }) v.heads };
}

impl<'a> SeenNames<'a> {
    /// No name.
    pub(crate) fn new(alloc: Global, forest: Forest<'a>) -> SeenNames<'a>
        ensures image { result.image ≡ forest.entry }
        ensures none { IsEmpty result.keys }
    {
        SeenNames {
            forest,
            keys: Keys::new(alloc),
            heads: BTreeSet::new(alloc),
        }
    }

    /// Adds a name, and says whether it's new. An error means that memory ran out.
    pub(crate) fn add(&mut self, name: Held<'a>) -> Result<bool, AllocError>
        requires { FitsHeld (file_of self.old.image) name }
        ensures added { IfOk result (λ is_new. is_new ≡ not (has_key self.old.keys (value_held (file_of self.old.image) name.entry))) }
        ensures keys { OnOk result (HasAdded self.old.keys self.new.keys (value_held (file_of self.old.image) name.entry)) }
        ensures same { self.new.image ≡ self.old.image }
    {
        match name {
            Held::Inline(bytes) => self.add_value(Datum::Inline(bytes)),
            Held::Chained(head) => self.add_chain(head),
        }
    }

    /// The same of a chain.
    fn add_chain(&mut self, head: u32) -> Result<bool, AllocError>
        requires { FitsChain (file_of self.old.image) head }
        ensures added { IfOk result (λ is_new. is_new ≡ not (has_key self.old.keys (chain_value (file_of self.old.image) head))) }
        ensures keys { OnOk result (HasAdded self.old.keys self.new.keys (chain_value (file_of self.old.image) head)) }
        ensures same { self.new.image ≡ self.old.image }
    {
        if self.heads.contains(&head) {
            return Ok(false);
        }
        let name = Held::Chained(head).datum(&self.forest);
        let is_new = self.add_value(name)?;
        self.heads.insert(head)?;
        Ok(is_new)
    }

    /// The same of any value, which is compared with those seen.
    #[tactic(auto, using(crate::proofs::RepeatLemmas::names_added))]
    fn add_value(&mut self, name: Datum<'a>) -> Result<bool, AllocError>
        ensures added { IfOk result (λ is_new. is_new ≡ not (has_key self.old.keys (datum_seen name.entry))) }
        ensures keys { OnOk result (HasAdded self.old.keys self.new.keys (datum_seen name.entry)) }
        ensures same { self.new.image ≡ self.old.image }
    {
        let is_new = self.keys.add(name)?;
        Ok(is_new)
    }
}
