ghost use Rattle.std.specs.Prelude.{◌≡◌, ◌∷◌, [], OnOk, true};
ghost use Rattle.bdb_ranks.specs.of_overflow.Keys.{has_key};
ghost use Rattle.std.specs.BTreeSet.{IsEmpty};
ghost use Rattle.bdb_buckets.specs.Chained.{chain_value};
ghost use Rattle.bdb_hash.specs.Passed.{NotesRepeats};

use bdb_buckets::Pair;
use bdb_faults::{FaultSink, note_if};
use bdb_ranks::{ContentsRow, Forest, Keys, Row};
use std::alloc::{AllocError, Global};
use std::collections::BTreeSet;
use std::marker::Model;

/// The keys seen so far, and the heads of those that are chains: a chain that was seen isn't read again.
#[derive(Drop)]
pub(crate) struct SeenKeys<'a> {
    forest: Forest<'a>,
    keys: Keys<'a>,
    heads: BTreeSet<u32>,
}

impl<'a> Model for SeenKeys<'a> {
    ghost use Rattle.bdb_buckets.specs.Chained.{AreAmong, Seen};

    ghost Value = { Seen };

    ghost view = { λ v. record { image = v.forest; keys = v.keys } };

    ghost invariant = { λ v. AreAmong (record { image = v.forest; keys = v.keys }) v.heads };
}

impl<'a> SeenKeys<'a> {
    /// No key.
    pub(crate) fn new(alloc: Global, forest: Forest<'a>) -> SeenKeys<'a>
        ensures image { result.image ≡ forest.entry }
        ensures none { IsEmpty result.keys }
    {
        SeenKeys {
            forest,
            keys: Keys::new(alloc),
            heads: BTreeSet::new(alloc),
        }
    }

    /// Notes a pair whose key is among these, and adds its key. An error means that memory ran out.
    #[tactic(auto, using(bdb_buckets::proofs::HeadLemmas::chain_key))]
    pub(crate) fn note<F: FaultSink>(
        &mut self,
        pair: &Pair<'a>,
        found: &mut F,
    ) -> Result<(), AllocError>
        requires { pair.now.image ≡ self.old.image }
        ensures noted { OnOk result (NotesRepeats self.old.keys self.new.keys (F.has_noted found.old) (F.has_noted found.new) (pair.now ∷ [])) }
        ensures same { self.new.image ≡ self.old.image }
    {
        match pair.head() {
            Some(head) => self.note_chain(head, pair, found),
            None => self.note_next(pair, found),
        }
    }

    /// The same, where the key is the chain with this head.
    fn note_chain<F: FaultSink>(
        &mut self,
        head: u32,
        pair: &Pair<'a>,
        found: &mut F,
    ) -> Result<(), AllocError>
        requires pair { pair.now.image ≡ self.old.image }
        requires head { pair.now.pair.key ≡ chain_value pair.now.image head }
        ensures noted { OnOk result (NotesRepeats self.old.keys self.new.keys (F.has_noted found.old) (F.has_noted found.new) (pair.now ∷ [])) }
        ensures same { self.new.image ≡ self.old.image }
    {
        if self.heads.contains(&head) {
            return found.note(Row::Contents(ContentsRow::KeyTwice), pair.page());
        }
        self.note_next(pair, found)?;
        self.heads.insert(head)?;
        Ok(())
    }

    /// The same of any key, which is compared with those seen.
    fn note_next<F: FaultSink>(&mut self, pair: &Pair<'a>, found: &mut F) -> Result<(), AllocError>
        ensures noted { OnOk result (NotesRepeats self.old.keys self.new.keys (F.has_noted found.old) (F.has_noted found.new) (pair.now ∷ [])) }
        ensures has { OnOk result (has_key self.new.keys pair.now.pair.key ≡ true) }
        ensures same { self.new.image ≡ self.old.image }
    {
        let is_new = self.keys.add(pair.key().again())?;
        note_if(
            found,
            Row::Contents(ContentsRow::KeyTwice),
            pair.page(),
            !is_new,
        )?;
        Ok(())
    }
}
