//! Pairs that share bytes of their run.
ghost use Rattle.std.specs.Prelude.{◌≡◌, ◌-◌, ◌+◌, ◌^◌, ◌<◌, ◌≤◌, [], ℕ, List, IfOk, IfSome, IsSome, OnErr, OnOk, Some, drop, get_or, length, slice_range, take};
ghost use Rattle.bdb_places.specs.Places.{span_in};
ghost use Rattle.bdb_text_format.specs.Gathered.{Extends, HasChains, IsSpanOf, noted, with_again, with_pair};
ghost use Rattle.bdb_text_format.specs.Placed.{IsKeyPlaced, IsPiecePut, Keeps, pair_with, placed_key};
ghost use Rattle.bdb_text_format.specs.declared.pairs.TextPair.{TextPair};

use crate::pairs::{PlacedPairs, TextPairs, found, put};
use bdb_places::{Place, PlacedKey, Span};
use std::alloc::{AllocError, Global};
use std::collections::BTreeMap;
use std::marker::Model;

/// A run of bytes in the making, with the places of pairs in it, and by its head where the value of a chain stands there: so a chain is put there once,
/// however many pairs name it.
#[derive(Drop)]
pub struct Gathered {
    bytes: Vec<u8>,
    places: Vec<Place>,
    chains: BTreeMap<u32, Span>,
}

impl Model for Gathered {
    ghost use Rattle.bdb_text_format.specs.Gathered.{Gathering};
    ghost use Rattle.bdb_text_format.specs.Placed.{ArePlaced, placed_pairs};
    ghost use Rattle.std.specs.Prelude.{vec_capacity};

    ghost Value = { Gathering };

    ghost view = { λ it. record { bytes = it.bytes.items; chains = it.chains.entries; room = vec_capacity it.bytes; pairs = placed_pairs it.bytes.items it.places.items } };

    ghost invariant = { λ it. ArePlaced it.bytes.items it.places.items };
}

#[tactic(auto, using(crate::proofs::PlacedLemmas::pairs_placed, crate::proofs::GatheredLemmas::extended))]
impl Gathered {
    /// No pairs yet, with room for the places of so many. An error means that memory ran out.
    pub fn new(alloc: Global, pairs: usize) -> Result<Gathered, AllocError>
        ensures pairs { IfOk result (λ it. it.pairs ≡ []) }
        ensures chains { IfOk result (λ it. (value : ℕ → List ℕ) → HasChains value it) }
    {
        Ok(Gathered {
            bytes: Vec::new(alloc),
            places: Vec::with_capacity(alloc, pairs)?,
            chains: BTreeMap::new(alloc),
        })
    }

    /// How many pairs there are.
    pub fn len(&self) -> usize
        ensures { result ≡ length self.now.pairs }
    {
        self.places.len()
    }

    /// Adds bytes at the end of the run, and answers where they stand. An error means that the run would have 2^32 bytes or more, or that memory for more than
    /// its room ran out.
    pub fn put(&mut self, piece: &[u8]) -> Result<Span, AllocError>
        ensures kept { Keeps self.old.bytes self.new.bytes }
        ensures pairs { self.new.pairs ≡ self.old.pairs }
        ensures chains { (value : ℕ → List ℕ) → HasChains value self.old → HasChains value self.new }
        ensures ok { IfOk result (IsPiecePut self.new.bytes piece.now) }
        ensures refused { OnErr result (length self.old.bytes + length piece.now < 2 ^ 32 → self.old.room < length self.old.bytes + length piece.now) }
    {
        put(&mut self.bytes, piece)
    }

    /// Where bytes stand in the run, if they begin at the place `from` of it; else `None`.
    pub fn find(&self, from: usize, piece: &[u8]) -> Option<Span>
        ensures some { IfSome result (IsPiecePut self.now.bytes piece.now) }
        ensures told { length self.now.bytes < 2 ^ 32 → from + length piece.now ≤ length self.now.bytes → slice_range self.now.bytes from (from + length piece.now) ≡ piece.now → IsSome result }
    {
        found(self.bytes.as_slice(), from, piece)
    }

    /// Where the value of the chain with this head stands, if it's there.
    pub fn chain(&self, head: u32) -> Option<Span>
        ensures some { IfSome result (λ span. (value : ℕ → List ℕ) → HasChains value self.now → IsPiecePut self.now.bytes (value head) span) }
        ensures told { result ≡ noted self.now.chains head }
    {
        match self.chains.get(&head) {
            Some(span) => Some(*span),
            None => None,
        }
    }

    /// Adds the value of the chain with this head, and notes where it stands. The errors are those of `put`;
    /// memory may also run out for the note.
    pub fn put_chain(&mut self, head: u32, piece: &[u8]) -> Result<Span, AllocError>
        ensures kept { Keeps self.old.bytes self.new.bytes }
        ensures pairs { self.new.pairs ≡ self.old.pairs }
        ensures chains { (value : ℕ → List ℕ) → piece.now ≡ value head → HasChains value self.old → HasChains value self.new }
        ensures ok { IfOk result (IsPiecePut self.new.bytes piece.now) }
        ensures told { IfOk result (λ span. noted self.new.chains head ≡ Some span) }
    {
        let span = put(&mut self.bytes, piece)?;
        self.chains.insert(head, span)?;
        Ok(span)
    }

    // Adds a pair of a key and a datum that stand in the run, or nothing.
    fn push_one(&mut self, key: PlacedKey, value: Span) -> Result<(), AllocError>
        requires key { IsKeyPlaced self.old.bytes key }
        requires value { IsSpanOf self.old.bytes value }
        ensures ok { OnOk result (self.new ≡ with_pair (pair_with (placed_key self.old.bytes key) (span_in self.old.bytes value) 0) self.old) }
        ensures err { OnErr result (self.new ≡ self.old) }
    {
        self.places.push(Place {
            key,
            value,
            line: 0,
        })?;
        Ok(())
    }

    /// Adds a pair of a key and a datum that stand in the run. An error means that memory ran out.
    pub fn push(&mut self, key: PlacedKey, value: Span) -> Result<(), AllocError>
        requires key { IsKeyPlaced self.old.bytes key }
        requires value { IsSpanOf self.old.bytes value }
        ensures extends { Extends self.old self.new }
        ensures ok { OnOk result (self.new ≡ with_pair (pair_with (placed_key self.old.bytes key) (span_in self.old.bytes value) 0) self.old) }
    {
        self.push_one(key, value)?;
        Ok(())
    }

    // Where the datum of a pair stands.
    fn value_at(&self, i: usize) -> Span
        requires { i < length self.now.pairs }
        ensures placed { IsSpanOf self.now.bytes result }
        ensures value { (other : TextPair) → span_in self.now.bytes result ≡ (get_or self.now.pairs i other).value }
    {
        self.places[i].value
    }

    /// Adds a key with each datum of the pairs at the places `from..to`. An error means that memory ran out.
    pub fn push_again(&mut self, key: PlacedKey, from: usize, to: usize) -> Result<(), AllocError>
        requires key { IsKeyPlaced self.old.bytes key }
        requires order { from ≤ to }
        requires there { to ≤ length self.old.pairs }
        ensures extends { Extends self.old self.new }
        ensures ok { OnOk result (self.new ≡ with_again (placed_key self.old.bytes key) (take (to - from) (drop from self.old.pairs)) self.old) }
    {
        for i in from..to {
            self.push_one(key, self.value_at(i))?;
        }
        Ok(())
    }

    /// The pairs.
    pub fn into_pairs(self) -> TextPairs
        ensures { result ≡ self.pairs }
    {
        TextPairs::from_placed(PlacedPairs {
            bytes: self.bytes,
            places: self.places,
        })
    }
}
