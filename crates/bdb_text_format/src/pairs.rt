ghost use Rattle.std.specs.Prelude.{◌≡◌, ◌<◌, ◌∷◌, ◌++◌, [], OnOk, OnErr, IfOk, IfSome, IsSome, true, ◌≤◌, ◌-◌, ◌+◌, ◌^◌, get_or, length, slice_get, slice_range, take, vec_capacity};
ghost use Rattle.std.specs.Option.{option_map};
ghost use Rattle.std.specs.List.{All};
ghost use Rattle.bdb_text_format.specs.Pairs.{last_key};
ghost use Rattle.bdb_text_format.specs.Placed.{ArePlaced, IsKeyPlaced, IsKeyPut, IsPairPut, IsPiecePut, Keeps, key_seen, pair_seen, pair_with, placed_key};
ghost use Rattle.bdb_text_format.specs.Placed.{placed_pairs, slice_seen};
ghost use Rattle.bdb_text_format.specs.declared.pairs.TextPair.{TextPair};

use crate::lent::{KeyRef, PairRef, PairSlice};
use bdb_places::{Bytes, Place, PlacedKey, Span};
use std::alloc::{AllocError, Global};
use std::marker::Model;

/// The key of a pair: bytes, or the number of a record.
#[derive(Drop)]
pub enum Key {
    Bytes(Bytes),
    Number(u32),
}

/// A pair of a list: its key, or the number of its record, and its datum.
#[derive(Drop)]
pub struct Pair {
    pub key: Key,
    pub value: Bytes,
}

/// A pair of a section, and the number of its first line in the text, counted from 1.
#[derive(Drop)]
pub struct TextPair {
    pub key: Key,
    pub value: Bytes,
    pub line: u64,
}

/// A run of bytes, and the places in it of pairs.
#[derive(Drop)]
pub struct PlacedPairs {
    pub bytes: Vec<u8>,
    pub places: Vec<Place>,
}

/// The pairs of a section. Their keys and data stand in one run of bytes, of less than 2^32.
#[derive(Drop)]
pub struct TextPairs {
    bytes: Vec<u8>,
    places: Vec<Place>,
}

impl Model for TextPairs {
    ghost use Rattle.bdb_text_format.specs.Placed.{ArePlaced, placed_pairs};
    ghost use Rattle.bdb_text_format.specs.declared.pairs.TextPair.{TextPair};
    ghost use Rattle.std.specs.Prelude.{List};

    ghost Value = { List TextPair };

    ghost view = { λ pairs. placed_pairs pairs.bytes.items pairs.places.items };

    ghost invariant = { λ pairs. ArePlaced pairs.bytes.items pairs.places.items };
}

// Adds bytes at the end of a run, and returns where they stand. Fails if the run would have 2^32 bytes, or if there is no memory for more.
#[tactic(auto, using(crate::proofs::PlacedLemmas::kept_all, crate::proofs::PlacedLemmas::kept_more, crate::proofs::PlacedLemmas::piece_put))]
pub(crate) fn put(bytes: &mut Vec<u8>, piece: &[u8]) -> Result<Span, AllocError>
    ensures kept { Keeps bytes.old.items bytes.new.items }
    ensures ok { IfOk result (IsPiecePut bytes.new.items piece.now) }
    ensures refused { OnErr result (length bytes.old.items + length piece.now < 2 ^ 32 → vec_capacity bytes.old < length bytes.old.items + length piece.now) }
{
    let Ok(start) = u32::try_from(bytes.len()) else {
        return Err(AllocError);
    };
    let Ok(len) = u32::try_from(piece.len()) else {
        return Err(AllocError);
    };
    let end = start.checked_add(len).ok_or(AllocError)?;
    bytes.extend_from_slice(piece)?;
    Ok(Span { start, end })
}

// Where bytes stand in a run, if they do from one place on.
pub(crate) fn found(bytes: &[u8], from: usize, piece: &[u8]) -> Option<Span>
    ensures some { IfSome result (IsPiecePut bytes.now piece.now) }
    ensures told { length bytes.now < 2 ^ 32 → from + length piece.now ≤ length bytes.now → slice_range bytes.now from (from + length piece.now) ≡ piece.now → IsSome result }
{
    let to = from.checked_add(piece.len())?;
    if to > bytes.len() || &bytes[from..to] != piece {
        return None;
    }
    let start = u32::try_from(from).ok()?;
    let end = u32::try_from(to).ok()?;
    Some(Span { start, end })
}

// Adds a key at the end of a run, where that has bytes.
#[tactic(auto, using(crate::proofs::PlacedLemmas::kept_all))]
fn put_key(bytes: &mut Vec<u8>, key: KeyRef<'_>) -> Result<PlacedKey, AllocError>
    ensures kept { Keeps bytes.old.items bytes.new.items }
    ensures ok { IfOk result (IsKeyPut bytes.new.items key.entry) }
{
    match key {
        KeyRef::Bytes(key) => Ok(PlacedKey::Bytes(put(bytes, key)?)),
        KeyRef::Number(number) => Ok(PlacedKey::Number(number)),
    }
}

// Adds a datum at the end of a run, as that of a key which is there.
#[tactic(auto, using(crate::proofs::PlacedLemmas::pair_put))]
fn put_value(
    bytes: &mut Vec<u8>,
    key: PlacedKey,
    value: &[u8],
    line: u64,
) -> Result<Place, AllocError>
    requires { IsKeyPlaced bytes.old.items key }
    ensures kept { Keeps bytes.old.items bytes.new.items }
    ensures ok { IfOk result (IsPairPut bytes.new.items (pair_with (placed_key bytes.old.items key) value.now line)) }
{
    let value = put(bytes, value)?;
    Ok(Place { key, value, line })
}

// Adds a pair at the end of a run, and answers where it stands.
#[tactic(auto, using(crate::proofs::PlacedLemmas::kept_on))]
fn put_pair(bytes: &mut Vec<u8>, pair: PairRef<'_>) -> Result<Place, AllocError>
    ensures kept { Keeps bytes.old.items bytes.new.items }
    ensures ok { IfOk result (IsPairPut bytes.new.items (pair_seen pair.entry)) }
{
    let key = put_key(bytes, pair.key)?;
    put_value(bytes, key, pair.value, pair.line)
}

// The last of some places.
fn last_place(places: &[Place]) -> Place
    requires { 0 < length places.now }
    ensures { result ≡ get_or places.now (length places.now - 1) result }
{
    places[places.len() - 1]
}

// A copy of bytes.
fn owned_bytes(alloc: Global, bytes: &[u8]) -> Result<Bytes, AllocError>
    ensures { IfOk result (λ copy. copy ≡ bytes.now) }
{
    let mut copy = Bytes::new(alloc);
    copy.push_all(bytes)?;
    Ok(copy)
}

// A copy of a key.
fn owned_key(alloc: Global, key: KeyRef<'_>) -> Result<Key, AllocError>
    ensures { IfOk result (λ copy. copy ≡ key_seen key.entry) }
{
    match key {
        KeyRef::Bytes(bytes) => Ok(Key::Bytes(owned_bytes(alloc, bytes)?)),
        KeyRef::Number(number) => Ok(Key::Number(number)),
    }
}

// A copy of a pair that is lent.
fn owned_pair(alloc: Global, pair: PairRef<'_>) -> Result<TextPair, AllocError>
    ensures { IfOk result (λ copy. copy ≡ pair_seen pair.entry) }
{
    let key = owned_key(alloc, pair.key)?;
    let value = owned_bytes(alloc, pair.value)?;
    Ok(TextPair {
        key,
        value,
        line: pair.line,
    })
}

impl TextPairs {
    /// An empty list. It takes no memory yet.
    pub fn new(alloc: Global) -> TextPairs
        ensures { result ≡ [] }
    {
        TextPairs {
            bytes: Vec::new(alloc),
            places: Vec::new(alloc),
        }
    }

    /// Adds a copy of a pair at the end. An error means that memory ran out, or that keys and data would have 2^32 bytes or more; the pairs are as before then.
    #[tactic(auto, using(crate::proofs::PlacedLemmas::pairs_placed))]
    pub fn push(&mut self, pair: PairRef<'_>) -> Result<(), AllocError>
        ensures ok { OnOk result (self.new ≡ self.old ++ pair_seen pair.entry ∷ []) }
        ensures err { OnErr result (self.new ≡ self.old) }
    {
        let place = put_pair(&mut self.bytes, pair)?;
        self.places.push(place)?;
        Ok(())
    }

    /// Adds a copy of a datum with the key of the last pair, which isn't copied. An error means that memory ran out, or that keys and data would have 2^32
    /// bytes or more; the pairs are as before then.
    #[tactic(auto, using(crate::proofs::PlacedLemmas::pairs_placed))]
    pub fn push_with_last_key(&mut self, value: &[u8], line: u64) -> Result<(), AllocError>
        requires { 0 < length self.old }
        ensures ok { OnOk result (self.new ≡ self.old ++ pair_with (last_key self.old) value.now line ∷ []) }
        ensures err { OnErr result (self.new ≡ self.old) }
    {
        let key = last_place(self.places.as_slice()).key;
        let place = put_value(&mut self.bytes, key, value, line)?;
        self.places.push(place)?;
        Ok(())
    }

    // Adds a copy of a pair at the end, but not of its key where that is the last one.
    fn push_beside(&mut self, shares_key: bool, pair: PairRef<'_>) -> Result<(), AllocError>
        requires some { shares_key ≡ true → 0 < length self.old }
        requires same { shares_key ≡ true → last_key self.old ≡ key_seen pair.key }
        ensures ok { OnOk result (self.new ≡ self.old ++ pair_seen pair.entry ∷ []) }
        ensures err { OnErr result (self.new ≡ self.old) }
    {
        if shares_key {
            self.push_with_last_key(pair.value, pair.line)
        } else {
            self.push(pair)
        }
    }

    // Keeps the first pairs, so many.
    fn keep_first(&mut self, count: usize)
        ensures { self.new ≡ take count self.old }
    {
        self.places.truncate(count);
    }

    // Adds copies of pairs at the end, or of the first of them.
    fn push_each(&mut self, pairs: PairSlice<'_>) -> Result<(), AllocError>
        ensures ok { OnOk result (self.new ≡ self.old ++ slice_seen pairs.entry) }
        ensures err { OnErr result (take (length self.old) self.new ≡ self.old) }
    {
        for i in 0..pairs.len() {
            let shares_key = i > 0 && pairs.share_key(i - 1, i);
            self.push_beside(shares_key, pairs.at(i))?;
        }
        Ok(())
    }

    /// Adds copies of pairs at the end. A key that several of them have one behind the other, and that is one for them, is copied once. An
    /// error means that memory ran out, or that keys and data would have 2^32 bytes or more; the pairs are as before then.
    pub fn push_all(&mut self, pairs: PairSlice<'_>) -> Result<(), AllocError>
        ensures ok { OnOk result (self.new ≡ self.old ++ slice_seen pairs.entry) }
        ensures err { OnErr result (self.new ≡ self.old) }
    {
        let before = self.len();
        let pushed = self.push_each(pairs);
        if pushed.is_err() {
            self.keep_first(before);
        }
        pushed
    }

    /// How many pairs there are.
    pub fn len(&self) -> usize
        ensures { result ≡ length self.now }
    {
        self.places.len()
    }

    /// The pair at a place, from 0, lent; `None` exactly where the list ends before it.
    pub fn get(&self, i: usize) -> Option<PairRef<'_>>
        ensures { option_map pair_seen result ≡ slice_get self.now i }
    {
        self.as_slice().get(i)
    }

    /// Takes the last pair away, and answers a copy of it; `None` exactly where there is none. An error
    /// means that memory ran out; the pairs are as before then.
    pub fn pop(&mut self, alloc: Global) -> Result<Option<TextPair>, AllocError>
        ensures ok { IfOk result (λ pair. pair ≡ slice_get self.old (length self.old - 1)) }
        ensures rest { OnOk result (self.new ≡ take (length self.old - 1) self.old) }
        ensures err { OnErr result (self.new ≡ self.old) }
    {
        let Some(last) = self.as_slice().last() else {
            return Ok(None);
        };
        let pair = owned_pair(alloc, last)?;
        self.places.pop();
        Ok(Some(pair))
    }

    /// The pairs, lent.
    pub fn as_slice(&self) -> PairSlice<'_>
        ensures { slice_seen result ≡ self.now }
    {
        PairSlice::at_places(self.bytes.as_slice(), self.places.as_slice())
    }

    /// The run and the places.
    pub fn into_placed(self) -> PlacedPairs
        ensures pairs { placed_pairs result.bytes.items result.places.items ≡ self }
        ensures placed { ArePlaced result.bytes.items result.places.items }
    {
        PlacedPairs {
            bytes: self.bytes,
            places: self.places,
        }
    }

    /// The pairs at places in a run.
    pub fn from_placed(placed: PlacedPairs) -> TextPairs
        requires { ArePlaced placed.bytes.items placed.places.items }
        ensures { result ≡ placed_pairs placed.bytes.items placed.places.items }
    {
        TextPairs {
            bytes: placed.bytes,
            places: placed.places,
        }
    }
}
