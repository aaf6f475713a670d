ghost use Rattle.std.specs.Prelude.{◌≡◌, ◌∷◌, ◌++◌, [], OnOk, OnErr, length, map, slice_get};
ghost use Rattle.std.specs.Option.{option_map};
ghost use Rattle.bdb_text_format.specs.Pairs.{listed_as, unnumbered};
ghost use Rattle.bdb_text_format.specs.Placed.{key_seen, pair_seen, slice_seen};

use crate::lent::{KeyRef, PairRef, PairSlice};
use crate::pairs::{Key, Pair, TextPairs};
use std::alloc::{AllocError, Global};
use std::marker::Model;

/// The pairs of a list, which have no lines. Their keys and data stand in one run of bytes, of less than 2^32.
#[derive(Drop)]
pub struct PairList {
    pairs: TextPairs,
}

impl Model for PairList {
    ghost use Rattle.std.specs.Prelude.{◌≡◌, List};
    ghost use Rattle.bdb_text_format.specs.Pairs.{unlined_pairs, unnumbered_pairs};
    ghost use Rattle.bdb_text_format.specs.declared.pairs.Pair.{Pair};

    ghost Value = { List Pair };

    ghost view = { λ list. unlined_pairs list.pairs };

    ghost invariant = { λ list. list.pairs ≡ unnumbered_pairs (unlined_pairs list.pairs) };
}

/// A key, lent.
pub fn lent_key(key: &Key) -> KeyRef<'_>
    ensures { key_seen result ≡ key.now }
{
    match key {
        Key::Bytes(bytes) => KeyRef::Bytes(bytes.as_slice()),
        Key::Number(number) => KeyRef::Number(*number),
    }
}

impl PairList {
    /// An empty list. It takes no memory yet.
    pub fn new(alloc: Global) -> PairList
        ensures { result ≡ [] }
    {
        PairList {
            pairs: TextPairs::new(alloc),
        }
    }

    /// Adds a pair at the end. An error means that memory ran out, or that keys and data would have 2^32 bytes or more; the list is as before
    /// then, and the pair is dropped.
    pub fn push(&mut self, pair: Pair) -> Result<(), AllocError>
        ensures ok { OnOk result (self.new ≡ self.old ++ pair ∷ []) }
        ensures err { OnErr result (self.new ≡ self.old) }
    {
        self.push_lent(lent_key(&pair.key), pair.value.as_slice())
    }

    /// Adds a copy of a key and its datum at the end. An error means that memory ran out, or that keys and data would have 2^32 bytes or more;
    /// the list is as before then.
    #[tactic(auto, using(crate::proofs::ListLemmas::lists_grow))]
    pub fn push_lent(&mut self, key: KeyRef<'_>, value: &[u8]) -> Result<(), AllocError>
        ensures ok { OnOk result (self.new ≡ self.old ++ listed_as (key_seen key.entry) value.now ∷ []) }
        ensures err { OnErr result (self.new ≡ self.old) }
    {
        self.pairs.push(PairRef {
            key,
            value,
            line: 0,
        })
    }

    /// How many pairs there are.
    pub fn len(&self) -> usize
        ensures { result ≡ length self.now }
    {
        self.pairs.len()
    }

    /// The pair at a place, from 0, lent, with the line 0; `None` exactly where the list ends before it.
    #[tactic(auto, using(crate::proofs::ListLemmas::listed_pair))]
    pub fn get(&self, i: usize) -> Option<PairRef<'_>>
        ensures { option_map pair_seen result ≡ option_map unnumbered (slice_get self.now i) }
    {
        self.pairs.get(i)
    }

    /// The pairs, lent, as the builders take them.
    pub fn as_slice(&self) -> PairSlice<'_>
        ensures { slice_seen result ≡ map unnumbered self.now }
    {
        self.pairs.as_slice()
    }

    /// The pairs as those of a section; each has the line 0.
    pub fn into_pairs(self) -> TextPairs
        ensures { result ≡ map unnumbered self }
    {
        self.pairs
    }
}
