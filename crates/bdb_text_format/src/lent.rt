ghost use Rattle.std.specs.Prelude.{◌≡◌, ◌==◌, ◌<◌, ◌≤◌, ◌-◌, Some, drop, true, length, map, slice_get, take};
ghost use Rattle.std.specs.Option.{option_map};
ghost use Rattle.bdb_places.specs.Places.{values_seen};
ghost use Rattle.bdb_text_format.specs.Pairs.{number_of};
ghost use Rattle.bdb_text_format.specs.Placed.{pair_seen, placed_key, placed_pair, placed_pairs, are_one, key_seen, share_key, slice_seen};
ghost use Rattle.bdb_text_format.specs.declared.pairs.TextPair.{TextPair};

use bdb_places::{Place, PlacedKey, Values};

/// The key of a pair, lent: bytes, or the number of a record.
#[derive(Clone, Copy)]
pub enum KeyRef<'a> {
    Bytes(&'a [u8]),
    Number(u32),
}

/// The number of a record; 0 of a key that is bytes.
pub fn number_of(key: KeyRef<'_>) -> u32
    ensures { result ≡ number_of (key_seen key.entry) }
{
    match key {
        KeyRef::Bytes(_) => 0,
        KeyRef::Number(number) => number,
    }
}

/// A pair, lent, and the number of its first line in the text, counted from 1; 0 where it isn't of a text.
#[derive(Clone, Copy)]
pub struct PairRef<'a> {
    pub key: KeyRef<'a>,
    pub value: &'a [u8],
    pub line: u64,
}

/// Pairs that stand one behind the other in a list.
#[derive(Clone, Copy)]
pub struct PairSlice<'a> {
    bytes: &'a [u8],
    places: &'a [Place],
}

/// The key at a place of a run of bytes.
pub fn key_at<'a>(bytes: &'a [u8], key: PlacedKey) -> KeyRef<'a>
    ensures { key_seen result ≡ placed_key bytes.now key }
{
    match key {
        PlacedKey::Bytes(span) => KeyRef::Bytes(span.of(bytes)),
        PlacedKey::Number(number) => KeyRef::Number(number),
    }
}

/// The pair at a place of a run of bytes.
pub fn pair_at<'a>(bytes: &'a [u8], place: Place) -> PairRef<'a>
    ensures { pair_seen result ≡ placed_pair bytes.now place }
{
    PairRef {
        key: key_at(bytes, place.key),
        value: place.value.of(bytes),
        line: place.line,
    }
}

/// Whether two keys of a run are one: bytes at one place, or one number. Then they are the same, and no byte of them needs to be compared.
pub fn are_one(a: PlacedKey, b: PlacedKey) -> bool
    ensures one { result ≡ are_one a b }
    ensures same { result ≡ true → a ≡ b }
{
    a == b
}

impl<'a> PairSlice<'a> {
    /// The pairs at these places of a run of bytes.
    pub fn at_places(bytes: &'a [u8], places: &'a [Place]) -> PairSlice<'a>
        ensures { slice_seen result ≡ placed_pairs bytes.now places.now }
    {
        PairSlice { bytes, places }
    }

    /// How many pairs there are.
    pub fn len(&self) -> usize
        ensures { result ≡ length (slice_seen self.now) }
    {
        self.places.len()
    }

    /// Whether there are none.
    pub fn is_empty(&self) -> bool
        ensures { result ≡ (length (slice_seen self.now) == 0) }
    {
        self.places.is_empty()
    }

    /// The pair at a place.
    pub fn at(&self, i: usize) -> PairRef<'a>
        requires { i < length (slice_seen self.now) }
        ensures { slice_get (slice_seen self.now) i ≡ Some (pair_seen result) }
    {
        pair_at(self.bytes, self.places[i])
    }

    /// The pair at a place, from 0, or `None` exactly where the list ends before it.
    pub fn get(&self, i: usize) -> Option<PairRef<'a>>
        ensures { option_map pair_seen result ≡ slice_get (slice_seen self.now) i }
    {
        let place = self.places.get(i)?;
        Some(pair_at(self.bytes, *place))
    }

    /// The first pair, or `None` exactly where there is none.
    pub fn first(&self) -> Option<PairRef<'a>>
        ensures { option_map pair_seen result ≡ slice_get (slice_seen self.now) 0 }
    {
        let place = self.places.first()?;
        Some(pair_at(self.bytes, *place))
    }

    /// The last pair, or `None` exactly where there is none.
    pub fn last(&self) -> Option<PairRef<'a>>
        ensures { option_map pair_seen result ≡ slice_get (slice_seen self.now) (length (slice_seen self.now) - 1) }
    {
        let place = self.places.last()?;
        Some(pair_at(self.bytes, *place))
    }

    /// Whether two pairs have one key, as they do where it wasn't copied for each. Keys that aren't one may still be the same.
    pub fn share_key(&self, i: usize, j: usize) -> bool
        requires first { i < length (slice_seen self.now) }
        requires second { j < length (slice_seen self.now) }
        ensures one { result ≡ share_key self.now i j }
        ensures same { result ≡ true → option_map (λ (pair : TextPair). pair.key) (slice_get (slice_seen self.now) i)
            ≡ option_map (λ (pair : TextPair). pair.key) (slice_get (slice_seen self.now) j) }
    {
        are_one(self.places[i].key, self.places[j].key)
    }

    /// The pairs before a place, and those from there on.
    pub fn split_at(&self, i: usize) -> (PairSlice<'a>, PairSlice<'a>)
        requires { i ≤ length (slice_seen self.now) }
        ensures before { slice_seen result.0 ≡ take i (slice_seen self.now) }
        ensures rest { slice_seen result.1 ≡ drop i (slice_seen self.now) }
    {
        let (before, rest) = self.places.split_at(i);
        (
            PairSlice {
                bytes: self.bytes,
                places: before,
            },
            PairSlice {
                bytes: self.bytes,
                places: rest,
            },
        )
    }

    /// Their data.
    #[tactic(auto, using(crate::proofs::PlacedLemmas::values_of_pairs))]
    pub fn values(&self) -> Values<'a>
        ensures { values_seen result ≡ map (λ (pair : TextPair). pair.value) (slice_seen self.now) }
    {
        Values::at_places(self.bytes, self.places)
    }
}
