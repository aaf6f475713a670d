ghost use Rattle.std.specs.Prelude.{◌≡◌, ◌==◌, ◌<◌, ◌∷◌, [], MatchOption, get_or, length, map};
ghost use Rattle.bdb_places.specs.Places.{value_at, values_seen};

use crate::Place;

/// The data of pairs that stand one behind the other in a list.
#[derive(Clone, Copy)]
pub struct Values<'a> {
    bytes: &'a [u8],
    places: &'a [Place],
}

impl<'a> Values<'a> {
    /// The data of the pairs at these places of a run of bytes.
    pub fn at_places(bytes: &'a [u8], places: &'a [Place]) -> Values<'a>
        ensures { values_seen result ≡ map (value_at bytes.now) places.now }
    {
        Values { bytes, places }
    }

    /// How many values there are.
    pub fn len(&self) -> usize
        ensures { result ≡ length (values_seen self.now) }
    {
        self.places.len()
    }

    /// Whether there are none.
    pub fn is_empty(&self) -> bool
        ensures { result ≡ (length (values_seen self.now) == 0) }
    {
        self.places.is_empty()
    }

    /// The datum at a place.
    pub fn at(&self, i: usize) -> &'a [u8]
        requires { i < length (values_seen self.now) }
        ensures { result.now ≡ get_or (values_seen self.now) i [] }
    {
        self.places[i].value.of(self.bytes)
    }

    /// The first datum and those behind it, or `None` exactly where there are none.
    pub fn split_first(&self) -> Option<(&'a [u8], Values<'a>)>
        ensures { MatchOption result (values_seen self.now ≡ []) (λ parts. values_seen self.now ≡ parts.0.now ∷ values_seen parts.1) }
    {
        let (first, places) = self.places.split_first()?;
        let more = Values {
            bytes: self.bytes,
            places,
        };
        Some((first.value.of(self.bytes), more))
    }
}
