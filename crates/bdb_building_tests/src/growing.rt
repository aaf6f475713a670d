//! A btree that takes pairs one by one.

ghost use Rattle.std.specs.Prelude.{◌≡◌, ◌<◌, ◌^◌, ◌∷◌, [], IsTrue, length, map};
ghost use Rattle.bdb_need.specs.of_format.Terms.{is_page_size};
ghost use Rattle.bdb_need.specs.of_format.declared.kinds.Kind.TheVariants.{Btree};
ghost use Rattle.bdb_need.specs.of_places.Places.{value_at};
ghost use Rattle.bdb_need.specs.of_mkleaves.Units.{KeyedUnit};
ghost use Rattle.bdb_mktree.specs.Units.{unit_seen};
ghost use Rattle.bdb_building_tests.specs.Trees.{is_above};

use bdb_mktree::{TreeBuilder, Unit};
use bdb_need::{Bytes, Pages, Place, PlacedKey, Settings, Span, Values};
use std::alloc::{AllocError, Global};
use std::marker::Model;
use test_lists::{Datum, is_less};

// Whether a key is above the last one, where there is one.
fn is_above(last: &Option<Bytes>, key: &[u8]) -> bool
    ensures { result ≡ is_above last.now key.now }
{
    match last {
        None => true,
        Some(last) => is_less(&Datum::Inline(last.as_slice()), &Datum::Inline(key)),
    }
}

// The place of a datum in its own bytes; it has no key there.
#[tactic(auto, using(crate::proofs::CopyLemmas::whole_value))]
fn whole(value: &[u8]) -> Place
    requires { length value.now < 2 ^ 32 }
    ensures { value_at value.now result ≡ value.now }
{
    Place {
        key: PlacedKey::Number(0),
        value: Span {
            start: 0,
            end: value.len() as u32,
        },
        line: 0,
    }
}

// A key with its one datum, which stands at the one of some places.
fn unit_of<'u>(key: &'u [u8], value: &'u [u8], places: &'u [Place]) -> Unit<'u>
    requires { map (value_at value.now) places.now ≡ value.now ∷ [] }
    ensures { unit_seen result ≡ KeyedUnit key.now (value.now ∷ []) }
{
    let values = Values::at_places(value, places);
    Unit::Keyed { key, values }
}

/// A btree that is being built behind a zero page, which is kept for its metadata.
#[derive(Drop)]
pub struct Growing {
    pages: Pages,
    builder: TreeBuilder,
    last: Option<Bytes>,
}

impl Model for Growing {
    ghost use Rattle.bdb_need.specs.of_pack.Built.{Built};
    ghost use Rattle.bdb_building_tests.specs.Trees.{IsGrowing};

    ghost Value = { Built };

    ghost view = { λ g. g.pages };

    ghost invariant = { λ g. IsGrowing g.pages g.builder g.last };
}

impl Growing {
    /// A tree without pairs.
    pub fn new(alloc: Global, settings: &Settings) -> Result<Growing, AllocError>
        requires kind { settings.now.kind ≡ Btree }
        requires size { IsTrue (is_page_size settings.now.page_size) }
    {
        let mut pages = Pages::new(alloc, settings.page_size, settings.order);
        pages.add()?;
        let builder = TreeBuilder::start(alloc, &mut pages, settings)?;
        Ok(Growing {
            pages,
            builder,
            last: None,
        })
    }

    /// With a pair after the others. It stays as it is where the key isn't above theirs, or a value is too long.
    pub fn with_pair(self, alloc: Global, key: &[u8], value: &[u8]) -> Result<Growing, AllocError> {
        if !is_above(&self.last, key) || key.len() >= 1 << 32 || value.len() >= 1 << 32 {
            return Ok(self);
        }
        let mut pages = self.pages;
        let mut builder = self.builder;
        let mut last = Bytes::new(alloc);
        last.push_all(key)?;
        let places = [whole(value)];
        let unit = unit_of(key, value, &places);
        builder.push(&mut pages, &unit)?;
        Ok(Growing {
            pages,
            builder,
            last: Some(last),
        })
    }

    /// The root, with the bytes of all pages.
    pub fn finish(self) -> Result<(u32, Bytes), AllocError> {
        let mut pages = self.pages;
        let root = self.builder.finish(&mut pages)?;
        Ok((root, pages.into_bytes()))
    }
}
