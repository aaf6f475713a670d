ghost use Rattle.std.specs.Prelude.{◌≡◌};

use std::marker::{Model, PhantomData};

/// The root of a tree.
#[derive(Clone, Copy)]
pub enum TreeRoot {}

/// The first page of a bucket.
#[derive(Clone, Copy)]
pub enum Bucket {}

/// The first page of a chain.
#[derive(Clone, Copy)]
pub enum Chain {}

/// The root of a tree of duplicates.
#[derive(Clone, Copy)]
pub enum DupRoot {}

/// A leaf of a btree, a recno or a tree of duplicates.
#[derive(Clone, Copy)]
pub enum LeafPage {}

/// The number of a page that fits `K`.
#[derive(Clone, Copy)]
pub struct Ref<K> {
    number: u32,
    fits: PhantomData<K>,
}

impl<K> Model for Ref<K> {
    ghost use Rattle.std.specs.Prelude.{ℕ};

    ghost Value = { ℕ };

    ghost view = { λ r. r.number };

    ghost inverse = { λ n. record { number = n; fits = record {} } };
}

impl<K> Ref<K> {
    /// The page with this number.
    pub fn at(number: u32) -> Ref<K>
        ensures { result ≡ number }
    {
        Ref {
            number,
            fits: PhantomData,
        }
    }

    /// The number of the page.
    pub fn number(&self) -> u32
        ensures { result ≡ self.now }
    {
        self.number
    }
}
