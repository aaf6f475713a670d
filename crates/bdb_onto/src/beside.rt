//! Which pairs of a base a section replaces.
ghost use Rattle.std.specs.Prelude.{◌≡◌, IfOk, true};
ghost use Rattle.bdb_mkfile.specs.of_text_format.Terms.{key_seen, slice_seen};
ghost use Rattle.bdb_onto.specs.Replaced.{HaveKey, IsReplaced, replaces};

use bdb_format::{Kind, Settings};
use bdb_mkfile::{KeyRef, PairSlice};
use bdb_need::compare;
use std::alloc::{AllocError, Global};
use std::cmp::Ordering;

// Whether the last pair of each key stays.
fn replaces(settings: &Settings) -> bool
    ensures { result ≡ replaces settings.now }
{
    match settings.kind {
        Kind::Recno | Kind::Queue => true,
        Kind::Btree | Kind::Hash => !settings.sorted && !settings.duplicates,
    }
}

// Whether two keys are the same.
fn are_same(a: KeyRef<'_>, b: KeyRef<'_>) -> bool
    ensures { result ≡ true → key_seen a.entry ≡ key_seen b.entry }
{
    match (a, b) {
        (KeyRef::Bytes(a), KeyRef::Bytes(b)) => a == b,
        (KeyRef::Number(a), KeyRef::Number(b)) => a == b,
        _ => false,
    }
}

// The order of two keys.
fn key_order(a: KeyRef<'_>, b: KeyRef<'_>) -> Ordering {
    match (a, b) {
        (KeyRef::Bytes(a), KeyRef::Bytes(b)) => compare(a, b),
        (KeyRef::Number(a), KeyRef::Number(b)) => a.cmp(&b),
        (KeyRef::Number(_), KeyRef::Bytes(_)) => Ordering::Less,
        (KeyRef::Bytes(_), KeyRef::Number(_)) => Ordering::Greater,
    }
}

// The order of the key at a place of some pairs and another; past the last pair it is greater.
fn order_at(pairs: PairSlice<'_>, i: usize, key: KeyRef<'_>) -> Ordering {
    match pairs.get(i) {
        Some(pair) => key_order(pair.key, key),
        None => Ordering::Greater,
    }
}

// The order of the keys at two places.
fn order_of(pairs: PairSlice<'_>, i: usize, j: usize) -> Ordering {
    match pairs.get(j) {
        Some(pair) => order_at(pairs, i, pair.key),
        None => Ordering::Less,
    }
}

// The places of pairs, in the order of their keys.
fn in_key_order(alloc: Global, pairs: PairSlice<'_>) -> Result<Vec<usize>, AllocError> {
    let mut order = Vec::with_capacity(alloc, pairs.len())?;
    for i in 0..pairs.len() {
        order.push(i)?;
    }
    order.sort_by(|a, b| order_of(pairs, *a, *b))?;
    Ok(order)
}

// The same, where the last pair of a key stays; else none.
fn order_beside(
    alloc: Global,
    settings: &Settings,
    pairs: PairSlice<'_>,
) -> Result<Vec<usize>, AllocError> {
    if replaces(settings) {
        return in_key_order(alloc, pairs);
    }
    Ok(Vec::new(alloc))
}

// Whether the pair at a place of some, where there is one, has a key.
fn has_at(pairs: PairSlice<'_>, i: usize, key: KeyRef<'_>) -> bool
    ensures { result ≡ true → HaveKey (slice_seen pairs.entry) (key_seen key.entry) }
{
    match pairs.get(i) {
        Some(pair) => are_same(pair.key, key),
        None => false,
    }
}

/// The pairs of a section with these settings, and their places in the order of their keys, where the last pair of a key stays.
#[derive(Drop)]
pub struct Beside<'t> {
    settings: Settings,
    pairs: PairSlice<'t>,
    order: Vec<usize>,
}

impl<'t> Beside<'t> {
    /// Beside these pairs. An error means that memory ran out.
    pub fn of(
        alloc: Global,
        settings: Settings,
        pairs: PairSlice<'t>,
    ) -> Result<Beside<'t>, AllocError>
        ensures settings { IfOk result (λ it. it.settings ≡ settings) }
        ensures pairs { IfOk result (λ it. slice_seen it.pairs ≡ slice_seen pairs.entry) }
    {
        let order = order_beside(alloc, &settings, pairs)?;
        Ok(Beside {
            settings,
            pairs,
            order,
        })
    }

    /// Whether none of them replaces any.
    pub fn is_idle(&self) -> bool {
        self.order.is_empty()
    }

    // Whether one of them has a key, by halving.
    fn has(&self, key: KeyRef<'_>) -> bool
        ensures { result ≡ true → HaveKey (slice_seen self.now.pairs) (key_seen key.entry) }
    {
        let pairs = self.pairs;
        match self
            .order
            .as_slice()
            .binary_search_by(|i| order_at(pairs, *i, key))
        {
            Ok(found) => match self.order.get(found) {
                Some(at) => has_at(pairs, *at, key),
                None => false,
            },
            Err(_) => false,
        }
    }

    /// Whether they replace the pairs of a key that come before them. Where they do, it finds that; no clause says so.
    pub fn replaces(&self, key: KeyRef<'_>) -> bool
        ensures { result ≡ true → IsReplaced self.now.settings (slice_seen self.now.pairs) (key_seen key.entry) }
    {
        replaces(&self.settings) && self.has(key)
    }
}
