ghost use Rattle.std.specs.Prelude.{◌≡◌, ◌||◌, ◌∷◌, ◌++◌, [], OnOk, false};
ghost use Rattle.bdb_buckets.specs.Chained.{AreAllOf, AreOf};
ghost use Rattle.bdb_hash.specs.Passed.{Passes};
ghost use Rattle.bdb_buckets.specs.Told.{joined_pages};

use crate::Chains;
use crate::rows::{home_of, note_pair};
use bdb_buckets::{BucketPages, PagePairs, Pair};
use bdb_faults::FaultSink;
use bdb_ranks::HashMeta;
use std::alloc::{AllocError, Global};

/// What is kept of the pairs that have been gone through: the hashes of the keys of a bucket, and whether some pair of the
/// table is a stray, one that isn't in the bucket of its key.
#[derive(Drop)]
pub(crate) struct Passed {
    pub(crate) hashes: Vec<u32>,
    pub(crate) has_stray: bool,
}

impl Passed {
    /// No pair yet.
    pub(crate) fn new(alloc: Global) -> Passed
        ensures { result.has_stray ≡ false }
    {
        Passed {
            hashes: Vec::new(alloc),
            has_stray: false,
        }
    }

    /// One more pair. An error means that memory ran out.
    fn see(&mut self, hash: u32, is_stray: bool) -> Result<(), AllocError>
        ensures hashes { OnOk result (self.new.hashes.items ≡ self.old.hashes.items ++ hash ∷ []) }
        ensures stray { OnOk result (self.new.has_stray ≡ (self.old.has_stray || is_stray)) }
    {
        self.hashes.push(hash)?;
        self.has_stray = self.has_stray || is_stray;
        Ok(())
    }
}

/// Notes a pair of a bucket by itself. An error means that memory ran out.
fn note_next<F: FaultSink>(
    passed: &mut Passed,
    known: &mut Chains<'_>,
    pair: Pair<'_>,
    meta: &HashMeta,
    b: u32,
    found: &mut F,
) -> Result<(), AllocError>
    requires { pair.image ≡ known.old }
    ensures passes { OnOk result (Passes meta.now b (F.has_noted found.old) (F.has_noted found.new) passed.old passed.new (pair.entry ∷ [])) }
    ensures same { known.new ≡ known.old }
{
    let hash = known.hash_of(&pair)?;
    let is_stray = home_of(meta, hash) != b;
    passed.see(hash, is_stray)?;
    note_pair(pair, meta, is_stray, known, found)?;
    Ok(())
}

/// Notes the pairs of a page of a bucket by themselves.
#[tactic(auto, using(crate::proofs::PassedLemmas::passing_page))]
fn note_page<F: FaultSink>(
    passed: &mut Passed,
    known: &mut Chains<'_>,
    page: PagePairs<'_>,
    meta: &HashMeta,
    b: u32,
    found: &mut F,
) -> Result<(), AllocError>
    requires { AreOf known.old page }
    ensures passes { OnOk result (Passes meta.now b (F.has_noted found.old) (F.has_noted found.new) passed.old passed.new page.entry) }
    ensures same { known.new ≡ known.old }
{
    for pair in page {
        note_next(passed, known, pair, meta, b, found)?;
    }
    Ok(())
}

/// Notes the pairs of the pages of a bucket by themselves.
#[tactic(auto, using(crate::proofs::PassedLemmas::passing_bucket))]
pub(crate) fn note_bucket<F: FaultSink>(
    passed: &mut Passed,
    known: &mut Chains<'_>,
    pages: BucketPages<'_>,
    meta: &HashMeta,
    b: u32,
    found: &mut F,
) -> Result<(), AllocError>
    requires { AreAllOf known.old pages }
    ensures passes { OnOk result (Passes meta.now b (F.has_noted found.old) (F.has_noted found.new) passed.old passed.new (joined_pages pages.entry)) }
    ensures same { known.new ≡ known.old }
{
    for page in pages {
        note_page(passed, known, page, meta, b, found)?;
    }
    Ok(())
}
