ghost use Rattle.std.specs.Prelude.{◌≡◌, ◌<◌, ◌+◌, ◌^◌, ◌++◌, ◌∷◌, [], ℕ, IfOk, List, OnOk, length, map};
ghost use Rattle.bdb_image.specs.Buckets.{HasFew, refs_if_table, run_refs, table_refs};
ghost use Rattle.bdb_graph.specs.Leaps.{AreKnown, AreKnownIfAny, HasLeaps};
ghost use Rattle.bdb_image.specs.Noted.{misfits_of};
ghost use Rattle.bdb_graph.specs.Tallies.{AreTallies, owner};
ghost use Rattle.bdb_image.specs.of_format.Terms.{Owner, file_of, fit_code};

use crate::Formed;
use crate::leaps::{first_open, no_leaps};
use crate::tally::{Tally, note_at};
use bdb_image::{BucketFits, BucketRun, Buckets, Misfits, Sort};
use std::alloc::{AllocError, Global};

/// What is known of the pages of a file as buckets: which fit, and leaps over those that have so many owners that no
/// more are counted. It takes 12 bytes for each page, and only a file with a table asks for it.
#[derive(Drop)]
pub(crate) struct BucketPages {
    fits: BucketFits,
    leaps: Vec<u32>,
}

impl BucketPages {
    /// Before the first run is noted.
    fn of(alloc: Global, formed: &Formed<'_>) -> Result<BucketPages, AllocError>
        ensures { IfOk result (λ pages. (tallies : List Tally) → length tallies ≡ (file_of formed.now).last + 1
            → AreKnown (file_of formed.now) tallies pages) }
    {
        let fits = BucketFits::of(alloc, formed)?;
        let leaps = no_leaps(alloc, formed.head().last + 2)?;
        Ok(BucketPages { fits, leaps })
    }
}

/// Adds the references of a table to its buckets, if the holder is one, to the tallies of the pages that they name. The
/// answer is with which rows they fail.
pub(crate) fn tally_table(
    alloc: Global,
    formed: &Formed<'_>,
    tallies: &mut [Tally],
    known: &mut Option<BucketPages>,
    holder: u32,
    buckets: Option<Buckets>,
) -> Result<Misfits, AllocError>
    requires len { length tallies.old ≡ (file_of formed.now).last + 1 }
    requires known { AreKnownIfAny (file_of formed.now) tallies.old known.old }
    requires few { HasFew buckets }
    ensures known { OnOk result (AreKnownIfAny (file_of formed.now) tallies.new known.new) }
    ensures tallies { OnOk result ((os : List Owner) (place : ℕ) → AreTallies tallies.old os
        → AreTallies tallies.new (os ++ map (owner holder) (refs_if_table place buckets))) }
    ensures misfits { IfOk result (λ misfits. (place : ℕ) → misfits ≡ misfits_of (fit_code (file_of formed.now) holder) (refs_if_table place buckets)) }
{
    let Some(buckets) = buckets else {
        return Ok(Misfits::none());
    };
    let mut pages = known_of(alloc, formed, known.take())?;
    let misfits = tally_buckets(formed, tallies, &mut pages, holder, &buckets);
    *known = Some(pages);
    Ok(misfits)
}

/// What is known so far of the pages as buckets, or at the first table what is known without one.
fn known_of(
    alloc: Global,
    formed: &Formed<'_>,
    known: Option<BucketPages>,
) -> Result<BucketPages, AllocError>
    ensures { IfOk result (λ pages. (tallies : List Tally) → length tallies ≡ (file_of formed.now).last + 1
        → AreKnownIfAny (file_of formed.now) tallies known → AreKnown (file_of formed.now) tallies pages) }
{
    match known {
        Some(pages) => Ok(pages),
        None => BucketPages::of(alloc, formed),
    }
}

/// Adds the references to all buckets of a table, run by run.
fn tally_buckets(
    formed: &Formed<'_>,
    tallies: &mut [Tally],
    pages: &mut BucketPages,
    holder: u32,
    buckets: &Buckets,
) -> Misfits
    requires known { AreKnown (file_of formed.now) tallies.old pages.old }
    requires few { buckets.now.max_bucket < 2 ^ 31 }
    ensures known { AreKnown (file_of formed.now) tallies.new pages.new }
    ensures tallies { (os : List Owner) (place : ℕ) → AreTallies tallies.old os
        → AreTallies tallies.new (os ++ map (owner holder) (table_refs place buckets.now)) }
    ensures misfits { (place : ℕ) → result ≡ misfits_of (fit_code (file_of formed.now) holder) (table_refs place buckets.now) }
{
    let mut misfits = Misfits::none();
    let mut bucket = 0;
    'groups: while bucket <= buckets.max_bucket {
        let run = buckets.run_from(bucket);
        misfits = misfits.both(pages.fits.misfits(formed, run));
        note_run(tallies, &mut pages.leaps, holder, run);
        bucket += run.len;
    }
    misfits
}

/// Adds references to a run of pages as buckets to the tallies of those that are there. Full pages are leapt over, so each
/// page is noted twice at most, however many tables name it.
fn note_run(tallies: &mut [Tally], leaps: &mut [u32], holder: u32, run: BucketRun)
    requires { HasLeaps tallies.old leaps.old }
    ensures leaps { HasLeaps tallies.new leaps.new }
    ensures tallies { (os : List Owner) (place : ℕ) → AreTallies tallies.old os
        → AreTallies tallies.new (os ++ map (owner holder) (run_refs place run.first run.len)) }
{
    let end = run.end().min(tallies.len() as u64) as u32;
    if run.first >= u64::from(end) {
        return;
    }
    let mut at = first_open(leaps, run.first as u32);
    'pages: while at < end {
        note_bucket(tallies, leaps, at, holder);
        at = first_open(leaps, at + 1);
    }
}

/// Adds a reference to a page as a bucket. Once the page is full, a leap goes over it.
fn note_bucket(tallies: &mut [Tally], leaps: &mut [u32], page: u32, holder: u32)
    requires leaps { HasLeaps tallies.old leaps.old }
    requires there { page < length tallies.old }
    ensures leaps { HasLeaps tallies.new leaps.new }
    ensures tallies { (os : List Owner) (o : Owner) → o.holder ≡ holder → o.reference.sort ≡ Sort.Bucket → o.reference.target ≡ page
        → AreTallies tallies.old os → AreTallies tallies.new (os ++ o ∷ []) }
{
    note_at(tallies, page as usize, holder, Sort::Bucket);
    if tallies[page as usize].is_full() {
        leaps[page as usize] = page + 1;
    }
}
