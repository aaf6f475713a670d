ghost use Rattle.std.specs.Prelude.{◌≡◌, ◌≢◌, ◌<◌, ◌≤◌, ◌+◌, ◌^◌, if◌then◌else◌, ℕ, IfOk, OnOk, length};
ghost use Rattle.std.specs.List.{list_any, range_with_len};
ghost use Rattle.std.specs.Option.{option_map};
ghost use Rattle.bdb_faults.specs.of_format.Terms.{File, file_of, fit_code, reference_row_code};
ghost use Rattle.bdb_image.specs.Buckets.{AreFits, AreLasts, fails_as_bucket, run_refs};
ghost use Rattle.bdb_image.specs.Noted.{misfits_of};

use crate::Formed;
use crate::buckets::BucketRun;
use crate::fits::{Misfits, misfit};
use bdb_faults::{Reference, ReferenceRow, Sort};
use bdb_meta::u32_at;
use std::alloc::{AllocError, Global};

/// Which pages of a file fit as buckets: for each page, and for the end behind them, the last page below it that fails
/// by its type, counted from 1, and the last that fails by its previous page; 0 for none. So a run is judged at once.
#[derive(Drop)]
pub struct BucketFits {
    kinds: Vec<u32>,
    backs: Vec<u32>,
}

impl BucketFits {
    /// Judges each page as a bucket. It takes 8 bytes for each. An error means that memory ran out.
    pub fn of(alloc: Global, formed: &Formed<'_>) -> Result<BucketFits, AllocError>
        ensures { IfOk result (λ fits. AreFits (file_of formed.now) fits) }
    {
        let pages = formed.head().last + 1;
        let mut kinds = none_below(alloc, pages)?;
        let mut backs = none_below(alloc, pages)?;
        for page in 0..pages {
            let row = row_of(formed, page);
            add(
                &mut kinds,
                page,
                matches!(row, Some(ReferenceRow::WrongKind)),
            )?;
            add(
                &mut backs,
                page,
                matches!(row, Some(ReferenceRow::WrongBack)),
            )?;
        }
        Ok(BucketFits { kinds, backs })
    }

    /// With which rows some of the references to a run of pages fail.
    #[tactic(auto, using(crate::proofs::BucketLemmas::run_misfits))]
    pub fn misfits(&self, formed: &Formed<'_>, run: BucketRun) -> Misfits
        requires fits { AreFits (file_of formed.now) self.now }
        requires some { 0 < run.len }
        ensures { (holder place : ℕ) → result ≡ misfits_of (fit_code (file_of formed.now) holder) (run_refs place run.first run.len) }
    {
        Misfits::of_buckets(
            run.first == 0 || run.end() > u64::from(formed.head().last) + 1,
            any_fails(&self.kinds, run),
            any_fails(&self.backs, run),
        )
    }
}

/// The row with which a page fails as a bucket. Above page 0 a page without a number is a zero page, which fits, so the
/// bytes of the pages that a table has in reserve aren't all looked at.
#[tactic(auto, using(crate::proofs::BucketLemmas::unnumbered_pages))]
fn row_of(formed: &Formed<'_>, page: u32) -> Option<ReferenceRow>
    requires { page ≤ (file_of formed.now).last }
    ensures { option_map reference_row_code result ≡ fit_code (file_of formed.now) 0 (record { place = 0; sort = Sort.Bucket; target = page }) }
{
    let order = formed.head().order;
    if page > 0 && u32_at(formed.page_bytes(page), 8, order) == 0 {
        return None;
    }
    let as_bucket = Reference {
        place: 0,
        sort: Sort::Bucket,
        target: u64::from(page),
    };
    misfit(formed, 0, as_bucket)
}

/// Nothing fails below page 0. There is room for so many pages.
fn none_below(alloc: Global, pages: u32) -> Result<Vec<u32>, AllocError>
    ensures len { IfOk result (λ lasts. length lasts.items ≡ 1) }
    ensures lasts { IfOk result (λ lasts. (file : File) (code : ℕ) → AreLasts file code lasts.items) }
{
    let mut lasts = Vec::with_capacity(alloc, pages as usize + 1)?;
    lasts.push(0)?;
    Ok(lasts)
}

/// Adds the last page below the one behind a page, which fails or doesn't.
fn add(lasts: &mut Vec<u32>, page: u32, fails: bool) -> Result<(), AllocError>
    requires len { length lasts.old.items ≡ page + 1 }
    requires few { page < 2 ^ 21 }
    ensures len { OnOk result (length lasts.new.items ≡ page + 2) }
    ensures lasts { OnOk result ((file : File) (code : ℕ) → fails ≡ fails_as_bucket file code page
        → AreLasts file code lasts.old.items → AreLasts file code lasts.new.items) }
{
    let last = last_with(lasts[page as usize], page, fails);
    lasts.push(last)?;
    Ok(())
}

/// The last page that fails, counted from 1, with one more page behind those so far.
fn last_with(last: u32, page: u32, fails: bool) -> u32
    requires { page < 2 ^ 21 }
    ensures { result ≡ (if fails then page + 1 else last) }
{
    if fails { page + 1 } else { last }
}

/// Whether one of the pages of a run fails so. Those above the last page fail otherwise.
#[tactic(auto, using(crate::proofs::BucketLemmas::run_judged))]
fn any_fails(lasts: &[u32], run: BucketRun) -> bool
    requires { 0 < length lasts.now }
    ensures { (file : File) (code : ℕ) → length lasts.now ≡ file.last + 2 → code ≢ 1 → AreLasts file code lasts.now
        → result ≡ list_any (fails_as_bucket file code) (range_with_len run.first run.len) }
{
    let end = run.end().min(lasts.len() as u64 - 1);
    run.first < u64::from(lasts[end as usize])
}
