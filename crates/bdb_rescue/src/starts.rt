ghost use Rattle.std.specs.Prelude.{◌≡◌, ◌++◌, ◌<◌, ◌∷◌, [], IfOk, IsTrue, false, slice_index_or, if◌then◌else◌, ℕ, List, length};
ghost use Rattle.std.specs.List.{All, flat_map};
ghost use Rattle.bdb_text_format.specs.of_format.Terms.{chain};
ghost use Rattle.bdb_rescue.specs.Kept.{kept_pairs};
ghost use Rattle.bdb_rescue.specs.Marks.{Marks, start_of, starts_of};
ghost use Rattle.bdb_survey.specs.Salvage.{set_starts};

use crate::kept::{DataPlace, KeptPair};
use bdb_survey::{RowPages, WholePages};
use std::alloc::{AllocError, Global};

/// Whether a page is marked.
pub(crate) fn is_marked(marks: &[bool], page: u32) -> bool
    requires { page < length marks.now }
    ensures { result ≡ slice_index_or marks.now page false }
{
    marks[page as usize]
}

/// Marks a page.
fn mark(marks: &mut [bool], page: u32)
    requires { page < length marks.old }
    ensures marks { (count : ℕ) (ps : List ℕ) → Marks count marks.old ps → Marks count marks.new (ps ++ page ∷ []) }
    ensures length { length marks.new ≡ length marks.old }
{
    marks[page as usize] = true;
}

/// Marks the first leaf of the set of a pair.
fn mark_start(starts: &mut [bool], pair: KeptPair)
    requires { All (λ leaf. leaf < length starts.old) (start_of pair) }
    ensures marks { (count : ℕ) (ps : List ℕ) → Marks count starts.old ps → Marks count starts.new (ps ++ start_of pair) }
    ensures length { length starts.new ≡ length starts.old }
{
    if let DataPlace::Set { leaf } = pair.place {
        mark(starts, leaf);
    }
}

/// Which pages are first leaves of the sets of pairs.
#[tactic(auto, using(crate::proofs::MarkLemmas::all_starts))]
fn set_starts(alloc: Global, count: u32, pairs: &[KeptPair]) -> Result<Vec<bool>, AllocError>
    requires { All (λ leaf. leaf < count) (starts_of pairs.now) }
    ensures { IfOk result (λ starts. Marks count starts.items (starts_of pairs.now)) }
{
    let mut starts = vec![in alloc; false; count as usize]?;
    for pair in pairs {
        mark_start(&mut starts, *pair);
    }
    Ok(starts)
}

/// Marks the pages of a row.
fn mark_row(taken: &mut [bool], row: RowPages<'_>)
    requires { All (λ p. p < length taken.old) row }
    ensures marks { (count : ℕ) (ps : List ℕ) → Marks count taken.old ps → Marks count taken.new (ps ++ row.entry) }
    ensures length { length taken.new ≡ length taken.old }
{
    for page in row {
        mark(taken, page);
    }
}

/// Marks the pages of the row from a page on, where one starts there.
fn mark_started(taken: &mut [bool], pages: &WholePages<'_>, page: u32, starts: bool)
    requires { IsTrue starts → All (λ p. p < length taken.old) (chain pages.now page) }
    ensures marks { (count : ℕ) (ps : List ℕ) → Marks count taken.old ps
        → Marks count taken.new (ps ++ (if starts then chain pages.now page else [])) }
    ensures length { length taken.new ≡ length taken.old }
{
    if starts {
        mark_row(taken, RowPages::over(pages.again(), page));
    }
}

/// Which pages are first leaves of whole sets of pairs.
pub(crate) fn first_leaves(
    alloc: Global,
    pages: &WholePages<'_>,
    pairs: &[KeptPair],
) -> Result<Vec<bool>, AllocError>
    requires { pairs.now ≡ kept_pairs pages.now }
    ensures { IfOk result (λ starts. Marks pages.now.count starts.items (set_starts pages.now)) }
{
    let starts = set_starts(alloc, pages.count(), pairs)?;
    Ok(starts)
}

/// Which pages are leaves of whole sets of pairs.
pub(crate) fn taken_pages(
    alloc: Global,
    pages: &WholePages<'_>,
    starts: &[bool],
) -> Result<Vec<bool>, AllocError>
    requires { Marks pages.now.count starts.now (set_starts pages.now) }
    ensures { IfOk result (λ taken. Marks pages.now.count taken.items (flat_map (chain pages.now) (set_starts pages.now))) }
{
    let mut taken = vec![in alloc; false; pages.count() as usize]?;
    for page in 0..pages.count() {
        mark_started(&mut taken, pages, page, is_marked(starts, page));
    }
    Ok(taken)
}
