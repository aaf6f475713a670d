ghost use Rattle.std.specs.Prelude.{◌≡◌, ◌<◌, ◌≤◌, ◌+◌, ◌^◌, ◌++◌, ◌∷◌, [], if◌then◌else◌, false, None, ℕ, List, IfOk, length, map};
ghost use Rattle.bdb_graph.specs.of_form.Seen.{page_seen};
ghost use Rattle.bdb_graph.specs.of_slots.Slots.{IsNoMetadata};
ghost use Rattle.bdb_survey.specs.of_format.Terms.{BtreeFields, File, Meta as MetaPage, page_at};
ghost use Rattle.bdb_graph.specs.of_image.Metas.{meta_seen};
ghost use Rattle.bdb_survey.specs.Metas.{HasFewBuckets};
ghost use Rattle.bdb_homes.specs.Claims.{Claim, below_in, claim};
ghost use Rattle.bdb_homes.specs.Faces.{AreFaces};
ghost use Rattle.bdb_homes.specs.Judged.{IsJudged, judged_seen};
ghost use Rattle.bdb_homes.specs.Leaps.{HasLeaps};
ghost use Rattle.bdb_homes.specs.Ups.{AreUps, AreUpsOf};

use crate::asked::Asked;
use crate::face::Face;
use crate::items::{note_counted, note_keyed};
use crate::judged::{Judged, judged_page};
use crate::table::note_table;
use crate::up::{Up, note};
use bdb_graph::{BtreeMeta, Buckets, Meta, PageType, PageView, Steps, no_leaps};
use bdb_survey::WholePages;
use std::alloc::{AllocError, Global};
use std::sync::ledger::Ledger;

/// What metadata of a btree, or of a recno, asks of its root.
fn root_of(is_recno: bool) -> Asked
    ensures { result ≡ record { types = if is_recno then 4 ∷ 6 ∷ [] else 3 ∷ 5 ∷ []; or_zero = false; level = None; previous = None } }
{
    Asked {
        types: if is_recno {
            &[PageType::RECNO_INTERNAL, PageType::RECNO_LEAF]
        } else {
            &[PageType::INTERNAL, PageType::LEAF]
        },
        or_zero: false,
        level: None,
        previous: None,
    }
}

/// Notes the claim of metadata to its root.
fn note_root(faces: &[Face], ups: &mut [Up], leaps: &[u32], holder: u32, meta: &BtreeMeta)
    requires { HasLeaps faces.now ups.old leaps.now }
    ensures leaps { HasLeaps faces.now ups.new leaps.now }
    ensures ups { (file : File) (claims : List Claim) → AreFaces file faces.now → page_at file holder ≡ MetaPage (BtreeFields meta.now)
        → AreUps file ups.old claims
        → AreUps file ups.new (claims ++ map (claim holder) (below_in (MetaPage (BtreeFields meta.now)))) }
{
    let fits = root_of(meta.is_recno()).fits(faces, meta.root);
    note(ups, meta.root, fits, Up::Metadata(holder));
}

/// Notes the claims of metadata.
fn note_meta(faces: &[Face], ups: &mut [Up], leaps: &mut [u32], holder: u32, meta: &Meta)
    requires few { HasFewBuckets meta.now }
    requires leaps { HasLeaps faces.now ups.old leaps.old }
    ensures leaps { HasLeaps faces.now ups.new leaps.new }
    ensures ups { (file : File) (claims : List Claim) → AreFaces file faces.now → page_at file holder ≡ MetaPage (meta_seen meta.now)
        → AreUps file ups.old claims → AreUps file ups.new (claims ++ map (claim holder) (below_in (MetaPage (meta_seen meta.now)))) }
{
    match meta {
        Meta::Btree(meta) => note_root(faces, ups, leaps, holder, meta),
        Meta::Hash(meta) => {
            let buckets = Buckets {
                max_bucket: meta.max_bucket,
                spares: meta.spares,
            };
            note_table(faces, ups, leaps, holder, &buckets);
        }
        Meta::Queue(_) => {}
    }
}

/// Notes the claims of a page.
fn note_below(faces: &[Face], ups: &mut [Up], leaps: &mut [u32], holder: u32, page: &Judged<'_>)
    requires judged { IsJudged page.now }
    requires leaps { HasLeaps faces.now ups.old leaps.old }
    ensures leaps { HasLeaps faces.now ups.new leaps.new }
    ensures ups { (file : File) (claims : List Claim) → AreFaces file faces.now → page_at file holder ≡ judged_seen page.now → AreUps file ups.old claims
        → AreUps file ups.new (claims ++ map (claim holder) (below_in (judged_seen page.now))) }
{
    match page {
        Judged::Meta(meta) => note_meta(faces, ups, leaps, holder, meta),
        Judged::Other(PageView::Internal(view)) => note_keyed(faces, ups, holder, view),
        Judged::Other(PageView::RecnoInternal(view)) => note_counted(faces, ups, holder, view),
        Judged::Other(_) => {}
    }
}

/// Notes the claims of a page by its number, in one step.
fn note_page<L: Ledger>(
    faces: &[Face],
    ups: &mut [Up],
    leaps: &mut [u32],
    pages: &WholePages<'_>,
    holder: u32,
    steps: &mut Steps<L>,
)
    requires faces { AreFaces pages.now faces.now }
    requires leaps { HasLeaps faces.now ups.old leaps.old }
    ensures leaps { HasLeaps faces.now ups.new leaps.new }
    ensures ups { (claims : List Claim) → AreUps pages.now ups.old claims
        → AreUps pages.now ups.new (claims ++ map (claim holder) (below_in (page_at pages.now holder))) }
    ensures cost { steps.new ≡ steps.old + 1 }
{
    steps.tick();
    if let Some(page) = judged_page(pages, holder) {
        note_below(faces, ups, leaps, holder, &page);
    }
}

/// Notes the claims of all pages.
fn note_pages<L: Ledger>(
    faces: &[Face],
    ups: &mut [Up],
    leaps: &mut [u32],
    pages: &WholePages<'_>,
    steps: &mut Steps<L>,
)
    requires faces { AreFaces pages.now faces.now }
    requires leaps { HasLeaps faces.now ups.old leaps.old }
    requires none { AreUps pages.now ups.old [] }
    ensures ups { AreUpsOf pages.now ups.new }
    ensures cost { steps.new ≤ steps.old + pages.now.count }
{
    for page in 0..pages.count() {
        note_page(faces, ups, leaps, pages, page, steps);
    }
}

/// The claims of all pages: each page is read once for them, whatever it names.
pub(crate) fn ups_of<L: Ledger>(
    alloc: Global,
    pages: &WholePages<'_>,
    faces: &[Face],
    steps: &mut Steps<L>,
) -> Result<Vec<Up>, AllocError>
    requires { AreFaces pages.now faces.now }
    ensures ups { IfOk result (λ ups. AreUpsOf pages.now ups.items) }
    ensures cost { steps.new ≤ steps.old + pages.now.count }
{
    let count = pages.count();
    let mut ups = vec![in alloc; Up::Nowhere; count as usize]?;
    let mut leaps = no_leaps(alloc, count + 1)?;
    note_pages(faces, &mut ups, &mut leaps, pages, steps);
    Ok(ups)
}
