ghost use Rattle.std.specs.Prelude.{◌≡◌, if◌then◌else◌, ℕ};
ghost use Rattle.bdb_law_sums.specs.of_format.Terms.{Internal, InternalItem, Listed, RecnoInternal, page_at};
ghost use Rattle.bdb_law_sums.specs.of_format.declared.pages.RecnoItem.{RecnoItem};
ghost use Rattle.bdb_law_sums.specs.of_form.Seen.{page_seen};
ghost use Rattle.bdb_survey.specs.Salvage.{down, fits_below, set_start};
ghost use Rattle.bdb_survey.specs.Ways.{fits_as, plain_type, way_from};
ghost use Rattle.bdb_survey.specs.declared.down.Way.TheVariants.{Broken, Child};

use crate::whole_pages::WholePages;
use bdb_law_sums::{PageType, PageView, has_type, keyed_types, record_types};

/// Where the way down goes on from a page.
#[derive(Clone, Copy, Debug)]
pub(crate) enum Way {
    /// The page is no internal page.
    Ends,
    /// Its first child fits.
    Child(u32),
    /// Its first child doesn't fit.
    Broken,
}

/// The type of a page but of metadata.
fn page_type(page: &PageView<'_>) -> Option<u8>
    ensures { result ≡ plain_type (page_seen page.now) }
{
    match page {
        PageView::Zero(_) | PageView::Meta(_) => None,
        PageView::Free(_) => Some(PageType::FREE),
        PageView::Hash(view) => Some(view.header().page_type),
        PageView::Internal(_) => Some(PageType::INTERNAL),
        PageView::RecnoInternal(_) => Some(PageType::RECNO_INTERNAL),
        PageView::Leaf(_) => Some(PageType::LEAF),
        PageView::RecnoLeaf(_) => Some(PageType::RECNO_LEAF),
        PageView::Overflow(_) => Some(PageType::OVERFLOW),
        PageView::Queue(_) => Some(PageType::QUEUE),
        PageView::DupLeaf(_) => Some(PageType::DUP_LEAF),
    }
}

/// Whether a page above 0 has one of these types, and this level.
fn fits(pages: &WholePages<'_>, types: &[u8], level: u8, child: u32) -> bool
    ensures { result ≡ fits_as pages.now types.now level child }
{
    if child == 0 || child > pages.last() {
        return false;
    }
    match pages.page(child) {
        Some(page) => has_type(types, page_type(&page)) && level == page.own_header().level,
        None => false,
    }
}

/// Whether a page fits as a child of an internal page of this level.
#[tactic(auto, using(crate::proofs::WayLemmas::keyed_fits))]
fn fits_keyed(pages: &WholePages<'_>, level: u8, child: u32) -> bool
    ensures { (p : ℕ) (view : Listed InternalItem) → page_at pages.now p ≡ Internal view → view.header.level ≡ level
        → result ≡ fits_below pages.now p child }
{
    fits(pages, keyed_types(level), level.saturating_sub(1), child)
}

/// The same in a tree of records.
#[tactic(auto, using(crate::proofs::WayLemmas::record_fits))]
fn fits_records(pages: &WholePages<'_>, level: u8, child: u32) -> bool
    ensures { (p : ℕ) (view : Listed RecnoItem) → page_at pages.now p ≡ RecnoInternal view → view.header.level ≡ level
        → result ≡ fits_below pages.now p child }
{
    fits(pages, record_types(level), level.saturating_sub(1), child)
}

fn way_to(fits: bool, child: u32) -> Way
    ensures { result ≡ if fits then Child child else Broken }
{
    if fits { Way::Child(child) } else { Way::Broken }
}

/// Where the way down goes on from a page with this number.
pub(crate) fn way_from(pages: &WholePages<'_>, number: u32, page: &PageView<'_>) -> Way
    requires { page_seen page.now ≡ page_at pages.now number }
    ensures { result ≡ way_from pages.now number }
{
    match page {
        PageView::Internal(view) => {
            if view.entries() == 0 {
                return Way::Broken;
            }
            let child = view.item(0).child;
            way_to(fits_keyed(pages, view.header().level, child), child)
        }
        PageView::RecnoInternal(view) => {
            if view.entries() == 0 {
                return Way::Broken;
            }
            let child = view.item(0).child;
            way_to(fits_records(pages, view.header().level, child), child)
        }
        _ => Way::Ends,
    }
}
