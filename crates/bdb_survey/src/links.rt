ghost use Rattle.std.specs.Prelude.{◌≡◌, ◌+◌, ◌≤◌, ◌==◌, if◌then◌else◌, length, None, Some};
ghost use Rattle.bdb_law_sums.specs.of_format.Terms.{piece_in};
ghost use Rattle.bdb_law_sums.specs.of_form.Seen.{page_seen};
ghost use Rattle.bdb_survey.specs.Links.{extent_of, is_of_kind, link_in, link_of};

use crate::whole_pages::WholePages;
use bdb_law_sums::{Header, PageView, Steps};
use std::sync::ledger::Ledger;

/// What a row is made of: pages that name each other, forward and back.
#[derive(Clone, Copy, Debug, PartialEq, Eq)]
pub(crate) enum RowKind {
    /// A chain of overflow pages.
    Overflow,
    /// The leaves of a set that is a tree of records.
    Records,
    /// The leaves of a set whose data are sorted.
    SortedData,
}

/// A page of a row: the length of its data, 0 for a leaf, and its next page, 0 for none.
#[derive(Clone, Copy)]
pub(crate) struct Link {
    pub(crate) length: u16,
    pub(crate) next: u32,
}

/// How much a whole row has: the bytes of its data, 0 of leaves, and its pages.
#[derive(Clone, Copy, Debug)]
pub(crate) struct Extent {
    pub(crate) length: u64,
    pub(crate) pages: u32,
}

/// The link that a page with this header is, where it names the page before it.
fn link_from(header: Header, length: u16, before: u32) -> Option<Link>
    ensures { result ≡ if header.previous == before then Some (record { length = length; next = header.next }) else None }
{
    if header.previous != before {
        return None;
    }
    Some(Link {
        length,
        next: header.next,
    })
}

/// The page of a row that comes after another one; none where it's no such page.
fn link_on(kind: RowKind, page: &PageView<'_>, before: u32) -> Option<Link>
    requires { length (piece_in (page_seen page.now)) ≤ 32768 }
    ensures { result ≡ link_of (is_of_kind kind) before (page_seen page.now) }
{
    match kind {
        RowKind::Overflow => match page {
            PageView::Overflow(view) => link_from(view.header(), view.bytes().len() as u16, before),
            _ => None,
        },
        RowKind::Records => match page {
            PageView::RecnoLeaf(view) => link_from(view.header(), 0, before),
            _ => None,
        },
        RowKind::SortedData => match page {
            PageView::DupLeaf(view) => link_from(view.header(), 0, before),
            _ => None,
        },
    }
}

/// The same by the number of the page.
fn link_at(pages: &WholePages<'_>, kind: RowKind, before: u32, number: u32) -> Option<Link>
    ensures { result ≡ link_in pages.now (is_of_kind kind) before number }
{
    if number == 0 {
        return None;
    }
    match pages.page(number) {
        Some(page) => link_on(kind, &page, before),
        None => None,
    }
}

/// How much the row has that begins at this page; none where it isn't
/// whole. Each page names the one before it, so that no page comes twice; no more steps than there are pages.
#[tactic(auto, using(crate::proofs::WalkLemmas::row_ends))]
pub(crate) fn row_extent<L: Ledger>(
    pages: &WholePages<'_>,
    kind: RowKind,
    head: u32,
    steps: &mut Steps<L>,
) -> Option<Extent>
    ensures extent { result ≡ extent_of pages.now (is_of_kind kind) head }
    ensures bound { steps.new ≤ steps.old + pages.now.count }
{
    let mut before = 0;
    let mut page = head;
    let mut length: u64 = 0;
    for turn in 0..pages.count() {
        steps.tick();
        let link = link_at(pages, kind, before, page)?;
        length += u64::from(link.length);
        if link.next == 0 {
            return Some(Extent {
                length,
                pages: turn + 1,
            });
        }
        before = page;
        page = link.next;
    }
    None
}
