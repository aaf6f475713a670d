ghost use Rattle.std.specs.Prelude.{◌≡◌, IfOk, map, IfSome};
ghost use Rattle.std.specs.List.{range_with_len};
ghost use Rattle.bdb_law_sums.specs.of_form.Seen.{page_seen};
ghost use Rattle.bdb_law_sums.specs.of_format.Terms.{page_at};
ghost use Rattle.bdb_meta.specs.of_layout.Seen.{content_seen};
ghost use Rattle.std.specs.Option.{option_to_list};
ghost use Rattle.bdb_survey.specs.Rows.{chain_row, is_chain_of, is_leaf_row, leaf_row, row_at, row_by, thin_pieces, way_row};
ghost use Rattle.bdb_survey.specs.Items.{is_valued};
ghost use Rattle.bdb_survey.specs.Salvage.{is_whole, set_start};

use crate::down::{Way, way_from};
use crate::links::{Extent, RowKind, row_extent};
use crate::whole_pages::WholePages;
use bdb_law_sums::{PageView, Pieces, Steps};
use bdb_meta::Content;
use std::alloc::{AllocError, Global};
use std::marker::Model;
use std::sync::ledger::Ledger;

/// What begins at a page.
#[derive(Clone, Copy, Debug)]
pub(crate) enum Row {
    /// No whole row.
    Nothing,
    /// A whole chain: how many bytes its data have, and how many pages it.
    Chain { length: u64, pages: u32 },
    /// A whole row of leaves of a set.
    Leaves,
    /// No row, but the way down to a set goes on from here to this child, which fits.
    Way { child: u32 },
}

/// The pages of an image, and what begins at each of them, 16 bytes each.
#[derive(Drop)]
pub struct Survey<'a> {
    pages: WholePages<'a>,
    rows: Vec<Row>,
}

impl<'a> Model for Survey<'a> {
    ghost use Rattle.std.specs.Prelude.{◌≡◌, map};
    ghost use Rattle.std.specs.List.{range_with_len};
    ghost use Rattle.bdb_law_sums.specs.of_format.Terms.{File};
    ghost use Rattle.bdb_survey.specs.Rows.{row_at};

    ghost Value = { File };

    ghost view = { λ v. v.pages };

    ghost invariant = { λ v. v.rows.items ≡ map (row_at v.pages) (range_with_len 0 v.pages.count) };
}

/// The row of a chain that has so much.
fn chain_row(extent: Option<Extent>) -> Row
    ensures { result ≡ chain_row extent }
{
    match extent {
        Some(Extent { length, pages }) => Row::Chain { length, pages },
        None => Row::Nothing,
    }
}

/// The row of leaves, if they are whole.
fn leaf_row(extent: Option<Extent>) -> Row
    ensures { result ≡ leaf_row extent }
{
    match extent {
        Some(_) => Row::Leaves,
        None => Row::Nothing,
    }
}

/// The way that goes on, if one does.
fn way_row(way: Way) -> Row
    ensures { result ≡ way_row way }
{
    match way {
        Way::Child(child) => Row::Way { child },
        Way::Ends | Way::Broken => Row::Nothing,
    }
}

/// What begins at a page with this number.
fn row_of<L: Ledger>(
    pages: &WholePages<'_>,
    number: u32,
    page: &PageView<'_>,
    steps: &mut Steps<L>,
) -> Row
    requires { page_seen page.now ≡ page_at pages.now number }
    ensures { result ≡ row_by pages.now number (page_seen page.now) }
{
    match page {
        PageView::Overflow(_) => chain_row(row_extent(pages, RowKind::Overflow, number, steps)),
        PageView::RecnoLeaf(_) => leaf_row(row_extent(pages, RowKind::Records, number, steps)),
        PageView::DupLeaf(_) => leaf_row(row_extent(pages, RowKind::SortedData, number, steps)),
        PageView::Internal(_) | PageView::RecnoInternal(_) => way_row(way_from(
            pages, number, page,
        )),
        _ => Row::Nothing,
    }
}

/// What begins at a page.
fn row_from<L: Ledger>(pages: &WholePages<'_>, number: u32, steps: &mut Steps<L>) -> Row
    ensures { result ≡ row_at pages.now number }
{
    match pages.page(number) {
        Some(page) => row_of(pages, number, &page, steps),
        None => Row::Nothing,
    }
}

/// What begins at each page.
#[tactic(auto, using(crate::proofs::SurveyLemmas::rows_more))]
fn all_rows<L: Ledger>(
    alloc: Global,
    pages: &WholePages<'_>,
    steps: &mut Steps<L>,
) -> Result<Vec<Row>, AllocError>
    ensures { IfOk result (λ rows. rows.items ≡ map (row_at pages.now) (range_with_len 0 pages.now.count)) }
{
    let mut rows = Vec::new(alloc);
    for page in 0..pages.count() {
        rows.push(row_from(pages, page, steps))?;
    }
    Ok(rows)
}

impl<'a> Survey<'a> {
    /// The survey of an image's pages: rows that begin at different pages share none but one on which a walk
    /// ends, so all walks together look at each page at most twice, and once more where a walk begins or where it's
    /// the first child of an internal page. An error means that memory ran out.
    pub fn of<L: Ledger>(
        alloc: Global,
        pages: WholePages<'a>,
        steps: &mut Steps<L>,
    ) -> Result<Survey<'a>, AllocError>
        ensures { IfOk result (λ survey. survey ≡ pages.entry) }
    {
        let rows = all_rows(alloc, &pages, steps)?;
        Ok(Survey { pages, rows })
    }

    /// The pages that it surveys.
    pub fn pages(&self) -> &WholePages<'a>
        ensures { result.now ≡ self.now }
    {
        &self.pages
    }

    /// What begins at a page; nothing where there's no such page.
    #[tactic(auto, using(crate::proofs::SurveyLemmas::row_there, crate::proofs::SurveyLemmas::rows_long, crate::proofs::SurveyLemmas::row_past))]
    fn row(&self, page: u32) -> Row
        ensures { result ≡ row_at self.now page }
    {
        if page >= self.pages.count() {
            return Row::Nothing;
        }
        self.rows[page as usize]
    }

    /// The pieces of the whole chain that begins at a page, where it has fewer bytes than pages.
    #[tactic(auto, using(crate::proofs::SurveyLemmas::chain_is_row))]
    pub fn thin_pieces(&self, page: u32) -> Option<Pieces<'a>>
        ensures { result ≡ thin_pieces self.now page }
    {
        match self.row(page) {
            Row::Chain { length, pages } => {
                if length < u64::from(pages) {
                    Some(self.pages.pieces(page))
                } else {
                    None
                }
            }
            Row::Nothing | Row::Leaves | Row::Way { .. } => None,
        }
    }

    /// Whether a chain is whole and has this length.
    #[tactic(auto, using(crate::proofs::SurveyLemmas::chain_whole))]
    pub fn is_whole(&self, head: u32, total: u32) -> bool
        ensures { result ≡ is_whole self.now head total }
    {
        match self.row(head) {
            Row::Chain { length, .. } => length == u64::from(total),
            Row::Nothing | Row::Leaves | Row::Way { .. } => false,
        }
    }

    /// The first leaf of the set with this root, where the set is whole: the way down ends there, after at most
    /// 255 looks at what is kept, and none at a page. A level is a byte, and falls by one.
    #[tactic(auto, using(crate::proofs::DownLemmas::starts_of_sets))]
    pub fn set_start(&self, root: u32) -> Option<u32>
        ensures { option_to_list result ≡ set_start self.now root }
    {
        if root == 0 {
            return None;
        }
        let mut page = root;
        for _level in 0..255u8 {
            match self.row(page) {
                Row::Leaves => return Some(page),
                Row::Way { child } => page = child,
                Row::Nothing | Row::Chain { .. } => return None,
            }
        }
        None
    }

    /// Whether an item has a value by itself that is whole.
    pub fn is_valued(&self, content: &Content<'_>) -> bool
        ensures { result ≡ is_valued self.now (content_seen content.now) }
    {
        match content {
            Content::Inline(_) => true,
            Content::Overflow { head, total } => self.is_whole(*head, *total),
            Content::Set(_) | Content::OffPage { .. } => false,
        }
    }
}
