ghost use Rattle.std.specs.Prelude.{◌≡◌};
ghost use Rattle.std.specs.Iterator.{YieldsFirst, item_count};
ghost use Rattle.bdb_law_sums.specs.of_format.Terms.{chain, next_of};
ghost use Rattle.bdb_survey.specs.Rows.{unless_zero};

use crate::whole_pages::WholePages;
use std::marker::Model;

/// The page that a page names as the next one, 0 for none.
fn next_of(pages: &WholePages<'_>, page: u32) -> u32
    ensures { result ≡ next_of pages.now page }
{
    match pages.page(page) {
        Some(page) => page.own_header().next,
        None => 0,
    }
}

/// The same, if there is one.
fn next_page(pages: &WholePages<'_>, page: u32) -> Option<u32>
    ensures { result ≡ unless_zero (next_of pages.now page) }
{
    match next_of(pages, page) {
        0 => None,
        next => Some(next),
    }
}

/// The pages of a row that are left.
#[derive(Drop)]
pub struct RowPages<'a> {
    pages: WholePages<'a>,
    next: Option<u32>,
    turns: u32,
}

impl<'a> Model for RowPages<'a> {
    ghost use Rattle.std.specs.Prelude.{List, ℕ};
    ghost use Rattle.bdb_survey.specs.Rows.{leaves_from};

    ghost Value = { List ℕ };

    ghost view = { λ it. leaves_from it.turns it.pages it.next };
}

impl<'a> RowPages<'a> {
    /// The pages from this one on, at most as many as there are.
    pub fn over(pages: WholePages<'a>, first: u32) -> RowPages<'a>
        ensures { result ≡ chain pages.entry first }
    {
        let turns = pages.count();
        RowPages {
            pages,
            next: Some(first),
            turns,
        }
    }
}

impl<'a> Iterator for RowPages<'a> {
    type Item = u32;

    ghost next_gives = { YieldsFirst (λ left. left) };

    ghost remaining = { item_count (λ left. left) };

    #[tactic(auto, using(crate::proofs::RowLemmas::no_turn_left, crate::proofs::RowLemmas::turn_left))]
    fn next(&mut self) -> Option<u32> {
        let page = self.next?;
        if self.turns == 0 {
            return None;
        }
        self.turns -= 1;
        self.next = next_page(&self.pages, page);
        Some(page)
    }
}
