ghost use Rattle.std.specs.Prelude.{◌≡◌, ◌-◌, ◌^◌, ◌<◌, ◌≤◌, IfSome, IsTrue, length, ℕ};
ghost use Rattle.std.specs.Option.{option_map};
ghost use Rattle.bdb_law_sums.specs.of_format.Terms.{NoType, is_page_size, page_at, piece_in, pieces_of};
ghost use Rattle.bdb_law_sums.specs.of_form.Seen.{page_seen};
ghost use Rattle.bdb_meta.specs.of_layout.Seen.{content_seen};
ghost use Rattle.bdb_survey.specs.Items.{slot_at, slots_in};
ghost use Rattle.bdb_law_sums.specs.of_image.Metas.{meta_in, meta_seen};
ghost use Rattle.bdb_survey.specs.Links.{view_page};
ghost use Rattle.bdb_survey.specs.Metas.{HasFewBuckets};
ghost use Rattle.bdb_survey.specs.Salvage.{is_overflow, is_row, salvaged_file};

use crate::Guess;
use crate::metadata::{has_meta_row, meta_on};
use crate::slots::slots_of;
use bdb_law_sums::{Meta, PageView, Pieces, form, known_form, page_bytes, pieces_at};
use bdb_meta::{Content, u32_at};
use std::marker::Model;

/// The whole pages of an image, as a guess reads them.
#[derive(Drop)]
pub struct WholePages<'a> {
    image: &'a [u8],
    guess: Guess,
}

impl<'a> Model for WholePages<'a> {
    ghost use Rattle.bdb_law_sums.specs.of_format.Terms.{File};
    ghost use Rattle.bdb_survey.specs.Reads.{IsRead};
    ghost use Rattle.bdb_survey.specs.Salvage.{salvaged_file};

    ghost Value = { File };

    ghost view = { λ v. salvaged_file v.guess.order v.guess.page_size v.image.now };

    ghost invariant = { λ v. IsRead v.guess.page_size v.image.now };
}

#[tactic(auto, using(crate::proofs::StoredPageLemmas::count_is, crate::proofs::Below::long_page, crate::proofs::PageLemmas::few))]
impl<'a> WholePages<'a> {
    /// The pages of an image.
    pub fn over(image: &'a [u8], guess: Guess) -> WholePages<'a>
        requires size { IsTrue (is_page_size guess.page_size) }
        requires small { length image.now ≤ 2 ^ 30 }
        ensures { result ≡ salvaged_file guess.order guess.page_size image.now }
    {
        WholePages { image, guess }
    }

    /// The same pages once more.
    pub fn again(&self) -> WholePages<'a>
        ensures { result ≡ self.now }
    {
        WholePages {
            image: self.image,
            guess: self.guess,
        }
    }

    /// How many there are.
    #[tactic(auto, using(crate::proofs::StoredPageLemmas::count_is, crate::proofs::StoredPageLemmas::last_is, crate::proofs::PageLemmas::few))]
    pub fn count(&self) -> u32
        ensures count { result ≡ self.now.count }
        ensures few { result ≤ 2 ^ 21 }
        ensures last { self.now.last ≡ result - 1 }
        ensures past { (p : ℕ) → result ≤ p → page_at self.now p ≡ NoType }
    {
        (self.image.len() / self.guess.page_size as usize) as u32
    }

    /// The last one.
    #[tactic(auto, using(crate::proofs::StoredPageLemmas::last_is, crate::proofs::StoredPageLemmas::count_is))]
    pub fn last(&self) -> u32
        ensures { result ≡ self.now.last }
    {
        // What holds of the pages is known where a field of them is looked at.
        let _ = &self.image;
        self.count().saturating_sub(1)
    }

    /// A page by its number; none where there's no such page, or a row of form holds for it, or one of metadata by
    /// the number that the page carries and the last page.
    #[tactic(auto, using(crate::proofs::StoredPageLemmas::page_past, crate::proofs::Below::long_page))]
    pub fn page(&self, number: u32) -> Option<PageView<'a>>
        ensures page { view_page result ≡ page_at self.now number }
        ensures short { length (piece_in (view_page result)) ≤ 32768 }
    {
        let pages = self.count();
        if number >= pages {
            return None;
        }
        let page = page_bytes(self.image, self.guess.page_size, number);
        let number = u32_at(page, 8, self.guess.order);
        if has_meta_row(page, self.guess.order, number, pages - 1) {
            return None;
        }
        match form(page, number, self.guess.order) {
            Ok(view) => Some(view),
            Err(_) => None,
        }
    }

    /// The fields of a page, if it's metadata.
    #[tactic(auto, using(crate::proofs::Below::long_page))]
    pub fn meta(&self, number: u32) -> Option<Meta>
        ensures meta { option_map meta_seen result ≡ meta_in (page_at self.now number) }
        ensures few { IfSome result HasFewBuckets }
    {
        let pages = self.count();
        if number >= pages {
            return None;
        }
        let page = page_bytes(self.image, self.guess.page_size, number);
        let number = u32_at(page, 8, self.guess.order);
        if form(page, number, self.guess.order).is_err() {
            return None;
        }
        meta_on(page, self.guess.order, number, pages - 1)
    }

    /// The pieces of a whole chain.
    #[tactic(auto, using(crate::proofs::ChainLemmas::whole_chain, crate::proofs::ChainLemmas::same_pieces))]
    pub fn pieces(&self, head: u32) -> Pieces<'a>
        requires { IsTrue (is_row self.now is_overflow head) }
        ensures { result ≡ pieces_of self.now head }
    {
        pieces_at(self.image, self.guess.order, self.guess.page_size, head)
    }
}

impl<'a> WholePages<'a> {
    /// The view of a page that is known to have no fault, without another look at its items.
    fn known_page(&self, number: u32) -> PageView<'a>
        requires { 1 ≤ length (slots_in (page_at self.now number)) }
        ensures { page_seen result ≡ page_at self.now number }
    {
        let page = page_bytes(self.image, self.guess.page_size, number);
        let number = u32_at(page, 8, self.guess.order);
        known_form(page, number, self.guess.order)
    }

    /// What the item of a page holds.
    pub fn content(&self, number: u32, index: u32) -> Content<'a>
        requires { index < length (slots_in (page_at self.now number)) }
        ensures { content_seen result ≡ (slot_at (slots_in (page_at self.now number)) index).content }
    {
        match slots_of(self.known_page(number)) {
            Some(slots) => {
                prove!(index < u32::from(slots.count()));
                slots.content(index as u16)
            }
            None => Content::Inline(&[]),
        }
    }
}
