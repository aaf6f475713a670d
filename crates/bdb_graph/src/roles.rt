ghost use Rattle.std.specs.Prelude.{◌≡◌, ◌≤◌, ◌+◌, ◌^◌, ◌<◌, ◌||◌, IfOk};
ghost use Rattle.std.specs.List.{list_any};
ghost use Rattle.bdb_image.specs.Formed.{IsFormed};
ghost use Rattle.bdb_graph.specs.Tallies.{AreTalliesOf, IsTally};
ghost use Rattle.bdb_graph.specs.Forest.{is_top};
ghost use Rattle.bdb_graph.specs.Owned.{AreCounts};
ghost use Rattle.bdb_image.specs.of_format.Terms.{file_of, first_holder, head_of, is_anchor, is_hash_meta, is_reserve, owners, page_at};

use crate::Formed;
use crate::tally::Tally;
use bdb_image::{FileKind, FormedPage, Head, page_at};
use std::alloc::{AllocError, Global};
use std::marker::Model;

/// The pages of an image with the tallies of their owners, by which they have their roles.
#[derive(Drop)]
pub(crate) struct Roles<'a> {
    formed: Formed<'a>,
    tallies: Vec<Tally>,
    has_table: bool,
}

impl<'a> Model for Roles<'a> {
    ghost use Rattle.std.specs.Prelude.{List, ℕ};
    ghost use Rattle.bdb_graph.specs.Tallies.{AreCounted};
    ghost use Rattle.bdb_image.specs.of_format.Terms.{file_of};

    ghost Value = { List ℕ };

    ghost view = { λ v. v.formed };

    ghost invariant = { λ v. AreCounted (file_of v.formed) v.tallies.items v.has_table };
}

impl<'a> Roles<'a> {
    /// The pages of an image with these tallies.
    pub(crate) fn of(formed: Formed<'a>, tallies: Vec<Tally>) -> Roles<'a>
        requires { AreTalliesOf (file_of formed) tallies.items }
        ensures { result ≡ formed.entry }
    {
        let has_table = has_table(&formed);
        Roles {
            formed,
            tallies,
            has_table,
        }
    }

    /// What page 0 says of the whole file.
    pub(crate) fn head(&self) -> Head
        ensures head { result ≡ head_of self.now }
        ensures last { result.last ≡ (file_of self.now).last }
        ensures few { result.last < 2 ^ 21 }
        ensures formed { IsFormed self.now result }
    {
        self.formed.head()
    }

    /// A page up to the last one.
    pub(crate) fn page(&self, number: u32) -> FormedPage<'a>
        requires { number ≤ (file_of self.now).last }
        ensures { result ≡ page_at (file_of self.now) number }
    {
        page_at(&self.formed, number)
    }

    /// The tally of the owners of a page.
    pub(crate) fn tally(&self, page: u32) -> Tally
        requires { page ≤ (file_of self.now).last }
        ensures { IsTally result (owners (file_of self.now) page) }
    {
        self.tallies[page as usize]
    }

    /// The counts of the owners of all pages, four bytes for each.
    #[tactic(auto, using(crate::proofs::OwnedLemmas::all_counted))]
    pub(crate) fn counts(&self, alloc: Global) -> Result<Vec<u32>, AllocError>
        ensures { IfOk result (λ counts. AreCounts (file_of self.now) counts.items) }
    {
        let mut counts = Vec::with_capacity(alloc, self.tallies.len())?;
        for tally in self.tallies.iter() {
            counts.push(tally.count)?;
        }
        Ok(counts)
    }

    /// The page that holds the first reference to a page, if there is one.
    pub(crate) fn first_holder(&self, page: u32) -> Option<u32>
        requires { page ≤ (file_of self.now).last }
        ensures { result ≡ first_holder (owners (file_of self.now) page) }
    {
        self.tally(page).first()
    }

    /// Whether a page needs no owner: it's metadata, or a page of a queue file.
    #[tactic(auto, using(crate::proofs::Below::kind_is), unfolding(crate::specs::Below::is_anchor))]
    fn is_anchor(&self, page: u32) -> bool
        requires { page ≤ (file_of self.now).last }
        ensures { result ≡ is_anchor (file_of self.now) page }
    {
        match self.head().kind {
            FileKind::Btree | FileKind::Hash => self.page(page).is_meta(),
            FileKind::Queue => true,
        }
    }

    /// Whether a table holds a page in reserve.
    #[tactic(auto, using(bdb_image::proofs::RoleLemmas::counts_none), unfolding(crate::specs::Below::is_reserve))]
    fn is_reserve(&self, page: u32) -> bool
        requires { page ≤ (file_of self.now).last }
        ensures { result ≡ is_reserve (file_of self.now) page }
    {
        self.has_table && self.tally(page).count == 0 && self.page(page).is_spare()
    }

    /// Whether a page is an anchor or a reserve: it needs no owner, and no holder is followed from there.
    pub(crate) fn is_top(&self, page: u32) -> bool
        requires { page ≤ (file_of self.now).last }
        ensures { result ≡ is_top (file_of self.now) page }
    {
        self.is_anchor(page) || self.is_reserve(page)
    }
}

/// Whether a page is the metadata of a hash table.
#[tactic(auto, using(bdb_image::proofs::RoleLemmas::some_table, bdb_image::proofs::RoleLemmas::no_table))]
fn has_table(formed: &Formed<'_>) -> bool
    ensures { result ≡ list_any is_hash_meta (file_of formed.now).pages }
{
    for page in 0..formed.head().last + 1 {
        if page_at(formed, page).is_hash_meta() {
            return true;
        }
    }
    false
}
