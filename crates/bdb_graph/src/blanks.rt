ghost use Rattle.std.specs.Prelude.{◌≡◌, ◌∷◌, IfOk, IfSome};
ghost use Rattle.bdb_graph.specs.Blanks.{ArePassed, IsAfter, page_past};
ghost use Rattle.bdb_image.specs.of_format.Terms.{File, file_of};

use crate::Formed;
use crate::chain_lengths::{link_at, may_head};
use crate::leaps::no_leaps;
use bdb_image::page_at;
use std::alloc::{AllocError, Global};
use std::marker::Model;
use std::rc::RcSlice;

/// The pages of chains that are passed over, since they have no data: a handle to a list that is made once for a file.
#[derive(Drop)]
pub struct Blanks {
    // For the first of such pages the page behind them, 0 for the end; for each other page itself.
    nexts: RcSlice<u32>,
}

impl Model for Blanks {
    ghost use Rattle.std.specs.Prelude.{List, ℕ};
    ghost use Rattle.std.specs.Rc.{rc_slice_items};

    ghost Value = { List ℕ };

    ghost view = { λ v. rc_slice_items v.nexts };
}

impl Blanks {
    /// Another handle to the same list, or `None` if no more handles can be counted.
    pub fn again(&self) -> Option<Blanks>
        ensures { IfSome result (λ blanks. blanks ≡ self.now) }
    {
        match self.nexts.clone() {
            Ok(nexts) => Some(Blanks { nexts }),
            Err(_) => None,
        }
    }

    /// The page from which a chain has the same data as from this one, without the pages that are passed over; 0 for the end.
    pub fn past(&self, page: u32) -> u32
        ensures { result ≡ page_past self.now page }
    {
        match self.nexts.as_slice().get(page as usize) {
            Some(next) => *next,
            None => page,
        }
    }
}

/// A page stands for one that comes after it, if it's there.
#[tactic(auto, using(crate::proofs::BlankLemmas::passed_more))]
fn stand_for(nexts: &mut [u32], page: u32, after: u32)
    ensures { (file : File) → IsAfter file page after → ArePassed file nexts.old → ArePassed file nexts.new }
{
    if (page as usize) < nexts.len() {
        nexts[page as usize] = after;
    }
}

/// Passes over the pages without data of the chain with this head, by one look at each of its pages.
fn pass_blanks(formed: &Formed<'_>, nexts: &mut [u32], head: u32)
    requires { ArePassed (file_of formed.now) nexts.old }
    ensures { ArePassed (file_of formed.now) nexts.new }
{
    let mut first = head;
    let mut page = head;
    for _turn in 0..formed.head().pages {
        if page == 0 || page > formed.head().last {
            break;
        }
        let link = link_at(formed, page);
        if link.length > 0 {
            stand_for(nexts, first, page);
            first = link.next;
        }
        page = link.next;
    }
    stand_for(nexts, first, page);
}

/// The pages without data of all chains. There each page of a chain has one place, so that all chains together are gone through once. It
/// takes four bytes for each page.
#[tactic(auto, using(crate::proofs::BlankLemmas::none_passed))]
pub(crate) fn blanks_of(alloc: Global, formed: &Formed<'_>) -> Result<Blanks, AllocError>
    ensures { IfOk result (λ blanks. ArePassed (file_of formed.now) blanks) }
{
    let pages = formed.head().last + 1;
    let mut nexts = no_leaps(alloc, pages)?;
    for page in 0..pages {
        if may_head(&page_at(formed, page)) {
            pass_blanks(formed, &mut nexts, page);
        }
    }
    let nexts = RcSlice::from_vec(nexts)?;
    Ok(Blanks { nexts })
}
