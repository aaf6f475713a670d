ghost use Rattle.std.specs.Prelude.{◌≡◌, ◌+◌, ◌≤◌, IfOk, length, map};
ghost use Rattle.std.specs.List.{range_with_len};
ghost use Rattle.bdb_image.specs.of_format.Terms.{file_of, next_of, page_at, piece_in};
ghost use Rattle.bdb_graph.specs.ChainLengths.{AreLengths, chain_length, kept_length, may_head};
ghost use Rattle.bdb_graph.specs.Walked.{IsWalked};

use crate::Formed;
use crate::tally::Kinds;
use bdb_image::{FormedPage, page_at};
use std::alloc::{AllocError, Global};

/// A page of a chain: how many bytes it holds, and the page after it, 0 for none.
#[derive(Clone, Copy)]
pub(crate) struct Link {
    pub(crate) length: u32,
    pub(crate) next: u32,
}

/// The link that a page is; one past the last holds nothing.
#[tactic(auto, using(crate::proofs::Below::past_last, crate::proofs::ChainLengthLemmas::piece_short))]
pub(crate) fn link_at(formed: &Formed<'_>, number: u32) -> Link
    ensures length { result.length ≡ length (piece_in (page_at (file_of formed.now) number)) }
    ensures next { result.next ≡ next_of (file_of formed.now) number }
    ensures short { result.length ≤ (file_of formed.now).size }
{
    if number > formed.head().last {
        return Link { length: 0, next: 0 };
    }
    let page = page_at(formed, number);
    Link {
        length: page.piece_len(),
        next: page.next(),
    }
}

/// How many bytes the chain with this head has, by one look at each of its pages. It's noted where one of them has none.
#[tactic(auto, using(crate::proofs::Below::count_is))]
fn chain_length(formed: &Formed<'_>, head: u32, has_blank: &mut bool) -> u32
    ensures { result ≡ chain_length (file_of formed.now) head }
{
    let mut total = 0;
    let mut page = head;
    for _turn in 0..formed.head().pages {
        let link = link_at(formed, page);
        total += link.length;
        *has_blank |= link.length == 0;
        if link.next == 0 {
            return total;
        }
        page = link.next;
    }
    total
}

/// Whether an item may name a page as the head of a chain.
pub(crate) fn may_head(page: &FormedPage<'_>) -> bool
    ensures { result ≡ may_head page.now }
{
    page.is_overflow() && page.previous() == 0
}

/// What is kept of a page: the length of the chain that begins there, 0 where none does.
fn kept_length(formed: &Formed<'_>, page: u32, has_blank: &mut bool) -> u32
    requires { page ≤ (file_of formed.now).last }
    ensures { result ≡ kept_length (file_of formed.now) page }
{
    if may_head(&page_at(formed, page)) {
        chain_length(formed, page, has_blank)
    } else {
        0
    }
}

/// How long chains are, each at its head, and whether some page of a chain has no data.
#[derive(Drop)]
pub(crate) struct Lengths {
    pub(crate) kept: Vec<u32>,
    pub(crate) has_blank: bool,
}

/// What is kept of each page up to the last, four bytes for each.
#[tactic(auto, using(crate::proofs::ChainLengthLemmas::kept_more))]
fn kept_lengths(alloc: Global, formed: &Formed<'_>) -> Result<Lengths, AllocError>
    ensures { IfOk result (λ lengths. lengths.kept.items ≡ map (kept_length (file_of formed.now)) (range_with_len 0 ((file_of formed.now).last + 1))) }
{
    let pages = formed.head().last + 1;
    let mut kept = Vec::with_capacity(alloc, pages as usize)?;
    let mut has_blank = false;
    for page in 0..pages {
        kept.push(kept_length(formed, page, &mut has_blank))?;
    }
    Ok(Lengths { kept, has_blank })
}

/// The lengths of the chains of an image whose pages are a forest, at their heads. There each page of a chain has one place,
/// so that all chains together are gone through once. It takes four bytes for each page, and none where no item names a chain.
#[tactic(auto, using(crate::proofs::ChainLengthLemmas::all_kept, crate::proofs::ChainLengthLemmas::none_kept))]
pub(crate) fn lengths_of(
    alloc: Global,
    formed: &Formed<'_>,
    kinds: Kinds,
) -> Result<Lengths, AllocError>
    requires { IsWalked formed.now kinds }
    ensures { IfOk result (λ lengths. AreLengths (file_of formed.now) lengths.kept.items) }
{
    if !kinds.chains() {
        return Ok(Lengths {
            kept: Vec::new(alloc),
            has_blank: false,
        });
    }
    kept_lengths(alloc, formed)
}
