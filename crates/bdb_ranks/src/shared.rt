ghost use Rattle.std.specs.Prelude.{◌≡◌, ◌≤◌, IfOk, IfSome};
ghost use Rattle.bdb_tree.specs.of_format.Terms.{file_of};
ghost use Rattle.bdb_tree.specs.of_image.Linked.{IsForest};
ghost use Rattle.bdb_tree.specs.of_overflow.Datum.{datum_seen};
ghost use Rattle.bdb_ranks.specs.Shared.{AreShared, IsShared};

use bdb_tree::{Datum, Forest, PageView, chain_pieces};
use std::alloc::{AllocError, Global};
use std::marker::Model;

/// A chain that several items may name: its head, and its value.
#[derive(Drop)]
pub(crate) struct SharedChain<'a> {
    head: u32,
    value: Datum<'a>,
}

impl<'a> Model for SharedChain<'a> {
    ghost use Rattle.bdb_tree.specs.of_overflow.Datum.{datum_seen};
    ghost use Rattle.bdb_ranks.specs.Shared.{ChainValue};

    ghost Value = { ChainValue };

    ghost view = { λ it. record { head = it.head; value = datum_seen it.value } };
}

impl<'a> SharedChain<'a> {
    /// Its first page.
    pub(crate) fn head(&self) -> u32
        ensures { result ≡ self.now.head }
    {
        self.head
    }

    /// Its value.
    pub(crate) fn value(&self) -> &Datum<'a>
        ensures { datum_seen result.now ≡ self.now.value }
    {
        &self.value
    }
}

/// The chain that begins at a page up to the last one, if its page counts several items that name it.
#[tactic(auto, using(crate::proofs::HeadLemmas::head_fits))]
fn shared_at<'a>(forest: &Forest<'a>, page: u32) -> Option<SharedChain<'a>>
    requires { page ≤ (file_of forest.now).last }
    ensures chain { IfSome result (λ chain. IsShared forest.now chain) }
    ensures forest { IsForest forest.now }
{
    match forest.page(page) {
        PageView::Overflow(view) if view.header().previous == 0 && view.header().entries > 1 => {
            Some(SharedChain {
                head: page,
                value: Datum::Chained(chain_pieces(forest, page)),
            })
        }
        _ => None,
    }
}

/// The chains of a file that several items may name. An error means that memory ran out.
#[tactic(auto, using(crate::proofs::SharedLemmas::none_shared, crate::proofs::SharedLemmas::shared_more))]
pub(crate) fn shared_chains<'a>(
    alloc: Global,
    forest: &Forest<'a>,
) -> Result<Vec<SharedChain<'a>>, AllocError>
    ensures { IfOk result (λ chains. AreShared forest.now chains.items) }
{
    let mut chains = Vec::new(alloc);
    for page in 0..forest.head().last + 1 {
        if let Some(chain) = shared_at(forest, page) {
            chains.push(chain)?;
        }
    }
    Ok(chains)
}
