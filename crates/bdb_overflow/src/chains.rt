ghost use Rattle.std.specs.Prelude.{◌≡◌, ◌≤◌, length};
ghost use Rattle.bdb_graph.specs.of_image.Linked.{FitsChain};
ghost use Rattle.bdb_graph.specs.of_format.Terms.{file_of, joined, pieces_of};
ghost use Rattle.bdb_overflow.specs.Taken.{full_pieces};

use crate::piece::full_pieces_at;
use crate::{Pieces, pieces_at};
use bdb_graph::{Chain, Forest, Linked, Ref};

/// The pieces of the chain with this head that have data: the bytes of its value. Other pages are passed over.
#[tactic(auto, using(crate::proofs::TakenLemmas::taken_chains))]
pub fn chain_pieces<'a>(forest: &Forest<'a>, head: u32) -> Pieces<'a>
    requires { FitsChain (file_of forest.now) head }
    ensures pieces { result ≡ full_pieces (pieces_of (file_of forest.now) head) }
    ensures value { joined result ≡ joined (pieces_of (file_of forest.now) head) }
    ensures few { length result ≤ (file_of forest.now).count }
{
    let file = forest.head();
    full_pieces_at(
        forest.image(),
        file.order,
        file.page_size,
        head,
        forest.blanks(),
    )
}

/// The pieces of a chain of a linked image, in order, one for each of its pages.
#[tactic(auto, using(crate::proofs::LinkedLemmas::linked_chains))]
pub fn pieces<'a>(linked: &Linked<'a>, r: Ref<Chain>) -> Pieces<'a>
    requires { FitsChain (file_of linked.now) r }
    ensures pieces { result ≡ pieces_of (file_of linked.now) r }
    ensures few { length result ≤ (file_of linked.now).count }
{
    let forest = linked.forest();
    let file = forest.head();
    pieces_at(forest.image(), file.order, file.page_size, r.number())
}
