ghost use Rattle.std.specs.Prelude.{◌≡◌, ◌≤◌, ◌∷◌, ◌++◌, [], ℕ, List, length};
ghost use Rattle.bdb_overflow.specs.of_image.Linked.{FitsLeafPage, IsForest};
ghost use Rattle.bdb_overflow.specs.of_format.Terms.{file_of, leaves, structure_faults};
ghost use Rattle.bdb_tree.specs.Trees.{IsRoot};

use crate::{Leaves, leftmost};
use bdb_overflow::{Forest, LeafPage, Linked, Ref};

/// The leaves of a tree from one on, by their links: those after it in its tree follow it. No memory is
/// taken.
#[tactic(auto, using(crate::proofs::LinkLemmas::leaf_within, crate::proofs::LinkLemmas::pages_few))]
pub fn leaves<'a>(linked: &Linked<'a>, first: Ref<LeafPage>) -> Leaves<'a>
    requires fits { FitsLeafPage (file_of linked.now) first }
    requires stage { structure_faults (file_of linked.now) ≡ [] }
    ensures tree { (root : ℕ) (before after : List ℕ) → IsRoot (file_of linked.now) root
        → leaves (file_of linked.now) root ≡ before ++ (first ∷ after) → result ≡ first ∷ after }
    ensures few { length result ≤ (file_of linked.now).count }
{
    prove!(first.number() <= linked.head().last);
    Leaves::over(linked.forest(), first.number())
}

/// All leaves of the tree with this root, from left to right, by their links. No memory is taken.
#[tactic(auto, using(crate::proofs::LinkLemmas::all_pages, crate::proofs::LinkLemmas::pages_few, crate::proofs::TreeLemmas::root_is_tree))]
pub fn tree_leaves<'a>(forest: &Forest<'a>, root: u32) -> Leaves<'a>
    requires root { IsRoot (file_of forest.now) root }
    requires stage { structure_faults (file_of forest.now) ≡ [] }
    ensures forest { IsForest forest.now }
    ensures leaves { result ≡ leaves (file_of forest.now) root }
    ensures few { length result ≤ (file_of forest.now).count }
{
    prove!(root <= forest.head().last);
    let first = leftmost(forest, root);
    Leaves::over(forest.again(), first.number())
}
