//! Laws of the pages of a file that linking accepts.
ghost use Rattle.bdb_graph.specs.Forest.{EachPageLeadsUp, NoLeafTwice, NoPageTwiceBelow};

/// The holders from a page up by first references end in an anchor or a reserve, after no more pages than
/// there are and none twice.
#[tactic(auto, using(crate::proofs::ForestLemmas::each_page_leads_up))]
pub fn each_page_leads_up()
    ensures { EachPageLeadsUp }
{}

/// A way down by references, other than to the head of a chain, has no page twice. So a chain, a bucket
/// and a path in a tree end.
#[tactic(auto, using(crate::proofs::ForestLemmas::no_page_twice_below))]
pub fn no_page_twice_below()
    ensures { NoPageTwiceBelow }
{}

/// The leaves at or below a page, in any number of levels, have no page twice. So a walk of a tree comes to
/// a leaf no more than once.
#[tactic(auto, using(crate::proofs::LeavesLemmas::no_leaf_twice))]
pub fn no_leaf_twice()
    ensures { NoLeafTwice }
{}
