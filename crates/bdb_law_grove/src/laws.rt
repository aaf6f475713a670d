//! Laws of groves. A grove is pages whose references stay among them, each led up to from an entrance: a page of the grove that no other page of it
//! names.
ghost use Rattle.bdb_law_grove.specs.Branch.{BranchIsKnown, BranchesFollow, BranchesStandTogether, ChainIsBranch, NoBranch, PagesStandOverBranch};
ghost use Rattle.bdb_law_grove.specs.Growing.{ChainsStand, GroveKeepsFaces, GroveLasts, GroveShares, GroveTakesIn, GrovesStandTogether, PageAlone};
ghost use Rattle.bdb_law_grove.specs.Growing.{ReferencesComeLast};
ghost use Rattle.bdb_law_grove.specs.Leaves.{LeavesStandOver};
ghost use Rattle.bdb_law_grove.specs.Standing.{GroveIsKnown, GrovesFollow, NoPagesStand, PageStandsOver, PagesStandOver};

/// A grove is one in every later file, which keeps its pages as they are.
#[tactic(auto, using(crate::proofs::ShareLemmas::grove_lasts))]
pub fn grove_lasts()
    ensures { GroveLasts }
{}

/// A page that names nothing is a grove, and its own entrance.
#[tactic(auto, using(crate::proofs::BesideLemmas::page_alone))]
pub fn page_alone()
    ensures { PageAlone }
{}

/// Two groves without a page in common are one, with the entrances of both.
#[tactic(auto, using(crate::proofs::BesideLemmas::stand_together))]
pub fn groves_stand_together()
    ensures { GrovesStandTogether }
{}

/// A page of a grove takes in an entrance by a new reference, its last: the grove goes on without this entrance.
#[tactic(auto, using(crate::proofs::TakeLemmas::takes_in))]
pub fn grove_takes_in()
    ensures { GroveTakesIn }
{}

/// A grove in which a page names the head of a chain once more is one, where the head counts it.
pub fn grove_shares()
    ensures { GroveShares }
{}

/// A grove is one while its pages keep their references and their faces, which is what other pages see of them.
pub fn grove_keeps_faces()
    ensures { GroveKeepsFaces }
{}

/// A name that is added to a page as the last is its last reference.
pub fn references_come_last()
    ensures { ReferencesComeLast }
{}

/// The pages of a chain are a grove that is entered by its first page, and hold the value.
#[tactic(auto, using(crate::proofs::ChainLemmas::chains_stand))]
pub fn chains_stand()
    ensures { ChainsStand }
{}

/// A page that stands over entrances of a grove makes one with it, and is an entrance in place of those that it names.
#[tactic(auto, using(crate::proofs::StandLemmas::page_stands_over))]
pub fn page_stands_over()
    ensures { PageStandsOver }
{}

/// Several pages that stand over the entrances of one grove, each entrance named once, make one with it, and are its entrances.
#[tactic(auto, using(crate::proofs::SeveralLemmas::pages_stand_over))]
pub fn pages_stand_over()
    ensures { PagesStandOver }
{}

/// Groves whose pages follow each other are one, with the entrances of both.
pub fn groves_follow()
    ensures { GrovesFollow }
{}

/// No pages are a grove, where groves that follow each other begin.
#[tactic(auto, using(crate::proofs::SpanLemmas::no_pages_stand))]
pub fn no_pages_stand()
    ensures { NoPagesStand }
{}

/// A grove is known by which pages it has, and by which of them are entrances: neither order nor spelling matters.
#[tactic(auto, using(crate::proofs::BesideLemmas::grove_is_known))]
pub fn grove_is_known()
    ensures { GroveIsKnown }
{}

/// Two branches without a page in common are one, with the entrances of both.
#[tactic(auto, using(crate::proofs::BranchLemmas::branches_stand_together))]
pub fn branches_stand_together()
    ensures { BranchesStandTogether }
{}

/// Branches whose pages follow each other are one, with the entrances of both.
pub fn branches_follow()
    ensures { BranchesFollow }
{}

/// No pages are a branch, where branches that follow each other begin.
#[tactic(auto, using(crate::proofs::BranchLemmas::no_branch))]
pub fn no_branch()
    ensures { NoBranch }
{}

/// A branch is known by which pages it has, and by which of them are entrances: neither order nor spelling matters.
#[tactic(auto, using(crate::proofs::BranchLemmas::branch_is_known))]
pub fn branch_is_known()
    ensures { BranchIsKnown }
{}

/// The pages of a chain are a branch that is entered by its first page: they hold no items, and name no roots.
#[tactic(auto, using(crate::proofs::BranchLemmas::chain_is_branch))]
pub fn chain_is_branch()
    ensures { ChainIsBranch }
{}

/// Several pages over the entrances of one branch, each entrance named once, make one with it and are its entrances, where their chains have their
/// lengths and their sets off the page the right leaves.
pub fn pages_stand_over_branch()
    ensures { PagesStandOverBranch }
{}

/// Leaves over a branch whose entrances are what their items name, each in its order, make one with it and are its entrances, where these names fit.
pub fn leaves_stand_over()
    ensures { LeavesStandOver }
{}
