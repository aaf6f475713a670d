//! Laws of levels. A level stands over another where each of its pages has an item for each of some pages of that one, in their order.
ghost use Rattle.bdb_law_levels.specs.Branches.{TowersAreBranches};
ghost use Rattle.bdb_law_levels.specs.Contents.{CountsOfRecords, CountsOfTowers, SeparatorsOfTowers};
ghost use Rattle.bdb_law_levels.specs.Links.{LinksOfTowers, LinksStand};
ghost use Rattle.bdb_law_levels.specs.Nodes.{TowersHaveLeaves};
ghost use Rattle.bdb_law_levels.specs.Roots.{TowersStand};
ghost use Rattle.bdb_law_levels.specs.SameLeaves.{LevelsHaveTheSameLeaves};
ghost use Rattle.bdb_law_levels.specs.Separators.{SeparatorsStand};

/// A level that is laid over another has the leaves of that one, in their order.
#[tactic(auto, using(crate::proofs::LevelLemmas::levels_have_the_same_leaves))]
pub fn levels_have_the_same_leaves()
    ensures { LevelsHaveTheSameLeaves }
{}

/// An internal page whose keys stand between those below its children has no wrong separator.
pub fn separators_stand()
    ensures { SeparatorsStand }
{}

/// Each page of a tower has the leaves that it is said to have, and the root those of the level at the bottom, in their order.
pub fn towers_have_leaves()
    ensures { TowersHaveLeaves }
{}

/// The internal pages of a tower over leaves whose pairs follow each other have no wrong separator.
pub fn separators_of_towers()
    ensures { SeparatorsOfTowers }
{}

/// Those of a tower whose counts are those of the pairs below have no wrong count.
pub fn counts_of_towers()
    ensures { CountsOfTowers }
{}

/// Nor have those of a tower of records whose counts are those of the records below.
pub fn counts_of_records()
    ensures { CountsOfRecords }
{}

/// Leaves of the right types that name their neighbours have no wrong type and no wrong link.
pub fn links_stand()
    ensures { LinksStand }
{}

/// Nor have the leaves of a tower over such leaves.
pub fn links_of_towers()
    ensures { LinksOfTowers }
{}

/// A tower of levels over a grove whose entrances are the pages of the level below is, with that grove, a grove that is entered by the root.
#[tactic(auto, using(crate::proofs::RootLemmas::towers_stand))]
pub fn towers_stand()
    ensures { TowersStand }
{}

/// Over a branch such a tower is, with that branch, a branch that is entered by the root, where the keys in chains have their lengths.
pub fn towers_are_branches()
    ensures { TowersAreBranches }
{}
