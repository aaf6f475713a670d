//! Laws of leaves that take entries.
ghost use Rattle.bdb_mkleaves.specs.Counted.{BegunLeavesAreCounted, FinishedTreesHaveSize, PushedUnitsAreCounted};
ghost use Rattle.bdb_mkleaves.specs.Filled.{PushedUnitsSpread, UnitsFit};
ghost use Rattle.bdb_mkleaves.specs.Finished.{FinishedTreesAreCounted, FinishedTreesAreFormed, FinishedTreesAreLaid, FinishedTreesAreLaidOut};
ghost use Rattle.bdb_mkleaves.specs.Finished.{FinishedTreesKeepOlderPages, FinishedTreesKeepPages, FinishedTreesKeepTrees, FirstRootsAreLaid};
ghost use Rattle.bdb_mkleaves.specs.Grown.{GrownSetsStand};
ghost use Rattle.bdb_mkleaves.specs.Inner.{ChildrenAreFormed, ChildrenStand, RaisedPagesStand};
ghost use Rattle.bdb_mkleaves.specs.Laid.{LaidSetsHoldData, LaidTreesAreBranches, LaidTreesAreLinked, LaidTreesAreLive, LaidTreesAreParts, LaidTreesHaveLeaves};
ghost use Rattle.bdb_mkleaves.specs.Layout.{TreesAreIn, TreesAreSorted};
ghost use Rattle.bdb_mkleaves.specs.LeafEntries.{LeavesAreFormed, LeavesStand};
ghost use Rattle.bdb_mkleaves.specs.Levels.{LevelsAreFormed, LevelsAreLater, LevelsAreNumbered, LevelsGoOn, LevelsKeepPages, LevelsShrink, LevelsStand};
ghost use Rattle.bdb_mkleaves.specs.Placed.{PairsFollow, RecordsKeepLength, UnitsAreListed, UnitsAreRead, UnitsCost, UnitsKeepRules};

/// A leaf that holds entries has no fault of form.
pub fn leaves_are_formed()
    ensures { LeavesAreFormed }
{}

/// In each file that keeps its page, a leaf that holds entries is one with them.
pub fn leaves_stand()
    ensures { LeavesStand }
{}

/// An internal page that holds the items of children has no fault of form.
pub fn children_are_formed()
    ensures { ChildrenAreFormed }
{}

/// In each file that keeps its page it is one with these items.
pub fn children_stand()
    ensures { ChildrenStand }
{}

/// The first page of a chain that counts two references is the page of before, but that it counts more, and its form stays.
pub fn raised_pages_stand()
    ensures { RaisedPagesStand }
{}

/// The units that are read from a leaf are those that were put on it.
pub fn units_are_read()
    ensures { UnitsAreRead }
{}

/// The list of a btree or a recno is that of the units on its leaves.
pub fn units_are_listed()
    ensures { UnitsAreListed }
{}

/// Units with ascending keys, each of which the database allows, keep the rules of pairs.
pub fn units_keep_rules()
    ensures { UnitsKeepRules }
{}

/// Records that have the length of all have no wrong one.
#[tactic(auto, using(crate::proofs::PlacedLaws::records_keep_length))]
pub fn records_keep_length()
    ensures { RecordsKeepLength }
{}

/// The pairs of units with ascending keys follow each other, and those of a leaf begin with its first unit's key.
pub fn pairs_follow()
    ensures { PairsFollow }
{}

/// The entries of a unit take of their leaf what the unit does.
#[tactic(auto, using(crate::proofs::PlacedCostLemmas::units_cost))]
pub fn units_cost()
    ensures { UnitsCost }
{}

/// A tree that is laid is a branch that is entered by its root.
pub fn laid_trees_are_branches()
    ensures { LaidTreesAreBranches }
{}

/// The leaves of its root are those with the units, in their order.
#[tactic(auto, using(crate::proofs::LaidLemmas::laid_trees_have_leaves))]
pub fn laid_trees_have_leaves()
    ensures { LaidTreesHaveLeaves }
{}

/// They have their kinds and links.
#[tactic(auto, using(crate::proofs::LaidLemmas::laid_trees_are_linked))]
pub fn laid_trees_are_linked()
    ensures { LaidTreesAreLinked }
{}

/// No item of the leaves of a tree that is laid is marked deleted, where no unit is.
pub fn laid_trees_are_live()
    ensures { LaidTreesAreLive }
{}

/// A set that is laid holds the values of its live units, and fits where a datum names it.
pub fn laid_sets_hold_data()
    ensures { LaidSetsHoldData }
{}

/// A tree that is laid and suits metadata is the part of the btree or recno whose root it is.
pub fn laid_trees_are_parts()
    ensures { LaidTreesAreParts }
{}

/// In each later file that keeps its pages and the heads of its keys, a level that was laid over others stands over them.
pub fn levels_stand()
    ensures { LevelsStand }
{}

/// Another level can be laid over it.
pub fn levels_go_on()
    ensures { LevelsGoOn }
{}

/// Its pages have the numbers from the count of those that stood on.
pub fn levels_are_numbered()
    ensures { LevelsAreNumbered }
{}

/// Its pages have no fault of form.
pub fn levels_are_formed()
    ensures { LevelsAreFormed }
{}

/// The pages that stood are as before, but that heads of chains that keys name count two references, and their form stays.
pub fn levels_keep_pages()
    ensures { LevelsKeepPages }
{}

/// The pages with the level are a later file than those that stood.
pub fn levels_are_later()
    ensures { LevelsAreLater }
{}

/// Over pages of which two have room on one, there are fewer pages.
pub fn levels_shrink()
    ensures { LevelsShrink }
{}

/// A finished tree, of one leaf or of several, is laid in each later file; it has all pages since its leaves were begun.
pub fn first_roots_are_laid()
    ensures { FirstRootsAreLaid }
{}

/// Where its units were spread by what they take, it is laid out, and the heads of its chains count their references.
pub fn finished_trees_are_laid_out()
    ensures { FinishedTreesAreLaidOut }
{}

/// The trees of its units' data stand as they did.
pub fn finished_trees_keep_trees()
    ensures { FinishedTreesKeepTrees }
{}

/// The tree of a unit's data is sorted where its root has the type of a sorted set, and else not.
pub fn trees_are_sorted()
    ensures { TreesAreSorted }
{}

/// A tree that was built, and the trees of its units' data, are laid out so in each image that has its pages.
pub fn trees_are_in()
    ensures { TreesAreIn }
{}

/// None of these pages has a fault of form.
pub fn finished_trees_are_formed()
    ensures { FinishedTreesAreFormed }
{}

/// The pages before the leaves were begun stay.
pub fn finished_trees_keep_older_pages()
    ensures { FinishedTreesKeepOlderPages }
{}

/// Filled leaves with levels over them, of which the root stands where the first leaf stood, are a tree that is laid in each later file.
pub fn finished_trees_are_laid()
    ensures { FinishedTreesAreLaid }
{}

/// The pages that stood before such a tree was finished, and are no leaves, are as before, but that heads of chains of keys may
/// count more, and keep their form.
pub fn finished_trees_keep_pages()
    ensures { FinishedTreesKeepPages }
{}

/// A grown tree of live entries is a set of their values, and stands where a datum names its root.
pub fn grown_sets_stand()
    ensures { GrownSetsStand }
{}

/// Where units are spread over leaves by what they take, they are with a unit more that is pushed.
pub fn pushed_units_spread()
    ensures { PushedUnitsSpread }
{}

/// Each unit has room on a leaf.
pub fn units_fit()
    ensures { UnitsFit }
{}

/// The leaves of a finished tree and the levels over them are as many pages as its units say.
pub fn finished_trees_are_counted()
    ensures { FinishedTreesAreCounted }
{}

/// Leaves that are begun are one page.
pub fn begun_leaves_are_counted()
    ensures { BegunLeavesAreCounted }
{}

/// A unit that is pushed adds a leaf, where the last has no room for it, and what it has of its own.
pub fn pushed_units_are_counted()
    ensures { PushedUnitsAreCounted }
{}

/// A finished tree has as many pages as its units say.
pub fn finished_trees_have_size()
    ensures { FinishedTreesHaveSize }
{}
