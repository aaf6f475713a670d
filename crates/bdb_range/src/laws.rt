//! Laws of ranges over the definitions alone.
ghost use Rattle.bdb_range.specs.Spans.{DescentsSplit, ListsAreFiltered, SpansGiveRanges, WalksAreShort, WalksCover};

/// A descent splits the leaves of a tree: the keys before its leaf are less than the sought one, those after it aren't.
pub fn descents_split()
    ensures { DescentsSplit }
{}

/// The pairs of a list in a range are those that the pairs of the tree in this range list.
pub fn lists_are_filtered()
    ensures { ListsAreFiltered }
{}

/// Where leaves cover a range, its pairs are theirs.
pub fn spans_give_ranges()
    ensures { SpansGiveRanges }
{}

/// The leaf of a descent and those over which a walk goes on from it cover the range.
pub fn walks_cover()
    ensures { WalksCover }
{}

/// They are few.
pub fn walks_are_short()
    ensures { WalksAreShort }
{}
