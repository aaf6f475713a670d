//! What follows from the definitions alone.
ghost use Rattle.bdb_settle.specs.ListLaw.{LoadIntoLists};

/// Where no error holds, each section of a btree or recno loads into a list that a tree can be built of, if keys and data are short enough for
/// their fields: pairs stand in the order of the settings.
pub fn load_into_lists()
    ensures { LoadIntoLists }
{}
