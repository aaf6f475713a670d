//! What follows from the definitions alone.
ghost use Rattle.bdb_law_apart.specs.Left.{NoPairIsLeft, NoRecordIsLeft, NothingIsLeftOfQueues};
ghost use Rattle.bdb_law_apart.specs.Lists.{GivenListsLoad};
ghost use Rattle.bdb_law_apart.specs.Named.{DatabasesAreFound};
ghost use Rattle.bdb_law_apart.specs.Sections.{GivenSectionsAreKept};

/// The databases that are found in a sound btree or hash file are those that it has, in the same order.
pub fn databases_are_found()
    ensures { DatabasesAreFound }
{}

/// No pair of such a file is left over.
pub fn no_pair_is_left()
    ensures { NoPairIsLeft }
{}

/// Nor is a record.
pub fn no_record_is_left()
    ensures { NoRecordIsLeft }
{}

/// Of a sound queue nothing is left either.
pub fn nothing_is_left_of_queues()
    ensures { NothingIsLeftOfQueues }
{}

/// What is given of each database of such a file is loaded into its list.
pub fn given_lists_load()
    ensures { GivenListsLoad }
{}

/// Sections of what is given of all of them are kept as the databases of the file: so what is loaded of them is dumped as the file is.
pub fn given_sections_are_kept()
    ensures { GivenSectionsAreKept }
{}
