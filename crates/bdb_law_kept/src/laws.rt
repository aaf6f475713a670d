//! What follows from the definitions alone.
ghost use Rattle.bdb_law_kept.specs.Dumps.{DumpsAreKept, LoadedDumpsAreTheSame};
ghost use Rattle.bdb_law_kept.specs.Kept.{AreInOrderOfNames, CanAllBeWritten, CanAllStandTogether, ListsAreKept, LoadsWithoutErrors, QueuesStandAlone};

/// Pairs of a text that are the list of a database of a sound file are loaded as they are, under settings that load alike.
pub fn keeps_lists()
    ensures { ListsAreKept }
{}

/// No error of loading holds for them.
pub fn loads_without_errors()
    ensures { LoadsWithoutErrors }
{}

/// A queue of a sound file has no name, and is its one database.
pub fn queues_stand_alone()
    ensures { QueuesStandAlone }
{}

/// The databases of a sound file can stand together in a text.
pub fn all_together()
    ensures { CanAllStandTogether }
{}

/// Those that a master names are in the order of their names.
pub fn in_order_of_names()
    ensures { AreInOrderOfNames }
{}

/// The databases of a sound file of bytes can be written, but a queue of records without bytes.
pub fn all_can_be_written()
    ensures { CanAllBeWritten }
{}

/// The dump of a sound file of bytes is read as sections that load into its lists without an error, under settings that show in the same header
/// lines; the file has a database, and no queue of records without bytes.
pub fn dumps_are_kept()
    ensures { DumpsAreKept }
{}

/// Databases of another file that are loaded of such sections are dumped as the same text.
pub fn loaded_dumps_are_the_same()
    ensures { LoadedDumpsAreTheSame }
{}
