//! What follows from the definitions alone.
ghost use Rattle.bdb_onto.specs.of_mkfile.of_law_join.Alone.{JoinsAlone};
ghost use Rattle.bdb_onto.specs.of_mkfile.of_law_join.Masters.{JoinsAll};
ghost use Rattle.bdb_onto.specs.of_mkfile.of_law_join.Queues.{QueuesAreSound};
ghost use Rattle.bdb_load.specs.Again.{DumpsLoadToThemselves};
ghost use Rattle.bdb_onto.specs.of_mkfile.Loading.{ReadSectionsAreLoadable};

/// The sections that a text is read as are such that `load` takes them.
pub fn read_sections_are_loadable()
    ensures { ReadSectionsAreLoadable }
{}

/// One part under page 0, which is no master, makes a sound file, whose one database has the list of the part.
pub fn joins_alone()
    ensures { JoinsAlone }
{}

/// A queue for which no row of stages 1 and 2 holds is sound, and has one database.
pub fn queues_are_sound()
    ensures { QueuesAreSound }
{}

/// Parts under the metadata pages that a master's list names make a sound file, whose databases are those of the list.
pub fn joins_all()
    ensures { JoinsAll }
{}

/// The dump of a sound file, in either spelling, is accepted, and each image that is built of it is dumped as the same text. Left out are a
/// file without a database, and queues of records without bytes.
pub fn dumps_load_to_themselves()
    ensures { DumpsLoadToThemselves }
{}
