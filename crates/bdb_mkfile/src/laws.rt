//! What follows from the definitions alone.
ghost use Rattle.bdb_mkfile.specs.Lists.{LoadIntoQueues, LoadIntoTables, QueuesAreAlone, RecordsAreFew};
ghost use Rattle.bdb_mkfile.specs.WrittenTables.{WrittenTablesAreSound};
ghost use Rattle.bdb_mkfile.specs.NamedLaws.{EntriesAreListed, EntriesNameDatabases, EntriesNameMetas, EntriesTakePages, TablesAreSpelled, TablesHaveNames};
ghost use Rattle.bdb_mkfile.specs.NamedLaws.{TreesHaveNames};

/// The pages of a table under its metadata, which is written over page 0, are a sound file with one database, without a name, whose
/// list is that of the table.
pub fn written_tables_are_sound()
    ensures { WrittenTablesAreSound }
{}

/// Where no error holds, each section of a hash loads into a list that a table can be built of.
pub fn load_into_tables()
    ensures { LoadIntoTables }
{}

/// Where no error holds, each section of a queue, whose records have one length and numbers below 2^32 - 1, loads into a list that a
/// queue can be built of.
pub fn load_into_queues()
    ensures { LoadIntoQueues }
{}

/// Where no error holds, each section of a queue, whose records have one length, is the only one and has no name; its record fits a
/// page, and its list ascends.
pub fn queues_are_alone()
    ensures { QueuesAreAlone }
{}

/// Where the pages of a queue have at most 2^30 bytes, the number after that of each record fits its field.
pub fn records_are_few()
    ensures { RecordsAreFew }
{}

/// The metadata of a hash under a name, spelled on its page, is read as it is, and has no row of form.
pub fn tables_are_spelled()
    ensures { TablesAreSpelled }
{}

/// The flag of a name means nothing for the part of a hash.
pub fn tables_have_names()
    ensures { TablesHaveNames }
{}

/// Metadata of a tree under a name says its settings, and breaks no row of flags on a page above page 0.
pub fn trees_have_names()
    ensures { TreesHaveNames }
{}

/// The names of sections with the numbers of their metadata pages are a list that a tree can be built of.
pub fn entries_are_listed()
    ensures { EntriesAreListed }
{}

/// How many pages the tree of that list has doesn't depend on the numbers in it.
pub fn entries_take_pages()
    ensures { EntriesTakePages }
{}

/// The list names the metadata page of each section, and nothing else.
pub fn entries_name_metas()
    ensures { EntriesNameMetas }
{}

/// The databases that the list names are those of the sections.
pub fn entries_name_databases()
    ensures { EntriesNameDatabases }
{}
