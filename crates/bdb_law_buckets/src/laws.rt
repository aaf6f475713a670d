//! The laws of tables.
ghost use Rattle.bdb_law_buckets.specs.Tables.{StandingTablesAreBuilt, TablesAreParts};

/// A table whose buckets have the keys that are theirs is the part of the database with its metadata.
pub fn tables_are_parts()
    ensures { TablesAreParts }
{}

/// Each page of the buckets of a table that stands has type 2, which says that its keys are in no order; and the root of a tree of data says how
/// many there are.
pub fn tables_are_built()
    ensures { StandingTablesAreBuilt }
{}
