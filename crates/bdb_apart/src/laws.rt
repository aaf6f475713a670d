//! Each pair and each loose record that is salvaged stands in just one part.
ghost use Rattle.bdb_apart.specs.Laws.{EachPairIsInOnePart, EachRecordIsInOnePart, NamesAscend};

/// Each pair stands in the section of just one database, or in the rest, or it's an entry that names a database.
pub fn each_pair_is_in_one_part()
    ensures { EachPairIsInOnePart }
{}

/// Each loose record of an image that isn't a queue stands in the section of just one database, or in the rest.
pub fn each_record_is_in_one_part()
    ensures { EachRecordIsInOnePart }
{}

/// The names of the databases that are found ascend.
pub fn names_ascend()
    ensures { NamesAscend }
{}
