//! What follows from the definitions alone.
ghost use Rattle.bdb_repair.specs.ApartRoom.{DatabasesTakeRoom};
ghost use Rattle.bdb_repair.specs.Laws.{ManyPairsAreTooLarge, PairsTakeRoom, PartsAreLoadable, PartsHaveNoErrors};
ghost use Rattle.bdb_repair.specs.Reads.{LinesHaveNoPart, SalvageIsRead};

/// No load error holds for what is salvaged.
pub fn parts_have_no_errors()
    ensures { PartsHaveNoErrors }
{}

/// What is salvaged can be loaded if the page size is legal.
pub fn parts_are_loadable()
    ensures { PartsAreLoadable }
{}

/// If no datum may replace another, the file has at least the bytes of all data that it keeps, and four more for each.
pub fn pairs_take_room()
    ensures { PairsTakeRoom }
{}

/// Without a shape, more than `max / 4` stored pairs make a file of more than `max` bytes.
pub fn many_pairs_are_too_large()
    ensures { ManyPairsAreTooLarge }
{}

/// The file of the databases that are found has at least the bytes of the data of those btrees and hashes in which no datum may replace another, and
/// four more for each datum.
pub fn databases_take_room()
    ensures { DatabasesTakeRoom }
{}

/// The text that `salvage` writes reads as the sections that are loaded, except for the numbers of their lines, and no load error holds for them.
pub fn salvage_is_read()
    ensures { SalvageIsRead }
{}

/// The numbers of lines have no part in what is built: so, by the law above, repairing an image without a shape gives what loading the text of
/// `salvage` gives.
pub fn lines_have_no_part()
    ensures { LinesHaveNoPart }
{}
