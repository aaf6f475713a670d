//! What follows from the definitions alone.
ghost use Rattle.bdb_law_again.specs.Again.{ApartLoadsAgain, BuiltIsTheFile, BuiltQueueIsTheFile, QueueLoadsAgain, RepairedIsTheFile, RepairedQueueIsTheFile, SectionsAreGiven};

/// The sections that `repair --apart` builds are those of what is given of each database.
pub fn sections_are_given()
    ensures { SectionsAreGiven }
{}

/// An image that is built of those of a sound btree or hash file has its databases, with their names, lists and settings, and its dump.
pub fn built_is_the_file()
    ensures { BuiltIsTheFile }
{}

/// So it is with the image that `repair_apart` answers where no guess is given.
pub fn repaired_is_the_file()
    ensures { RepairedIsTheFile }
{}

/// The text of what is given of each database of such a file, where it has one, is accepted, and each image that is built of it is that file again.
pub fn apart_loads_again()
    ensures { ApartLoadsAgain }
{}

/// An image that is built of what is given of a sound queue whose records have bytes is that queue again.
pub fn built_queue_is_the_file()
    ensures { BuiltQueueIsTheFile }
{}

/// So it is with the image that `repair_apart` answers where no guess is given.
pub fn repaired_queue_is_the_file()
    ensures { RepairedQueueIsTheFile }
{}

/// And its text is accepted, and each image that is built of it is that queue again.
pub fn queue_loads_again()
    ensures { QueueLoadsAgain }
{}
