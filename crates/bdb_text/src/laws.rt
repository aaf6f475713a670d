//! What follows from the definitions alone.
ghost use Rattle.bdb_text.specs.Laws.{ReadsOrFaults, SpelledIsRead};
ghost use Rattle.bdb_text.specs.WrittenLaw.{DumpIsRead, WrittenAreRead, WrittenIsRead};

/// Bytes that were spelled, printed or by digits, are read back.
pub fn spelled_is_read()
    ensures { SpelledIsRead }
{}

/// Each text is read as one list of sections, or it has a fault.
pub fn reads_or_faults()
    ensures { ReadsOrFaults }
{}

/// The text of a section, in either spelling, is read as that section alone.
pub fn written_is_read()
    ensures { WrittenIsRead }
{}

/// The texts of several sections with names of their own, one after another, are read as these sections alone.
pub fn written_are_read()
    ensures { WrittenAreRead }
{}

/// The dump text of databases that have names of their own, or of one database, is read as these databases.
pub fn dump_is_read()
    ensures { DumpIsRead }
{}
