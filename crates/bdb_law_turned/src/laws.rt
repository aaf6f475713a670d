//! Laws of pages and files whose numbers are byte-swapped.
ghost use Rattle.bdb_law_turned.specs.Laws.{FilesFlip, FlippedFilesKeepDatabases, PagesTurnRound};

/// A page without a fault of form whose items don't overlap is the same page in the other order, where its numbers are
/// byte-swapped. It has no fault of form there, and byte-swapped again it has its first bytes.
pub fn pages_turn_round()
    ensures { PagesTurnRound }
{}

/// A sound file, none of whose pages overlaps, is the same file in the other order: sound, and in its first order again the
/// same bytes.
pub fn files_flip()
    ensures { FilesFlip }
{}

/// In the other order each page of such a file has the references and the role that it had, and the databases have the same
/// names, kinds, lists and settings, but the order.
pub fn flipped_files_keep_databases()
    ensures { FlippedFilesKeepDatabases }
{}
