//! The law that salvage of a sound file loses nothing.
ghost use Rattle.bdb_salvage.specs.KeepsAll.{SalvageKeepsAll};

/// In a sound btree or hash file `salvage` without a guess takes the file's own order and page size, and nothing is lost or added: for any test of a
/// key with its data as many stored pairs pass it as pairs of the lists of all btree and hash databases (the list of a master among them), and for
/// any test of a value as many loose records as records of the lists of all recno databases.
pub fn salvage_keeps_all()
    ensures { SalvageKeepsAll }
{}
