//! Laws that join parts of a file under their metadata pages.
ghost use Rattle.bdb_law_join.specs.Alone.{JoinsAlone};
ghost use Rattle.bdb_law_join.specs.Filed.{BtreesAreSpelled, FiledPartsAreJoined};
ghost use Rattle.bdb_law_join.specs.Joining.{JoinsUnderMaster};
ghost use Rattle.bdb_law_join.specs.Masters.{JoinsAll};
ghost use Rattle.bdb_law_join.specs.Queues.{QueuesAreSound};
ghost use Rattle.bdb_law_join.specs.Written.{ImagesAreRead, WrittenPagesAreRead, WrittenTreesAreSound};

/// One part under page 0, which is no master, makes a sound file, whose one database has the list of the part.
pub fn joins_alone()
    ensures { JoinsAlone }
{}

/// Parts under metadata pages of their own make a sound file with the lists of the parts, where the rows of the master hold nowhere.
pub fn joins_under_master()
    ensures { JoinsUnderMaster }
{}

/// The bytes of all pages are read back as the file of these pages, where page 0 says so and is a btree's.
pub fn images_are_read()
    ensures { ImagesAreRead }
{}

/// Whole pages with btree metadata written over page 0 have no row of stage 1, and are read back as the file of these pages.
pub fn written_pages_are_read()
    ensures { WrittenPagesAreRead }
{}

/// A tree on the pages above page 0, which is written over with btree metadata that isn't a master's, makes a sound file, whose one database has
/// the list of the tree.
pub fn written_trees_are_sound()
    ensures { WrittenTreesAreSound }
{}

/// A queue for which no row of stages 1 and 2 holds is sound, and has one database.
pub fn queues_are_sound()
    ensures { QueuesAreSound }
{}

/// Parts under the metadata pages that a master's list names make a sound file, whose databases are those of the list.
pub fn joins_all()
    ensures { JoinsAll }
{}

/// Btree metadata that is spelled on its page is read as it is, and has no row of form.
pub fn btrees_are_spelled()
    ensures { BtreesAreSpelled }
{}

/// Parts whose metadata is written on pages of their own, page 0 among them, which has that of a btree, are an image with form of joined
/// parts.
pub fn filed_parts_are_joined()
    ensures { FiledPartsAreJoined }
{}
