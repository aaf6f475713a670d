//! In a sound file the home of a page is the metadata to which its owners lead.
ghost use Rattle.bdb_law_homes.specs.Led.{BucketsAreOfTables, HomesAreOwners, LeavesAreOfBtrees, LeavesAreUnder, NextIsLed, OwnersLeadToOne};
ghost use Rattle.bdb_law_homes.specs.Led.{SoundFilesAreOwned, StartsAreCounts};
ghost use Rattle.bdb_law_homes.specs.Owned.{HashPagesAreOfOne, HashPagesHaveHomes, LeavesAreOfOne, PairLeavesHaveHomes};
ghost use Rattle.bdb_law_homes.specs.Salvaged.{SalvagedHomesAreThose};

/// The home of a page by claims is the metadata to which its first owners lead.
pub fn homes_are_owners()
    ensures { HomesAreOwners }
{}

/// They lead to one alone.
pub fn owners_lead_to_one()
    ensures { OwnersLeadToOne }
{}

/// The leaves of a tree have the metadata that names its root as their home.
pub fn leaves_are_under()
    ensures { LeavesAreUnder }
{}

/// A file in which no row of the first five stages holds is one whose pages are owned.
pub fn sound_files_are_owned()
    ensures { SoundFilesAreOwned }
{}

/// The next page of a page of a bucket has that one's home.
pub fn next_is_led()
    ensures { NextIsLed }
{}

/// The pages of the buckets of a table have that table as their home.
pub fn buckets_are_of_tables()
    ensures { BucketsAreOfTables }
{}

/// A leaf of a recno has it as its home, behind as many records as the leaves before it have entries.
pub fn starts_are_counts()
    ensures { StartsAreCounts }
{}

/// A leaf of a btree has it as its home, behind no record.
pub fn leaves_are_of_btrees()
    ensures { LeavesAreOfBtrees }
{}

/// Each leaf is one of a tree that metadata names, or of a set off the page.
pub fn leaves_are_of_one()
    ensures { LeavesAreOfOne }
{}

/// Each hash page that isn't empty by itself is one of a bucket of a table.
pub fn hash_pages_are_of_one()
    ensures { HashPagesAreOfOne }
{}

/// The homes of the file that salvage reads of a sound image are those of the file.
pub fn salvaged_homes_are_those()
    ensures { SalvagedHomesAreThose }
{}

/// Each leaf with pairs is one of a btree, which is its home.
pub fn pair_leaves_have_homes()
    ensures { PairLeavesHaveHomes }
{}

/// Each hash page that isn't empty by itself has the table as its home in whose bucket it stands.
pub fn hash_pages_have_homes()
    ensures { HashPagesHaveHomes }
{}
