//! The laws of sums over the pages of a file, for every weight: a weight of 1 where a test holds counts.
ghost use Rattle.bdb_law_sums.specs.Counting.{PartsAreEntrances};
ghost use Rattle.bdb_law_sums.specs.Databases.{HashPagesAreOfTables, LeavesAreOfDatabases, MetadataAreDatabases, NoLeafOfBoth};
ghost use Rattle.bdb_law_sums.specs.Databases.{PairsAreOfDatabases, RecordsAreOfDatabases, SetsAreOfPairs};
ghost use Rattle.bdb_law_sums.specs.HashSums.{HashPagesAreOfBuckets, SortedPairsWeighTheSame};
ghost use Rattle.bdb_law_sums.specs.TreeSums.{EachLeafIsInOneTree, LeavesAreOfTrees};

/// Where each page whose whole isn't 0 is named once, the own parts of all pages are the wholes of all entrances.
#[tactic(auto, using(crate::proofs::CountLemmas::parts_are_entrances))]
pub fn parts_are_entrances()
    ensures { PartsAreEntrances }
{}

/// All leaves weigh what those of all trees do, of databases and of sets off the page.
#[tactic(auto, using(crate::proofs::TreeLemmas::leaves_are_of_trees))]
pub fn leaves_are_of_trees()
    ensures { LeavesAreOfTrees }
{}

/// A leaf stands in one tree, and once there.
#[tactic(auto, using(crate::proofs::OneTreeLemmas::each_leaf_is_in_one_tree))]
pub fn each_leaf_is_in_one_tree()
    ensures { EachLeafIsInOneTree }
{}

/// A leaf of a set off the page stands in no database.
#[tactic(auto, using(crate::proofs::RecordLemmas::no_leaf_of_both))]
pub fn no_leaf_of_both()
    ensures { NoLeafOfBoth }
{}

/// All hash pages that weigh something weigh what those of all buckets do.
#[tactic(auto, using(crate::proofs::HashLemmas::hash_pages_are_of_buckets))]
pub fn hash_pages_are_of_buckets()
    ensures { HashPagesAreOfBuckets }
{}

/// Pairs in the order of their keys weigh what they did.
#[tactic(auto, using(crate::proofs::ListLemmas::by_key_sum))]
pub fn sorted_pairs_weigh_the_same()
    ensures { SortedPairsWeighTheSame }
{}

/// All metadata of a file is that of its master and of its databases, each once.
#[tactic(auto, using(crate::proofs::MetaLemmas::metadata_are_databases))]
pub fn metadata_are_databases()
    ensures { MetadataAreDatabases }
{}

/// All leaves that aren't of sets weigh what those below metadata do.
#[tactic(auto, using(crate::proofs::DatabaseLemmas::leaves_are_of_databases))]
pub fn leaves_are_of_databases()
    ensures { LeavesAreOfDatabases }
{}

/// All hash pages weigh what the buckets of metadata do.
#[tactic(auto, using(crate::proofs::DatabaseLemmas::hash_pages_are_of_tables))]
pub fn hash_pages_are_of_tables()
    ensures { HashPagesAreOfTables }
{}

/// A set off the page is named by the data item of a pair.
#[tactic(auto, using(crate::proofs::SetLemmas::sets_are_of_pairs))]
pub fn sets_are_of_pairs()
    ensures { SetsAreOfPairs }
{}

/// The pairs of all pages weigh what the keys of bytes in all lists do.
#[tactic(auto, using(crate::proofs::PairLemmas::pairs_are_of_databases))]
pub fn pairs_are_of_databases()
    ensures { PairsAreOfDatabases }
{}

/// The records of all pages that stand in no set off the page weigh what the numbered records of all lists do.
#[tactic(auto, using(crate::proofs::RecordLemmas::records_are_of_databases))]
pub fn records_are_of_databases()
    ensures { RecordsAreOfDatabases }
{}
