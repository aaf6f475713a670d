//! What salvage reads and finds of a sound file.
ghost use Rattle.bdb_law_whole.specs.Kept.{SoundFilesAreKept};
ghost use Rattle.bdb_law_whole.specs.Whole.{SalvagedPagesAreThose, SetsAreWhole, StoredPairsAreListed};

/// Up to the last page, salvage reads the pages of a sound file.
#[tactic(auto, using(crate::proofs::PageLemmas::same_page))]
pub fn salvaged_pages_are_those()
    ensures { SalvagedPagesAreThose }
{}

/// Each set off the page is whole, and its leaves are those below its root.
#[tactic(auto, using(crate::proofs::SetLemmas::whole_set_is))]
pub fn sets_are_whole()
    ensures { SetsAreWhole }
{}

/// The pairs that salvage finds on a page are those that the page gives to the list of its database.
#[tactic(auto, using(crate::proofs::PairLemmas::stored_is))]
pub fn stored_pairs_are_listed()
    ensures { StoredPairsAreListed }
{}

/// As many stored pairs pass a test as pairs of the lists of all databases, whatever the test, and as many loose records
/// as numbered records: so each pair and each record is kept as often as it's listed.
#[tactic(auto, using(crate::proofs::KeptLemmas::sound_files_are_kept))]
pub fn sound_files_are_kept()
    ensures { SoundFilesAreKept }
{}
