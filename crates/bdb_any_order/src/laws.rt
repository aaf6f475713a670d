//! Laws of the rows that count in any order.
ghost use Rattle.bdb_any_order.specs.Laws.{AllAreOfAll, MasterCounts, SameWithoutOrder, SoundInAnyOrder};

/// Where all rows count, the faults are those of the file, and so is the verdict.
#[tactic(auto, using(crate::proofs::RowsLemmas::all_are_of_all))]
pub fn all_are_of_all()
    ensures { AllAreOfAll }
{}

/// A sound file has no fault that counts in any order.
#[tactic(auto, using(crate::proofs::RowsLemmas::sound_in_any_order))]
pub fn sound_in_any_order()
    ensures { SoundInAnyOrder }
{}

/// In a file on which no row of order holds the same faults count in any order.
#[tactic(auto, using(crate::proofs::RowsLemmas::same_without_order))]
pub fn same_without_order()
    ensures { SameWithoutOrder }
{}

/// All faults of a master count in any order.
pub fn master_counts()
    ensures { MasterCounts }
{}
