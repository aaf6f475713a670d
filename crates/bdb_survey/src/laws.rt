//! Laws of rows of pages.
ghost use Rattle.bdb_survey.specs.RowLaw.{NoPageTwiceInARow};

/// Pages that follow each other, each naming the one before it, are all distinct on any bytes. So a walk
/// without a visited mark ends.
#[tactic(auto, using(crate::proofs::StoredRowLemmas::no_page_twice_in_a_row))]
pub fn no_page_twice_in_a_row()
    ensures { NoPageTwiceInARow }
{}
