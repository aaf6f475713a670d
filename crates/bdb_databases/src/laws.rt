//! Laws of the databases of a file without faults.
ghost use Rattle.bdb_databases.specs.Laws.{NamesAscend, NamesAscendInAnyOrder};

/// The names that a master gives ascend strictly in byte order, as its databases stand.
#[tactic(auto, using(crate::proofs::NameOrderLemmas::names_ascend))]
pub fn names_ascend()
    ensures { NamesAscend }
{}

/// So do those of a file on which no row counts in any order.
#[tactic(auto, using(crate::proofs::NameOrderLemmas::names_ascend_in_any_order))]
pub fn names_ascend_in_any_order()
    ensures { NamesAscendInAnyOrder }
{}
