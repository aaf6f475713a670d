ghost use Rattle.std.specs.Prelude.{◌≡◌, ◌==◌, ◌∷◌, [], Bool, IsTrue, List, OnErr, OnOk, length};
ghost use Rattle.bdb_faults.specs.Notes.{Notes};
ghost use Rattle.bdb_format.specs.declared.kinds.Fault.{Fault as FaultSeen};
ghost use Rattle.bdb_format.specs.Terms.{fault_at};

use bdb_format::Row;
use std::alloc::AllocError;

/// Where rows of one stage are noted at pages, in any order and repeats allowed.
pub trait FaultSink {
    /// These faults were noted, in this order, and no others.
    ghost has_noted: { Self → List FaultSeen → Type 0 };

    /// Whether noting takes memory, so that it may be refused.
    ghost takes_memory: { Bool };

    /// Notes a row at one more page. An error means that memory ran out; what was noted has no meaning then.
    fn note(&mut self, row: Row, page: u32) -> Result<(), AllocError>
        ensures noted { OnOk result (Notes (has_noted self.old) (has_noted self.new) (fault_at row page ∷ [])) }
        ensures refused { OnErr result (IsTrue takes_memory) };

    /// Whether nothing was noted.
    fn is_empty(&self) -> bool
        ensures { (faults : List FaultSeen) → has_noted self.now faults → result ≡ (length faults == 0) };
}
