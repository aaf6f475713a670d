ghost use Rattle.std.specs.Prelude.{◌≡◌, [], Bool, IfErr, IfOk, IsErr, List, Ok, OnOk, false, true};
ghost use Rattle.bdb_faults.specs.Notes.{Ascends, HasJust};
ghost use Rattle.bdb_format.specs.declared.kinds.Fault.{Fault as FaultSeen};

use crate::FaultSink;
use std::alloc::{AllocError, Global};

/// A sink that refuses what it judges by what was noted in it.
pub trait Judge: FaultSink {
    /// Why it refuses: what was noted, or lack of memory.
    type Refusal;

    /// Whether it refuses so where these faults hold.
    ghost refuses: { List FaultSeen → Self.Refusal → Type 0 };

    /// Whether it refuses for lack of memory.
    ghost wants_memory: { Self.Refusal → Bool };

    /// Nothing is noted.
    fn begin(alloc: Global) -> Self
        ensures { Self.has_noted result [] };

    /// The refusal for lack of memory.
    fn memory() -> Self::Refusal
        ensures refused { (faults : List FaultSeen) → refuses faults result }
        ensures want { wants_memory result ≡ true };

    /// Refuses with what was noted, where anything was.
    fn judge(self) -> Result<(), Self::Refusal>
        ensures accepted { (faults : List FaultSeen) → Ascends faults → HasJust (Self.has_noted self) faults → OnOk result (faults ≡ []) }
        ensures refused { (faults : List FaultSeen) → Ascends faults → HasJust (Self.has_noted self) faults → IfErr result (refuses faults) }
        ensures reason { IfErr result (λ refusal. wants_memory refusal ≡ false) };

    /// It refuses alike where the same faults hold.
    ghost alike: { (xs ys : List FaultSeen) (refusal : Self.Refusal) → ((xs ≡ [] → ⊥) → ys ≡ xs) → refuses xs refusal → refuses ys refusal };
}

/// What a check answered, if it noted nothing in a sink that was empty. Else a refusal: what the judge makes
/// of what was noted, or that memory ran out.
pub fn judged<J: Judge + Drop, T: Drop>(
    found: J,
    answer: Result<T, AllocError>,
) -> Result<T, J::Refusal>
    ensures value { IfOk result (λ value. answer ≡ Ok value) }
    ensures accepted { (faults : List FaultSeen) → Ascends faults → OnOk answer (HasJust (J.has_noted found) faults) → OnOk result (faults ≡ []) }
    ensures refused { (faults : List FaultSeen) → Ascends faults → OnOk answer (HasJust (J.has_noted found) faults)
        → IfErr result (J.refuses faults) }
    ensures want { IfErr result (λ refusal. J.wants_memory refusal ≡ true → IsErr answer) }
{
    let Ok(value) = answer else {
        return Err(J::memory());
    };
    match found.judge() {
        Ok(()) => Ok(value),
        Err(refusal) => Err(refusal),
    }
}
