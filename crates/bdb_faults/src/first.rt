ghost use Rattle.std.specs.Prelude.{◌≡◌, ◌∷◌, [], IfErr, List, MatchBool, None, OnOk, Some, false};
ghost use Rattle.std.specs.Option.{option_map};
ghost use Rattle.bdb_faults.specs.Notes.{Ascends, HasJust, IsFirst, Notes};
ghost use Rattle.bdb_faults.specs.Refusals.{IsFirstRefusal, first_alike, is_first_memory};
ghost use Rattle.bdb_format.specs.Terms.{ComesFirst, IsFirstOf, fault_seen};
ghost use Rattle.bdb_format.specs.declared.kinds.Fault.{Fault as FaultSeen};

use crate::{FaultSink, FirstError, Judge, check_error, judged};
use bdb_format::{CheckError, Named, Row};
use std::alloc::{AllocError, Global};
use std::marker::Model;

/// A sink that keeps the first of what is noted by page and then by code, and takes no memory.
#[derive(Drop)]
pub struct First {
    named: Option<Named>,
}

impl Model for First {
    ghost use Rattle.std.specs.Prelude.{Option};
    ghost use Rattle.std.specs.Option.{option_map};
    ghost use Rattle.bdb_format.specs.declared.kinds.Fault.{Fault as FaultSeen};
    ghost use Rattle.bdb_format.specs.Terms.{fault_seen};

    ghost Value = { Option FaultSeen };

    ghost view = { λ f. option_map fault_seen f.named };
}

/// Whether a row at a page comes no later than another, by page and then by code.
fn comes_first(a: Named, b: Named) -> bool
    ensures { MatchBool result (ComesFirst (fault_seen a) (fault_seen b)) (ComesFirst (fault_seen b) (fault_seen a)) }
{
    a.page < b.page || (a.page == b.page && a.row.entry().code <= b.row.entry().code)
}

/// The first of what was noted and of one more.
#[tactic(auto, using(crate::proofs::FirstLemmas::first_alone))]
fn earlier(first: Option<Named>, named: Named) -> Named
    ensures { Notes (IsFirst (option_map fault_seen first)) (IsFirst (Some (fault_seen result))) (fault_seen named ∷ []) }
{
    match first {
        None => named,
        Some(first) if comes_first(first, named) => first,
        Some(_) => named,
    }
}

impl First {
    /// Nothing is noted.
    pub fn new() -> First
        ensures { result ≡ None }
    {
        First { named: None }
    }
}

impl FaultSink for First {
    ghost has_noted = { IsFirst };

    ghost takes_memory = { false };

    fn note(&mut self, row: Row, page: u32) -> Result<(), AllocError> {
        self.named = Some(earlier(self.named, row.at(page)));
        Ok(())
    }

    #[tactic(auto, using(crate::proofs::FirstLemmas::none_noted))]
    fn is_empty(&self) -> bool {
        self.named.is_none()
    }
}

impl Judge for First {
    type Refusal = FirstError;

    ghost refuses = { IsFirstRefusal };

    ghost wants_memory = { is_first_memory };

    fn begin(_alloc: Global) -> First {
        First::new()
    }

    fn memory() -> FirstError {
        FirstError::Memory
    }

    fn judge(self) -> Result<(), FirstError> {
        match self.named {
            None => Ok(()),
            Some(named) => Err(FirstError::Fault(named)),
        }
    }

    ghost alike = { first_alike };
}

/// The answer of a check that noted its rows in a sink that was empty: `Ok`, or the first row that it noted;
/// `Memory` means that memory ran out.
pub fn checked(first: First, answer: Result<(), AllocError>) -> Result<(), CheckError>
    ensures accepted { (faults : List FaultSeen) → Ascends faults → OnOk answer (HasJust (IsFirst first) faults) → OnOk result (faults ≡ []) }
    ensures refused { (faults : List FaultSeen) → Ascends faults → OnOk answer (HasJust (IsFirst first) faults) → IfErr result (IsFirstOf faults) }
{
    judged(first, answer).map_err(check_error)
}
