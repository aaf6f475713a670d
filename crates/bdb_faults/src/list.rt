ghost use Rattle.std.specs.Prelude.{◌≡◌, ◌∷◌, ◌++◌, ◌↔◌, [], OnErr, OnOk, length, slice_get, true};
ghost use Rattle.std.specs.List.{Contains, dedup};
ghost use Rattle.std.specs.List.Sorted.{IsPermutation, IsSortedBy};
ghost use Rattle.std.specs.Option.{option_map};
ghost use Rattle.std.specs.Ordering.{is_lt};
ghost use Rattle.bdb_faults.specs.Members.{is_before, is_same};
ghost use Rattle.bdb_faults.specs.Notes.{AreOne, Ascends, HasNoted, Notes};
ghost use Rattle.bdb_faults.specs.Refusals.{IsAllOf, all_alike, is_all_memory};
ghost use Rattle.bdb_format.specs.declared.kinds.Fault.{Fault as FaultSeen};
ghost use Rattle.bdb_format.specs.Terms.{fault_seen};

use crate::{AllError, FaultSink, Judge};
use bdb_format::{Named, Row};
use std::alloc::{AllocError, Global};
use std::cmp::Ordering;
use std::marker::Model;

/// A list of what holds at the pages of a file. It takes at most 24 bytes for each member, growth included.
#[derive(Drop)]
pub struct NamedList {
    members: Vec<Named>,
}

impl Model for NamedList {
    ghost use Rattle.std.specs.Prelude.{List, map};
    ghost use Rattle.bdb_format.specs.declared.kinds.Fault.{Fault as FaultSeen};
    ghost use Rattle.bdb_format.specs.Terms.{fault_seen};

    ghost Value = { List FaultSeen };

    ghost view = { λ it. map fault_seen it.members.items };
}

/// By page and then by code.
fn compare(a: &Named, b: &Named) -> Ordering
    ensures { is_lt result ≡ is_before a.now b.now }
{
    let codes = a.row.entry().code.cmp(&b.row.entry().code);
    a.page.cmp(&b.page).then(codes)
}

/// Whether page and code are the same.
fn is_same(a: &Named, b: &Named) -> bool
    ensures { result ≡ is_same a.now b.now }
{
    a.page == b.page && a.row.entry().code == b.row.entry().code
}

/// Puts members into the order of pages and codes, and takes no memory.
fn sort_members(members: &mut Vec<Named>)
    ensures moved { IsPermutation members.old.items members.new.items }
    ensures sorted { IsSortedBy is_before members.new.items }
{
    members.sort_unstable_by(|a, b| compare(a, b));
}

/// Drops each member that has the page and the code of the one before it.
fn drop_repeats(members: &mut Vec<Named>)
    ensures { members.new.items ≡ dedup is_same members.old.items }
{
    members.dedup_by(|a, b| is_same(a, b));
}

impl NamedList {
    /// An empty list. It takes no memory yet.
    pub fn new(alloc: Global) -> NamedList
        ensures { result ≡ [] }
    {
        NamedList {
            members: Vec::new(alloc),
        }
    }

    /// Adds one at the end. An error means that memory ran out.
    pub fn push(&mut self, named: Named) -> Result<(), AllocError>
        ensures ok { OnOk result (self.new ≡ self.old ++ fault_seen named ∷ []) }
        ensures err { OnErr result (self.new ≡ self.old) }
    {
        self.members.push(named)?;
        Ok(())
    }

    /// How many there are.
    pub fn len(&self) -> usize
        ensures { result ≡ length self.now }
    {
        self.members.len()
    }

    /// The one at a place, from 0; `None` exactly where the list ends before.
    pub fn get(&self, i: usize) -> Option<Named>
        ensures { option_map fault_seen result ≡ slice_get self.now i }
    {
        let named = self.members.get(i)?;
        Some(*named)
    }

    /// Puts them into the order of pages and codes and drops repeats. It takes no memory. Of two that have the same page and
    /// code and differ otherwise one is dropped.
    pub fn settle(&mut self)
        ensures same { AreOne self.old → (fault : FaultSeen) → Contains self.new fault ↔ Contains self.old fault }
        ensures order { Ascends self.new }
    {
        sort_members(&mut self.members);
        drop_repeats(&mut self.members);
    }
}

impl FaultSink for NamedList {
    ghost has_noted = { HasNoted };

    ghost takes_memory = { true };

    fn note(&mut self, row: Row, page: u32) -> Result<(), AllocError> {
        self.push(row.at(page))
    }

    fn is_empty(&self) -> bool {
        self.members.is_empty()
    }
}

impl Judge for NamedList {
    type Refusal = AllError;

    ghost refuses = { IsAllOf };

    ghost wants_memory = { is_all_memory };

    fn begin(alloc: Global) -> NamedList {
        NamedList::new(alloc)
    }

    fn memory() -> AllError {
        AllError::Memory
    }

    fn judge(self) -> Result<(), AllError> {
        let mut found = self;
        if found.is_empty() {
            return Ok(());
        }
        found.settle();
        Err(AllError::Faults(found))
    }

    ghost alike = { all_alike };
}
