ghost use Rattle.std.specs.Prelude.{◌≡◌, ◌≤◌, ◌++◌, ◌∷◌, ◌↔◌, [], IsErr, OnOk, OnErr};
ghost use Rattle.bdb_format.specs.Terms.{HasCause};
ghost use Rattle.bdb_io.specs.Memory.{IsToFail, one_more};

use crate::Failed;
use std::alloc::{AllocError, Global};
use std::marker::Model;

/// How many calls there were, which of them fail, and how many failed.
#[derive(Drop)]
pub struct Calls {
    made: u64,
    failing: Vec<u64>,
    faults: u64,
}

impl Model for Calls {
    ghost use Rattle.bdb_format.specs.Terms.{HasCause};
    ghost use Rattle.bdb_io.specs.Memory.{CallCount};

    ghost Value = { CallCount };

    ghost view = { λ c. record { calls = c.made; failing = c.failing.items; faults = c.faults } };
}

impl Calls {
    pub fn new(alloc: Global) -> Calls
        ensures { result ≡ record { calls = 0; failing = []; faults = 0 } }
    {
        Calls {
            made: 0,
            failing: Vec::new(alloc),
            faults: 0,
        }
    }

    /// The call with this number, counted from 1, will fail.
    pub fn fail_at(&mut self, call: u64) -> Result<(), AllocError>
        ensures ok { OnOk result (self.new ≡ record self.old { failing = self.old.failing ++ call ∷ [] }) }
        ensures err { OnErr result (self.new ≡ self.old) }
    {
        self.failing.push(call)?;
        Ok(())
    }

    /// Counts a call, and fails where it is one of those that fail.
    pub fn begin(&mut self) -> Result<(), Failed>
        ensures cause { HasCause self.old.faults self.new.faults result }
        ensures fails { IsErr result ↔ IsToFail self.old.calls self.old.failing }
        ensures ok { OnOk result (self.new ≡ record self.old { calls = one_more self.old.calls }) }
        ensures err { OnErr result (self.new ≡ record self.old { calls = one_more self.old.calls; faults = one_more self.old.faults }) }
    {
        self.made = self.made.saturating_add(1);
        if self.failing.contains(&self.made) {
            return Err(self.fail());
        }
        Ok(())
    }

    /// Counts a failure.
    pub fn fail(&mut self) -> Failed
        ensures later { self.old.faults ≤ self.new.faults }
        ensures counted { self.new ≡ record self.old { faults = one_more self.old.faults } }
    {
        self.faults = self.faults.saturating_add(1);
        Failed
    }
}
