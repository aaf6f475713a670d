ghost use Rattle.std.specs.Prelude.{◌≡◌};
ghost use Rattle.bdb_format.specs.Verdict.{as_verdict};
ghost use Rattle.bdb_format.specs.Cases.{fault_seen, judgement_seen};

use crate::{Fault, Row, Verdict};

/// What holds at a page of a file: a row of the fault table.
#[derive(Clone, Copy)]
pub struct Named {
    pub row: Row,
    pub page: u32,
}

impl Named {
    /// The row by its stage and code.
    pub fn fault(self) -> Fault
        ensures { result ≡ fault_seen self }
    {
        Fault {
            stage: self.row.stage(),
            page: self.page,
            code: self.row.entry().code,
        }
    }

    /// The verdict on a file whose first fault it is.
    pub fn verdict(self) -> Verdict
        ensures { result ≡ as_verdict (judgement_seen self) }
    {
        match self.row.entry().case {
            Some(name) => Verdict::Unsupported(name, self.page),
            None => Verdict::Fault(self.fault()),
        }
    }
}
