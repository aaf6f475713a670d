ghost use Rattle.std.specs.Prelude.{◌≡◌, [], IfErr, OnOk};
ghost use Rattle.bdb_tool_lines.specs.Passing.{Passes};
ghost use Rattle.bdb_tool_lines.specs.declared.cut.Cut.TheVariants.{WriteFault};

use crate::Cut;
use crate::room::Room;
use bdb_io::{Sink, put_all};

/// Texts on their way to a sink: what was added is written to it, or waits. No memory is taken.
#[derive(Drop)]
pub(crate) struct Printer<'k, K: Sink> {
    pub(crate) out: &'k mut K,
    pub(crate) room: &'k mut Room,
}

impl<'k, K: Sink> Printer<'k, K> {
    /// Writes what waits.
    pub(crate) fn flush(&mut self) -> Result<(), Cut>
        ensures passes { Passes K.written K.faults self.old self.new [] result }
        ensures empty { OnOk result (self.new.room.now ≡ []) }
        ensures cause { IfErr result (λ cut. cut ≡ WriteFault) }
    {
        match put_all(self.out, self.room.bytes()) {
            Ok(()) => {
                self.room.clear();
                Ok(())
            }
            Err(_) => Err(Cut::WriteFault),
        }
    }

    /// Adds a text.
    pub(crate) fn text(&mut self, text: &[u8]) -> Result<(), Cut>
        ensures passes { Passes K.written K.faults self.old self.new text.now result }
        ensures cause { IfErr result (λ cut. cut ≡ WriteFault) }
    {
        if self.room.push(text) {
            return Ok(());
        }
        self.after_others(text)
    }

    /// Writes what waits, and adds a text.
    #[tactic(auto, using(crate::proofs::PassingLemmas::then_passes, crate::proofs::PassingLemmas::cut_at_once))]
    fn after_others(&mut self, text: &[u8]) -> Result<(), Cut>
        ensures passes { Passes K.written K.faults self.old self.new text.now result }
        ensures cause { IfErr result (λ cut. cut ≡ WriteFault) }
    {
        self.flush()?;
        self.directly(text)
    }

    /// Writes a text at once, where nothing waits.
    fn directly(&mut self, text: &[u8]) -> Result<(), Cut>
        requires { self.old.room.now ≡ [] }
        ensures passes { Passes K.written K.faults self.old self.new text.now result }
        ensures cause { IfErr result (λ cut. cut ≡ WriteFault) }
    {
        if self.room.push(text) {
            return Ok(());
        }
        match put_all(self.out, text) {
            Ok(()) => Ok(()),
            Err(_) => Err(Cut::WriteFault),
        }
    }
}
