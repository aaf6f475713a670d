// The line of a database: its kind and its name.
ghost use Rattle.std.specs.Prelude.{◌≡◌, ◌++◌, codes, option_copied, true};
ghost use Rattle.bdb_tool_lines.specs.of_model.Answers.{name_text};
ghost use Rattle.bdb_text.specs.of_text_format.Terms.{kind_text, line, spelling};
ghost use Rattle.bdb_tool_print.specs.Printers.{Adds};

use crate::printing::Printer;
use bdb_range::Kind;
use bdb_text::kind_word;
use bdb_tool_lines::{Cut, Sink};

impl<'k, K: Sink> Printer<'k, K> {
    /// Prints a blank and a name.
    #[tactic(auto, using(crate::proofs::PrinterLemmas::then_adds_byte, crate::proofs::PrinterLemmas::byte_cut))]
    fn after_blank(&mut self, name: &[u8]) -> Result<(), Cut>
        ensures { Adds K.written K.faults self.old self.new (codes " " ++ spelling true name.now) result }
    {
        self.text(b" ")?;
        self.spelled(name, true)
    }

    /// Prints a blank and a name, where there is one.
    fn name(&mut self, name: Option<&[u8]>) -> Result<(), Cut>
        ensures { Adds K.written K.faults self.old self.new (name_text (option_copied name.entry)) result }
    {
        match name {
            Some(name) => self.after_blank(name),
            None => Ok(()),
        }
    }

    /// Prints the kind of a database, and its name where it has one.
    #[tactic(auto, using(crate::proofs::PrinterLemmas::then_adds, crate::proofs::PrinterLemmas::adds_cut))]
    fn database(&mut self, kind: Kind, name: Option<&[u8]>) -> Result<(), Cut>
        ensures { Adds K.written K.faults self.old self.new (kind_text kind ++ name_text (option_copied name.entry)) result }
    {
        self.text(kind_word(kind))?;
        self.name(name)
    }

    /// Adds the line of a database: its kind and, if it has a name, a space and its name, printed. An error means that a write failed, or that memory
    /// ran out.
    #[tactic(auto, using(crate::proofs::PrinterLemmas::then_adds, crate::proofs::PrinterLemmas::adds_cut))]
    pub fn database_line(&mut self, kind: Kind, name: Option<&[u8]>) -> Result<(), Cut>
        ensures { Adds K.written K.faults self.old self.new (line (kind_text kind ++ name_text (option_copied name.entry))) result }
    {
        self.database(kind, name)?;
        self.text(b"\n")
    }
}
