//! The lines of what holds at the pages of a file.
ghost use Rattle.std.specs.Prelude.{◌≡◌, ◌<◌, ◌++◌, IfErr, Some, length, slice_get};
ghost use Rattle.bdb_faults.specs.of_format.declared.kinds.Fault.{Fault as FaultSeen};
ghost use Rattle.bdb_faults.specs.of_format.declared.kinds.Unsupported.{Unsupported};
ghost use Rattle.std.specs.Fmt.{decimal};
ghost use Rattle.bdb_faults.specs.of_format.Terms.{fault_name, fault_seen, judgement_seen, unsupported_name};
ghost use Rattle.bdb_tool_lines.specs.Passing.{Passes};
ghost use Rattle.bdb_tool_lines.specs.Telling.{case_page_part, case_part, code_part, fault_told, judgement_line, name_part, page_part, stage_part};
ghost use Rattle.bdb_tool_lines.specs.declared.cut.Cut.TheVariants.{WriteFault};
ghost use Rattle.bdb_model.specs.Answers.{fault_line, unsupported_line};
ghost use Rattle.bdb_model.specs.of_text_format.Terms.{line};

use crate::Cut;
use crate::digits::Digits;
use crate::printer::Printer;
use bdb_faults::{Fault, Named, NamedList};
use bdb_io::Sink;

impl<'k, K: Sink> Printer<'k, K> {
    /// Adds a word and a number.
    #[tactic(auto, using(crate::proofs::PassingLemmas::then_passes, crate::proofs::PassingLemmas::passes_cut))]
    fn number(&mut self, word: &[u8], number: u32) -> Result<(), Cut>
        ensures passes { Passes K.written K.faults self.old self.new (word.now ++ decimal number) result }
        ensures cause { IfErr result (λ cut. cut ≡ WriteFault) }
    {
        let digits = Digits::of(number);
        self.both(word, digits.bytes())
    }

    /// Adds two texts.
    #[tactic(auto, using(crate::proofs::PassingLemmas::then_passes, crate::proofs::PassingLemmas::passes_cut))]
    fn both(&mut self, one: &[u8], two: &[u8]) -> Result<(), Cut>
        ensures passes { Passes K.written K.faults self.old self.new (one.now ++ two.now) result }
        ensures cause { IfErr result (λ cut. cut ≡ WriteFault) }
    {
        self.text(one)?;
        self.text(two)
    }

    /// Adds the rest of a line.
    #[tactic(auto, using(crate::proofs::PassingLemmas::then_passes, crate::proofs::PassingLemmas::passes_cut))]
    fn ending(&mut self, text: &[u8]) -> Result<(), Cut>
        ensures passes { Passes K.written K.faults self.old self.new (line text.now) result }
        ensures cause { IfErr result (λ cut. cut ≡ WriteFault) }
    {
        self.text(text)?;
        self.text(b"\n")
    }

    /// Adds a word and the rest of a line.
    #[tactic(auto, using(crate::proofs::PassingLemmas::then_passes, crate::proofs::PassingLemmas::passes_cut))]
    fn last(&mut self, word: &[u8], text: &[u8]) -> Result<(), Cut>
        ensures passes { Passes K.written K.faults self.old self.new (word.now ++ line text.now) result }
        ensures cause { IfErr result (λ cut. cut ≡ WriteFault) }
    {
        self.text(word)?;
        self.ending(text)
    }

    /// Adds the stage of a fault.
    fn stage(&mut self, stage: u8) -> Result<(), Cut>
        ensures passes { Passes K.written K.faults self.old self.new (stage_part stage) result }
        ensures cause { IfErr result (λ cut. cut ≡ WriteFault) }
    {
        self.number(b"fault: stage ", u32::from(stage))
    }

    /// Adds the page of a fault.
    #[tactic(auto, unfolding(crate::specs::Telling::page_part))]
    fn page(&mut self, page: u32) -> Result<(), Cut>
        ensures passes { Passes K.written K.faults self.old self.new (page_part page) result }
        ensures cause { IfErr result (λ cut. cut ≡ WriteFault) }
    {
        self.number(b" page ", page)
    }

    /// Adds the code of a fault.
    #[tactic(auto, unfolding(crate::specs::Telling::code_part))]
    fn code(&mut self, code: u8) -> Result<(), Cut>
        ensures passes { Passes K.written K.faults self.old self.new (code_part code) result }
        ensures cause { IfErr result (λ cut. cut ≡ WriteFault) }
    {
        self.number(b" code ", u32::from(code))
    }

    /// Adds the name of a row.
    #[tactic(auto, unfolding(crate::specs::Telling::name_part))]
    fn name(&mut self, name: &[u8]) -> Result<(), Cut>
        ensures passes { Passes K.written K.faults self.old self.new (name_part name.now) result }
        ensures cause { IfErr result (λ cut. cut ≡ WriteFault) }
    {
        self.last(b" ", name)
    }

    /// Adds the page and the code of a fault.
    #[tactic(auto, using(crate::proofs::PassingLemmas::then_passes, crate::proofs::PassingLemmas::passes_cut))]
    fn place(&mut self, fault: Fault) -> Result<(), Cut>
        ensures passes { Passes K.written K.faults self.old self.new (page_part fault.page ++ code_part fault.code) result }
        ensures cause { IfErr result (λ cut. cut ≡ WriteFault) }
    {
        self.page(fault.page)?;
        self.code(fault.code)
    }

    /// Adds the stage, the page and the code of a fault.
    #[tactic(auto, using(crate::proofs::PassingLemmas::then_passes, crate::proofs::PassingLemmas::passes_cut))]
    fn row(&mut self, fault: Fault) -> Result<(), Cut>
        ensures passes { Passes K.written K.faults self.old self.new (stage_part fault.stage ++ (page_part fault.page ++ code_part fault.code)) result }
        ensures cause { IfErr result (λ cut. cut ≡ WriteFault) }
    {
        self.stage(fault.stage)?;
        self.place(fault)
    }

    /// Adds the line of a fault, by its parts.
    #[tactic(auto, using(crate::proofs::PassingLemmas::then_passes, crate::proofs::PassingLemmas::passes_cut))]
    fn fault_parts(&mut self, named: Named) -> Result<(), Cut>
        ensures passes { Passes K.written K.faults self.old self.new
            ((stage_part (fault_seen named).stage ++ (page_part (fault_seen named).page ++ code_part (fault_seen named).code))
            ++ name_part (fault_name (fault_seen named).stage (fault_seen named).code)) result }
        ensures cause { IfErr result (λ cut. cut ≡ WriteFault) }
    {
        self.row(named.fault())?;
        self.name(named.row.entry().name.as_bytes())
    }

    /// Adds the line of a fault.
    #[tactic(auto, using(crate::proofs::LineLemmas::fault_line_printed))]
    fn fault(&mut self, named: Named) -> Result<(), Cut>
        ensures passes { Passes K.written K.faults self.old self.new (fault_line (fault_seen named)) result }
        ensures cause { IfErr result (λ cut. cut ≡ WriteFault) }
    {
        self.fault_parts(named)
    }

    /// Adds the name of a case that isn't supported.
    #[tactic(auto, unfolding(crate::specs::Telling::case_part))]
    fn case(&mut self, name: &[u8]) -> Result<(), Cut>
        ensures passes { Passes K.written K.faults self.old self.new (case_part name.now) result }
        ensures cause { IfErr result (λ cut. cut ≡ WriteFault) }
    {
        self.both(b"unsupported: ", name)
    }

    /// Adds the page of a case.
    #[tactic(auto, unfolding(crate::specs::Telling::case_page_part))]
    fn case_page(&mut self, page: u32) -> Result<(), Cut>
        ensures passes { Passes K.written K.faults self.old self.new (case_page_part page) result }
        ensures cause { IfErr result (λ cut. cut ≡ WriteFault) }
    {
        let digits = Digits::of(page);
        self.last(b", page ", digits.bytes())
    }

    /// Adds the line of a case that isn't supported, by its parts.
    #[tactic(auto, using(crate::proofs::PassingLemmas::then_passes, crate::proofs::PassingLemmas::passes_cut))]
    fn case_parts(&mut self, name: &[u8], page: u32) -> Result<(), Cut>
        ensures passes { Passes K.written K.faults self.old self.new (case_part name.now ++ case_page_part page) result }
        ensures cause { IfErr result (λ cut. cut ≡ WriteFault) }
    {
        self.case(name)?;
        self.case_page(page)
    }

    /// Adds the line of a case that isn't supported, by its name, at a page.
    #[tactic(auto, using(crate::proofs::LineLemmas::case_line_printed))]
    fn unsupported(&mut self, name: &[u8], page: u32) -> Result<(), Cut>
        ensures passes { (case : Unsupported) → name.now ≡ unsupported_name case
            → Passes K.written K.faults self.old self.new (unsupported_line case page) result }
        ensures cause { IfErr result (λ cut. cut ≡ WriteFault) }
    {
        self.case_parts(name, page)
    }

    /// Adds the line of what holds at a page.
    pub(crate) fn line(&mut self, named: Named) -> Result<(), Cut>
        ensures passes { Passes K.written K.faults self.old self.new (judgement_line (judgement_seen named)) result }
        ensures cause { IfErr result (λ cut. cut ≡ WriteFault) }
    {
        let entry = named.row.entry();
        match entry.case {
            None => self.fault(named),
            Some(_) => self.unsupported(entry.name.as_bytes(), named.page),
        }
    }

    /// Adds the line of the one at a place of a list.
    pub(crate) fn item(&mut self, all: &NamedList, i: usize) -> Result<(), Cut>
        requires { i < length all.now }
        ensures passes { (fault : FaultSeen) → slice_get all.now i ≡ Some fault → Passes K.written K.faults self.old self.new (fault_told fault) result }
        ensures cause { IfErr result (λ cut. cut ≡ WriteFault) }
    {
        match all.get(i) {
            Some(named) => self.line(named),
            None => Ok(()),
        }
    }
}
