// What `survey` prints: the figures of pages, what is wrong with pages, and how much is given and lost of each database.
ghost use Rattle.std.specs.Prelude.{◌≡◌, ◌++◌, IfOk, codes, length, option_map, string_bytes, true};
ghost use Rattle.std.specs.List.{flat_map};
ghost use Rattle.std.specs.Fmt.{decimal};
ghost use Rattle.bdb_tool_lines.specs.of_model.Answers.{name_text};
ghost use Rattle.bdb_tool_lines.specs.of_model.Change.{change};
ghost use Rattle.bdb_text.specs.of_text_format.Terms.{kind_text, line, spelling};
ghost use Rattle.bdb_range.specs.of_format.Terms.{fault_seen};
ghost use Rattle.bdb_range.specs.of_overflow.Datum.{datum_seen};
ghost use Rattle.bdb_tool_lines.specs.Printing.{Writes};
ghost use Rattle.bdb_damage.specs.of_apart.Text.{settings_in};
ghost use Rattle.bdb_damage.specs.Counts.{given_count, lost_count};
ghost use Rattle.bdb_damage.specs.Pages.{cut_bytes, zero_pages};
ghost use Rattle.bdb_tool_print.specs.Printers.{Adds};
ghost use Rattle.bdb_tool_print.specs.Survey.{case_text, figure, figure_line, figures, figures_line, found_line, found_lines, named_line, number_line};
ghost use Rattle.bdb_tool_print.specs.Survey.{page_figures, page_lines, refused_line, row_text, survey_text};

use crate::print_to;
use crate::printing::Printer;
use bdb_damage::{
    Apart, Database, Databases, Named, RefusedPages, RenumberedPages, Unsupported, cut_bytes,
    given_count, lost_count, page_count, refused_pages, renumbered_pages, rest_pairs, rest_records,
    zero_count,
};
use bdb_range::Datum;
use bdb_text::kind_word;
use bdb_tool_lines::{Cut, Sink, case_name};
use std::alloc::{AllocError, Global};

/// A number in decimal.
fn decimal_text(alloc: Global, number: u64) -> Result<String, AllocError>
    ensures { IfOk result (λ text. string_bytes text ≡ decimal number) }
{
    format!(in alloc; "{number}")
}

impl<'k, K: Sink> Printer<'k, K> {
    /// Prints a number.
    fn decimal(&mut self, number: u64) -> Result<(), Cut>
        ensures { Adds K.written K.faults self.old self.new (decimal number) result }
    {
        match decimal_text(self.alloc, number) {
            Ok(text) => self.text(text.as_bytes()),
            Err(_) => Err(Cut::Memory),
        }
    }

    /// Prints a number behind a space.
    #[tactic(auto, using(crate::proofs::PrinterLemmas::then_adds_byte, crate::proofs::PrinterLemmas::byte_cut), unfolding(crate::specs::Survey::figure))]
    fn figure(&mut self, number: u64) -> Result<(), Cut>
        ensures { Adds K.written K.faults self.old self.new (figure number) result }
    {
        self.text(b" ")?;
        self.decimal(number)
    }

    /// Prints two numbers, each behind a space.
    #[tactic(auto, using(crate::proofs::PrinterLemmas::then_adds, crate::proofs::PrinterLemmas::adds_cut))]
    fn figures(&mut self, one: u64, two: u64) -> Result<(), Cut>
        ensures { Adds K.written K.faults self.old self.new (figures one two) result }
    {
        self.figure(one)?;
        self.figure(two)
    }

    /// Prints a number, and ends the line.
    #[tactic(auto, using(crate::proofs::PrinterLemmas::then_adds, crate::proofs::PrinterLemmas::adds_cut))]
    fn last_figure(&mut self, number: u64) -> Result<(), Cut>
        ensures { Adds K.written K.faults self.old self.new (line (figure number)) result }
    {
        self.figure(number)?;
        self.text(b"\n")
    }

    /// Prints two numbers, and ends the line.
    #[tactic(auto, using(crate::proofs::PrinterLemmas::then_adds, crate::proofs::PrinterLemmas::adds_cut))]
    fn last_figures(&mut self, one: u64, two: u64) -> Result<(), Cut>
        ensures { Adds K.written K.faults self.old self.new (line (figures one two)) result }
    {
        self.figures(one, two)?;
        self.text(b"\n")
    }

    /// Prints the line of a figure with its name.
    #[tactic(auto, using(crate::proofs::PrinterLemmas::then_adds, crate::proofs::PrinterLemmas::adds_cut), unfolding(crate::specs::Survey::figure_line))]
    fn figure_line(&mut self, name: &[u8], number: u64) -> Result<(), Cut>
        ensures { Adds K.written K.faults self.old self.new (figure_line name.now number) result }
    {
        self.text(name)?;
        self.last_figure(number)
    }

    /// Prints the line of two figures with their name.
    #[tactic(auto, using(crate::proofs::PrinterLemmas::then_adds, crate::proofs::PrinterLemmas::adds_cut))]
    fn figures_line(&mut self, name: &[u8], one: u64, two: u64) -> Result<(), Cut>
        ensures { Adds K.written K.faults self.old self.new (figures_line name.now one two) result }
    {
        self.text(name)?;
        self.last_figures(one, two)
    }

    /// Prints a text, and ends the line.
    #[tactic(auto, using(crate::proofs::PrinterLemmas::then_adds, crate::proofs::PrinterLemmas::adds_cut))]
    fn ending(&mut self, text: &[u8]) -> Result<(), Cut>
        ensures { Adds K.written K.faults self.old self.new (line text.now) result }
    {
        self.text(text)?;
        self.text(b"\n")
    }

    /// Prints a word and a text, and ends the line.
    #[tactic(auto, using(crate::proofs::PrinterLemmas::then_adds, crate::proofs::PrinterLemmas::adds_cut))]
    fn word_line(&mut self, word: &[u8], text: &[u8]) -> Result<(), Cut>
        ensures { Adds K.written K.faults self.old self.new (word.now ++ line text.now) result }
    {
        self.text(word)?;
        self.ending(text)
    }

    /// Prints how many bytes there are behind the pages, and how many pages are zero.
    #[tactic(auto, using(crate::proofs::PrinterLemmas::then_adds, crate::proofs::PrinterLemmas::adds_cut))]
    fn other_figures(&mut self, apart: &Apart<'_, '_>) -> Result<(), Cut>
        ensures { Adds K.written K.faults self.old self.new
            (figure_line (codes "cut") (cut_bytes apart.now) ++ figure_line (codes "zero") (length (zero_pages apart.now))) result }
    {
        self.figure_line(b"cut", u64::from(cut_bytes(apart)))?;
        self.figure_line(b"zero", u64::from(zero_count(apart)))
    }

    /// Prints how many pages there are, how many bytes behind them, and how many of them are zero.
    #[tactic(auto, using(crate::proofs::PrinterLemmas::then_adds, crate::proofs::PrinterLemmas::adds_cut))]
    fn page_figures(&mut self, apart: &Apart<'_, '_>) -> Result<(), Cut>
        ensures { Adds K.written K.faults self.old self.new (page_figures apart.now) result }
    {
        self.figure_line(b"pages", u64::from(page_count(apart)))?;
        self.other_figures(apart)
    }

    /// Prints the case that page 0 names, if it names one.
    fn case_line(&mut self, case: Option<Unsupported>) -> Result<(), Cut>
        ensures { Adds K.written K.faults self.old self.new (case_text case) result }
    {
        match case {
            Some(case) => self.word_line(b"unsupported ", case_name(case).as_bytes()),
            None => Ok(()),
        }
    }

    /// Prints the figures of pages, and the case that page 0 names.
    #[tactic(auto, using(crate::proofs::PrinterLemmas::then_adds, crate::proofs::PrinterLemmas::adds_cut))]
    fn head_lines(&mut self, apart: &Apart<'_, '_>, case: Option<Unsupported>) -> Result<(), Cut>
        ensures { Adds K.written K.faults self.old self.new (page_figures apart.now ++ case_text case) result }
    {
        self.page_figures(apart)?;
        self.case_line(case)
    }

    /// Prints a code and a name, and ends the line.
    #[tactic(auto, using(crate::proofs::PrinterLemmas::then_adds, crate::proofs::PrinterLemmas::adds_cut))]
    fn code_and_name(&mut self, code: u8, name: &[u8]) -> Result<(), Cut>
        ensures { Adds K.written K.faults self.old self.new (figure code ++ (codes " " ++ line name.now)) result }
    {
        self.figure(u64::from(code))?;
        self.word_line(b" ", name)
    }

    /// Prints a word before them.
    #[tactic(auto, using(crate::proofs::PrinterLemmas::then_adds, crate::proofs::PrinterLemmas::adds_cut))]
    fn word_and_code(&mut self, word: &[u8], code: u8, name: &[u8]) -> Result<(), Cut>
        ensures { Adds K.written K.faults self.old self.new (word.now ++ (figure code ++ (codes " " ++ line name.now))) result }
    {
        self.text(word)?;
        self.code_and_name(code, name)
    }

    /// Prints the code and the name of a row.
    fn row(&mut self, named: Named) -> Result<(), Cut>
        ensures { Adds K.written K.faults self.old self.new (row_text (fault_seen named)) result }
    {
        let entry = named.row.entry();
        self.word_and_code(b" code", entry.code, entry.name.as_bytes())
    }

    /// Prints a page and the row that holds of it.
    #[tactic(auto, using(crate::proofs::PrinterLemmas::then_adds, crate::proofs::PrinterLemmas::adds_cut))]
    fn page_and_row(&mut self, named: Named) -> Result<(), Cut>
        ensures { Adds K.written K.faults self.old self.new (figure named.page ++ row_text (fault_seen named)) result }
    {
        self.figure(u64::from(named.page))?;
        self.row(named)
    }

    /// Prints a word before them.
    #[tactic(auto, using(crate::proofs::PrinterLemmas::then_adds, crate::proofs::PrinterLemmas::adds_cut))]
    fn word_and_page(&mut self, word: &[u8], named: Named) -> Result<(), Cut>
        ensures { Adds K.written K.faults self.old self.new (word.now ++ (figure named.page ++ row_text (fault_seen named))) result }
    {
        self.text(word)?;
        self.page_and_row(named)
    }

    /// Prints the line of a page that is refused.
    fn refused_line(&mut self, named: Named) -> Result<(), Cut>
        ensures { Adds K.written K.faults self.old self.new (refused_line (fault_seen named)) result }
    {
        self.word_and_page(b"refused page", named)
    }

    /// Prints the lines of the pages that are refused.
    fn refused_lines(&mut self, pages: &mut RefusedPages<'_, '_>) -> Result<(), Cut>
        ensures { Adds K.written K.faults self.old self.new (flat_map refused_line pages.old) result }
    {
        for named in pages {
            self.refused_line(named)?;
        }
        Ok(())
    }

    /// Prints the line of a page that carries another number than its own.
    fn renumbered_line(&mut self, page: u32, number: u32) -> Result<(), Cut>
        ensures { Adds K.written K.faults self.old self.new (number_line (page, number)) result }
    {
        self.figures_line(b"number", u64::from(page), u64::from(number))
    }

    /// Prints the lines of the pages that carry another number than their own.
    fn number_lines(&mut self, pages: &mut RenumberedPages<'_, '_>) -> Result<(), Cut>
        ensures { Adds K.written K.faults self.old self.new (flat_map number_line pages.old) result }
    {
        for (page, number) in pages {
            self.renumbered_line(page, number)?;
        }
        Ok(())
    }

    /// Prints what is wrong with pages.
    #[tactic(auto, using(crate::proofs::PrinterLemmas::then_adds, crate::proofs::PrinterLemmas::adds_cut))]
    fn page_lines(&mut self, apart: &Apart<'_, '_>) -> Result<(), Cut>
        ensures { Adds K.written K.faults self.old self.new (page_lines apart.now) result }
    {
        self.refused_lines(&mut refused_pages(apart))?;
        self.number_lines(&mut renumbered_pages(apart))
    }

    /// Prints a value behind a space.
    #[tactic(auto, using(crate::proofs::PrinterLemmas::then_adds_byte, crate::proofs::PrinterLemmas::byte_cut))]
    fn datum_after_blank(&mut self, value: &Datum<'_>) -> Result<(), Cut>
        ensures { Adds K.written K.faults self.old self.new (codes " " ++ spelling true (datum_seen value.now)) result }
    {
        self.text(b" ")?;
        self.datum(value, true)
    }

    /// Prints the name of a database behind a space, if it has one.
    fn found_name(&mut self, name: Option<Datum<'_>>) -> Result<(), Cut>
        ensures { Adds K.written K.faults self.old self.new (name_text (option_map datum_seen name.entry)) result }
    {
        match name {
            Some(name) => self.datum_after_blank(&name),
            None => Ok(()),
        }
    }

    /// Prints it, and ends the line.
    #[tactic(auto, using(crate::proofs::PrinterLemmas::then_adds, crate::proofs::PrinterLemmas::adds_cut))]
    fn named_line(&mut self, db: &Database<'_, '_, '_>) -> Result<(), Cut>
        ensures { Adds K.written K.faults self.old self.new (named_line db.now) result }
    {
        self.found_name(db.name())?;
        self.text(b"\n")
    }

    /// Prints how much of a database is given, how much is lost, and its name.
    #[tactic(auto, using(crate::proofs::PrinterLemmas::then_adds, crate::proofs::PrinterLemmas::adds_cut))]
    fn counts_and_name(&mut self, db: &Database<'_, '_, '_>) -> Result<(), Cut>
        ensures { Adds K.written K.faults self.old self.new (figures (given_count db.now) (lost_count db.now) ++ named_line db.now) result }
    {
        self.figures(given_count(db), lost_count(db))?;
        self.named_line(db)
    }

    /// Prints the kind of a database before that.
    #[tactic(auto, using(crate::proofs::PrinterLemmas::then_adds, crate::proofs::PrinterLemmas::adds_cut))]
    fn kind_and_counts(&mut self, db: &Database<'_, '_, '_>) -> Result<(), Cut>
        ensures { Adds K.written K.faults self.old self.new
            (kind_text (settings_in db.now).kind ++ (figures (given_count db.now) (lost_count db.now) ++ named_line db.now)) result }
    {
        self.text(kind_word(db.settings().kind))?;
        self.counts_and_name(db)
    }

    /// Prints a word before it.
    #[tactic(auto, using(crate::proofs::PrinterLemmas::then_adds, crate::proofs::PrinterLemmas::adds_cut))]
    fn word_and_counts(&mut self, word: &[u8], db: &Database<'_, '_, '_>) -> Result<(), Cut>
        ensures { Adds K.written K.faults self.old self.new
            (word.now ++ (kind_text (settings_in db.now).kind ++ (figures (given_count db.now) (lost_count db.now) ++ named_line db.now))) result }
    {
        self.text(word)?;
        self.kind_and_counts(db)
    }

    /// Prints the line of a database.
    fn survey_line(&mut self, db: &Database<'_, '_, '_>) -> Result<(), Cut>
        ensures { Adds K.written K.faults self.old self.new (found_line db.now) result }
    {
        self.word_and_counts(b"database ", db)
    }

    /// Prints the lines of databases.
    fn survey_lines(&mut self, dbs: &mut Databases<'_, '_, '_>) -> Result<(), Cut>
        ensures { Adds K.written K.faults self.old self.new (flat_map found_line dbs.old) result }
    {
        for db in dbs {
            self.survey_line(&db)?;
        }
        Ok(())
    }

    /// Prints the lines of the databases that are found, and that of what belongs to none.
    #[tactic(auto, using(crate::proofs::PrinterLemmas::then_adds, crate::proofs::PrinterLemmas::adds_cut))]
    fn found_lines(&mut self, apart: &Apart<'_, '_>) -> Result<(), Cut>
        ensures { Adds K.written K.faults self.old self.new (found_lines apart.now) result }
    {
        self.survey_lines(&mut apart.databases())?;
        self.figures_line(b"rest", rest_pairs(apart), rest_records(apart))
    }

    /// Prints what is wrong with pages, and what is found.
    #[tactic(auto, using(crate::proofs::PrinterLemmas::then_adds, crate::proofs::PrinterLemmas::adds_cut))]
    fn body_lines(&mut self, apart: &Apart<'_, '_>) -> Result<(), Cut>
        ensures { Adds K.written K.faults self.old self.new (page_lines apart.now ++ found_lines apart.now) result }
    {
        self.page_lines(apart)?;
        self.found_lines(apart)
    }

    /// Prints all lines.
    #[tactic(auto, using(crate::proofs::PrinterLemmas::then_adds, crate::proofs::PrinterLemmas::adds_cut), unfolding(crate::specs::Survey::survey_text))]
    fn survey(&mut self, apart: &Apart<'_, '_>, case: Option<Unsupported>) -> Result<(), Cut>
        ensures { Adds K.written K.faults self.old self.new (survey_text case apart.now) result }
    {
        self.head_lines(apart, case)?;
        self.body_lines(apart)
    }
}

/// Writes the lines of `survey` (docs/FORMAT.md, "Survey"); `case` is the unsupported case that page 0 names, if it names one. An error means that a
/// write failed, or that memory ran out.
#[tactic(auto, using(crate::proofs::PrinterLemmas::all_cut))]
pub fn write_survey<K: Sink>(
    alloc: Global,
    out: &mut K,
    apart: &Apart<'_, '_>,
    case: Option<Unsupported>,
) -> Result<(), Cut>
    ensures { Writes (survey_text case apart.now) (change K.written K.faults out.old out.new) result }
{
    print_to!(alloc, out, printer => printer.survey(apart, case)?)
}
