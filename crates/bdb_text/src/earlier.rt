// The sections of a text that were read so far.
ghost use Rattle.bdb_spelling.specs.of_format.Terms.{is_name};
ghost use Rattle.bdb_text.specs.SectionTo.{names_of};
ghost use Rattle.std.specs.List.{list_any};
ghost use Rattle.std.specs.Prelude.{◌≡◌, ◌==◌, [], ◌∷◌, ◌++◌, IfOk, is_none, length};

use bdb_spelling::{Bytes, Section, Sections};
use std::alloc::{AllocError, Global};
use std::collections::BTreeSet;
use std::marker::Model;

/// Sections, with their names in a sorted set.
#[derive(Drop)]
pub struct Earlier {
    sections: Sections,
    names: BTreeSet<Vec<u8>>,
    unnamed: bool,
}

impl Model for Earlier {
    ghost use Rattle.bdb_text.specs.Earlier.{AreNames, keys_in};
    ghost use Rattle.bdb_text.specs.SectionTo.{names_of};
    ghost use Rattle.bdb_spelling.specs.of_text_format.declared.sections.Section.{Section};
    ghost use Rattle.std.specs.Prelude.{List};

    ghost Value = { List Section };

    ghost view = { λ it. it.sections };

    ghost invariant = { λ it. AreNames (keys_in it.names) it.unnamed (names_of it.sections) };
}

impl Earlier {
    pub fn new(alloc: Global) -> Earlier
        ensures { result ≡ [] }
    {
        Earlier {
            sections: Sections::new(alloc),
            names: BTreeSet::new(alloc),
            unnamed: false,
        }
    }

    pub fn is_empty(&self) -> bool
        ensures { result ≡ (length self.now == 0) }
    {
        self.sections.is_empty()
    }

    /// Whether a section has no name.
    pub fn has_unnamed(&self) -> bool
        ensures { result ≡ list_any is_none (names_of self.now) }
    {
        self.unnamed
    }

    /// Whether a section has this name.
    pub fn is_taken(&self, name: &Option<Bytes>) -> bool
        ensures { result ≡ list_any (is_name name.now) (names_of self.now) }
    {
        match name {
            None => self.unnamed,
            Some(name) => self.names.contains(name.as_slice()),
        }
    }

    /// The sections, and one more at the end.
    pub fn with(self, alloc: Global, section: Section) -> Result<Earlier, AllocError>
        ensures { IfOk result (λ all. all ≡ self ++ section ∷ []) }
    {
        let mut all = self;
        match &section.name {
            None => all.unnamed = true,
            Some(name) => {
                all.names.insert(name.as_slice().to_vec(alloc)?)?;
            }
        }
        all.sections.push(section)?;
        Ok(all)
    }

    pub fn into_sections(self) -> Sections
        ensures { result ≡ self }
    {
        self.sections
    }
}
