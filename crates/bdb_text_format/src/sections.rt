ghost use Rattle.std.specs.Prelude.{◌≡◌, ◌==◌, ◌-◌, List, [], ◌∷◌, ◌++◌, OnOk, OnErr, length, option_copied, option_to_list, slice_get};

use crate::pairs::TextPairs;
use bdb_places::{Bytes, Settings};
use std::alloc::{AllocError, Global};
use std::marker::Model;

/// A section of a dump text: its name if it has one, its settings, the number of its line `HEADER=END`, from 1 (0: not of a text), and its pairs.
#[derive(Drop)]
pub struct Section {
    pub name: Option<Bytes>,
    pub settings: Settings,
    pub header_line: u64,
    pub pairs: TextPairs,
}

/// The sections of a dump text.
#[derive(Drop)]
pub struct Sections {
    items: Vec<Section>,
}

impl Model for Sections {
    ghost use Rattle.bdb_text_format.specs.declared.sections.Section.{Section};
    ghost use Rattle.std.specs.Prelude.{List};

    ghost Value = { List Section };

    ghost view = { λ sections. sections.items.items };
}

impl Sections {
    /// No sections. It takes no memory yet.
    pub fn new(alloc: Global) -> Sections
        ensures { result ≡ [] }
    {
        Sections {
            items: Vec::new(alloc),
        }
    }

    /// Adds a section at the end. An error means that memory ran out; the sections are as before then, and the section is dropped.
    pub fn push(&mut self, section: Section) -> Result<(), AllocError>
        ensures ok { OnOk result (self.new ≡ self.old ++ section ∷ []) }
        ensures err { OnErr result (self.new ≡ self.old) }
    {
        self.items.push(section)?;
        Ok(())
    }

    /// How many sections there are.
    pub fn len(&self) -> usize
        ensures { result ≡ length self.now }
    {
        self.items.len()
    }

    /// Whether there are none.
    pub fn is_empty(&self) -> bool
        ensures { result ≡ (length self.now == 0) }
    {
        self.items.is_empty()
    }

    /// The section at a place, or `None` exactly where there is none.
    pub fn get(&self, i: usize) -> Option<&Section>
        ensures { option_copied result ≡ slice_get self.now i }
    {
        self.items.get(i)
    }

    /// The sections.
    pub fn as_slice(&self) -> &[Section]
        ensures { result.now ≡ self.now }
    {
        self.items.as_slice()
    }

    /// Takes off the last section, or `None` exactly where there is none.
    pub fn pop(&mut self) -> Option<Section>
        ensures last { result ≡ slice_get self.old (length self.old - 1) }
        ensures others { self.old ≡ self.new ++ option_to_list result }
    {
        self.items.pop()
    }
}
