ghost use Rattle.std.specs.Prelude.{◌≡◌, None, map, reverse, IfErr, IfOk, OnOk};
ghost use Rattle.bdb_settle.specs.LoadErrors.{IsSettleRefusal, load_error};
ghost use Rattle.bdb_settle.specs.Loaded.{filled_section, loaded_section, ordered_section};
ghost use Rattle.bdb_settle.specs.Passes.{after_pass};

use crate::LoadError;
use crate::errors::load_error;
use crate::filling::filled_pairs;
use crate::settling::order_pairs;
use crate::turning::turned;
use bdb_mktree::{Section, Sections};
use std::alloc::{AllocError, Global};

/// What a pass over sections does with each.
#[derive(Clone, Copy, Debug, PartialEq, Eq)]
enum Pass {
    /// Its list is made, whose records aren't filled up.
    Settle,
    /// Its records are filled up.
    Fill,
}

// A section after a pass.
fn after_pass(alloc: Global, pass: Pass, section: Section) -> Result<Section, AllocError>
    ensures { IfOk result (λ after. after ≡ after_pass pass section) }
{
    let settings = section.settings;
    match pass {
        Pass::Settle => {
            let pairs = order_pairs(alloc, &settings, section.pairs)?;
            Ok(Section {
                name: section.name,
                settings,
                header_line: 0,
                pairs,
            })
        }
        Pass::Fill => {
            let pairs = filled_pairs(alloc, &settings, section.pairs)?;
            Ok(Section {
                name: section.name,
                settings,
                header_line: section.header_line,
                pairs,
            })
        }
    }
}

// Sections after a pass, the last one first.
fn pass_backward(alloc: Global, pass: Pass, sections: Sections) -> Result<Vec<Section>, AllocError>
    ensures { IfOk result (λ all. all.items ≡ reverse (map (after_pass pass) sections)) }
{
    let mut sections = sections;
    let mut all = Vec::with_capacity(alloc, sections.len())?;
    while let Some(section) = sections.pop() {
        all.push(after_pass(alloc, pass, section)?)?;
    }
    Ok(all)
}

/// What `settle` answers where no error holds, but for the short records, which aren't filled up: `filled` does that. Errors aren't looked for.
pub fn ordered(alloc: Global, sections: Sections) -> Result<Sections, AllocError>
    ensures { IfOk result (λ all. all ≡ map ordered_section sections) }
{
    turned(alloc, pass_backward(alloc, Pass::Settle, sections)?)
}

/// The sections, in which each record of a fixed length is filled up to it. An error means that memory ran out.
pub fn filled(alloc: Global, sections: Sections) -> Result<Sections, AllocError>
    ensures { IfOk result (λ all. all ≡ map filled_section sections) }
{
    turned(alloc, pass_backward(alloc, Pass::Fill, sections)?)
}

/// The sections in the order given, with the same names and settings, each with the list that loading makes of its pairs; their
/// lines are 0. An error is the first load error, by line and then by code; where there is none, memory may have run out.
pub fn settle(alloc: Global, sections: Sections) -> Result<Sections, LoadError>
    ensures lists { IfOk result (λ all. all ≡ map loaded_section sections) }
    ensures sound { OnOk result (load_error sections ≡ None) }
    ensures refused { IfErr result (IsSettleRefusal (load_error sections)) }
{
    if let Some(error) = load_error(&sections) {
        return Err(error);
    }
    let ordered = ordered(alloc, sections)?;
    Ok(filled(alloc, ordered)?)
}
