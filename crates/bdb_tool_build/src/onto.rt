//! Sections that are loaded onto a sound file, whose databases are copied out of it one at a time.
ghost use Rattle.std.specs.Prelude.{◌≡◌, ◌⊎◌, ◌≤◌, ◌^◌, IfErr, IfOk, None, OnOk, Some, map, reverse};
ghost use Rattle.std.specs.List.{All};
ghost use Rattle.bdb_onto.specs.Bare.{bare_of, with_partner};
ghost use Rattle.bdb_onto.specs.Bases.{IsBase, base_of};
ghost use Rattle.bdb_onto.specs.Lists.{IsCountable, IsPartRefusal};
ghost use Rattle.bdb_onto.specs.Onto.{BuildsOnto, loading_error_onto};
ghost use Rattle.bdb_onto.specs.of_mkfile.Loading.{AreLoadable};
ghost use Rattle.bdb_onto.specs.of_mkfile.NamedImages.{HasBuiltTables};
ghost use Rattle.bdb_onto.specs.of_settle.Loaded.{ordered_section};
ghost use Rattle.bdb_onto.specs.of_settle.declared.load_error.LoadError.TheVariants.{Memory};

use crate::base::{bare_base, partner_pairs};
use bdb_file::Sound;
use bdb_io::Image;
use bdb_model::{Section, Sections};
use bdb_onto::{Base, Lists, LoadError, join, load_lists};
use std::alloc::{AllocError, Global};

// Sections, the last one first.
fn backward(alloc: Global, sections: Sections) -> Result<Vec<Section>, AllocError>
    ensures { IfOk result (λ all. reverse all.items ≡ sections) }
{
    let mut sections = sections;
    let mut all = Vec::with_capacity(alloc, sections.len())?;
    while let Some(section) = sections.pop() {
        all.push(section)?;
    }
    Ok(all)
}

// The lists of sections behind the pairs of their partners, as long as their pages have at most `max` bytes.
#[tactic(auto, using(bdb_onto::proofs::ListsLemmas::memory_refused))]
fn lists_onto(
    alloc: Global,
    sound: &Sound<'_>,
    base: &Base,
    sections: Sections,
    max: u64,
) -> Result<Sections, LoadError>
    requires is_base { IsBase (base_of sound.now) }
    requires bare { base.now ≡ bare_of (base_of sound.now) }
    requires countable { All (IsCountable base.now.page_size) (map (with_partner (base_of sound.now)) sections) }
    ensures lists { IfOk result (λ lists. lists ≡ map ordered_section (map (with_partner (base_of sound.now)) sections)) }
    ensures refused { IfErr result (IsPartRefusal base.now.page_size max (map (with_partner (base_of sound.now)) sections)) }
{
    let mut left = backward(alloc, sections)?;
    let mut lists = Lists::new(alloc, base.page_size, max);
    while let Some(section) = left.pop() {
        let before = partner_pairs(alloc, sound, base, &section)?;
        lists.push(alloc, before, section)?;
    }
    Ok(lists.into_sections())
}

/// The image of at most `max` bytes of sections that can be loaded, on the base that a sound file is. At any time it takes the memory of the lists so far,
/// which have no more than `max` bytes, and of one database with its section.
pub(crate) fn image_onto(
    alloc: Global,
    sound: &Sound<'_>,
    sections: Sections,
    max: u64,
) -> Result<Image, LoadError>
    requires max { max ≤ 2 ^ 30 }
    requires base { IsBase (base_of sound.now) }
    requires fit { AreLoadable sections }
    ensures built { IfOk result (λ image. BuildsOnto (base_of sound.now) sections image) }
    ensures tables { IfOk result (λ image. HasBuiltTables image) }
    ensures sound { OnOk result (loading_error_onto max (base_of sound.now) sections ≡ None) }
    ensures refused { IfErr result (λ error. (error ≡ Memory) ⊎ (loading_error_onto max (base_of sound.now) sections ≡ Some error)) }
{
    let bare = bare_base(alloc, sound)?;
    let joined = join(alloc, bare, sections)?;
    let base = bare_base(alloc, sound)?;
    let lists = lists_onto(alloc, sound, &base, joined, max)?;
    load_lists(alloc, lists, max)
}
