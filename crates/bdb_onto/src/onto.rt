ghost use Rattle.std.specs.Prelude.{◌≡◌, ◌≤◌, ◌^◌, List, None, [], IfErr, IfOk, OnOk};
ghost use Rattle.bdb_mkfile.specs.NamedImages.{HasBuiltTables};
ghost use Rattle.bdb_mkfile.specs.of_law_sections.Fit.{AreNamedBehind};
ghost use Rattle.bdb_mkfile.specs.of_settle.LoadErrors.{IsSettleRefusal};
ghost use Rattle.bdb_mkfile.specs.of_text_format.declared.sections.Section.{Section};
ghost use Rattle.bdb_mkfile.specs.Builds.{in_name_order};
ghost use Rattle.bdb_mkfile.specs.Loading.{AreLoadable};
ghost use Rattle.bdb_mkfile.specs.Settled.{IsLaidOut};
ghost use Rattle.bdb_onto.specs.Bases.{IsBase};
ghost use Rattle.bdb_onto.specs.declared.base.Base.{Base as ABase};
ghost use Rattle.bdb_onto.specs.Lists.{AreLists, AreListsOnto};
ghost use Rattle.bdb_onto.specs.Onto.{BuildsOnto, IsOntoRefusal, joined, loading_error_onto, onto_error, result_of};
ghost use Rattle.bdb_onto.specs.Search.{HasNames};

use crate::Base;
use crate::errors::partner_places;
use crate::joining::joined;
use bdb_io::Image;
use bdb_mkfile::{LoadError, Sections, filled, in_name_order, load_sound, ordered};
use std::alloc::Global;

/// Sections behind their partners, as if one text had both, and then the databases of the base that are left. An error is the first load error of the sections
/// on the base; where there is none, memory may have run out. Neither errors nor the order of databases go by the pairs of a base: it may come without them.
pub fn join(alloc: Global, base: Base, sections: Sections) -> Result<Sections, LoadError>
    requires names { HasNames base }
    requires apart { AreNamedBehind [] sections }
    ensures joined { IfOk result (λ all. all ≡ joined base sections) }
    ensures sound { OnOk result (onto_error base sections ≡ None) }
    ensures refused { IfErr result (IsSettleRefusal (onto_error base sections)) }
{
    let places = partner_places(alloc, &base, &sections)?;
    Ok(joined(alloc, base, sections, places)?)
}

/// The databases that come of loading sections onto a base, in the order of their names, each with its list; their lines are 0. An error is the first
/// load error of the sections on the base (docs/FORMAT.md, "Loading onto a file"), by line and then by code; where there is none, memory may have run
/// out.
pub fn settle_onto(alloc: Global, base: Base, sections: Sections) -> Result<Sections, LoadError>
    requires base { IsBase base }
    requires fit { AreLoadable sections }
    ensures lists { IfOk result (λ all. all ≡ in_name_order (result_of base sections)) }
    ensures sound { OnOk result (onto_error base sections ≡ None) }
    ensures refused { IfErr result (IsSettleRefusal (onto_error base sections)) }
{
    let joined = join(alloc, base, sections)?;
    let ordered = ordered(alloc, joined)?;
    let settled = filled(alloc, ordered)?;
    Ok(in_name_order(alloc, settled)?)
}

/// A sound file of at most `max` bytes with the databases of a base and the sections loaded onto them, in the page size and byte order of the base,
/// laid out as by `load`. An error is the first load error of the sections on the base; where there is none, that the file would have more than `max`
/// bytes, or that memory ran out.
pub fn load_onto(
    alloc: Global,
    base: Base,
    sections: Sections,
    max: u64,
) -> Result<Image, LoadError>
    requires max { max ≤ 2 ^ 30 }
    requires base { IsBase base }
    requires fit { AreLoadable sections }
    ensures built { IfOk result (λ image. BuildsOnto base sections image) }
    ensures tables { IfOk result (λ image. HasBuiltTables image) }
    ensures laid_out { IfOk result (λ image. IsLaidOut (result_of base sections) image) }
    ensures sound { OnOk result (loading_error_onto max base sections ≡ None) }
    ensures refused { IfErr result (IsOntoRefusal max base sections) }
{
    let joined = join(alloc, base, sections)?;
    load_sound(alloc, joined, max)
}

/// What `load_onto` answers, of the lists that loading sections onto a base gives, whose records aren't filled up (`Lists`). No load error holds for them, so
/// an error is that the file would have more than `max` bytes, or that memory ran out.
pub fn load_lists(alloc: Global, lists: Sections, max: u64) -> Result<Image, LoadError>
    requires max { max ≤ 2 ^ 30 }
    requires lists { AreLists lists }
    ensures built { IfOk result (λ image. (base : ABase) (sections : List Section) → AreListsOnto base sections lists → BuildsOnto base sections image) }
    ensures tables { IfOk result (λ image. HasBuiltTables image) }
    ensures sound { OnOk result ((base : ABase) (sections : List Section) → AreListsOnto base sections lists → onto_error base sections ≡ None
        → loading_error_onto max base sections ≡ None) }
    ensures refused { IfErr result (λ error. (base : ABase) (sections : List Section) → AreListsOnto base sections lists → onto_error base sections ≡ None
        → IsOntoRefusal max base sections error) }
{
    load_sound(alloc, lists, max)
}
