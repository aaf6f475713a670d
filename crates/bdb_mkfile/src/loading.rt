ghost use Rattle.std.specs.Prelude.{◌≡◌, ◌*◌, ◌≤◌, ◌^◌, nat_lt, map, None, IfErr, IfOk, OnOk};
ghost use Rattle.bdb_mkfile.specs.NamedImages.{HasBuiltTables};
ghost use Rattle.bdb_mkfile.specs.Builds.{Builds};
ghost use Rattle.bdb_mkfile.specs.Loading.{AreLoadable, IsLoadRefusal, loading_error};
ghost use Rattle.bdb_mkfile.specs.Settled.{AreBuildable, IsImageOfSections, IsLaidOut};
ghost use Rattle.bdb_need.specs.of_settle.Loaded.{loaded_section};
ghost use Rattle.bdb_need.specs.of_settle.LoadErrors.{load_error};

use crate::alone::section_image;
use crate::image::named_image;
use crate::lengths::are_short;
use crate::order::in_name_order;
use bdb_io::Image;
use bdb_need::{LoadError, filled, filled_need, first_load_error, ordered, page_size_in};
use bdb_text_format::Sections;
use std::alloc::{AllocError, Global};

// Whether so many pages have more bytes than a number.
fn are_too_many(pages: u128, page_size: u32, max: u64) -> bool
    ensures { result ≡ nat_lt max (pages * page_size) }
{
    match pages.checked_mul(u128::from(page_size)) {
        Some(bytes) => u128::from(max) < bytes,
        None => true,
    }
}

// Room for so many pages, as far as a `usize` holds it: their bytes and one more, as a list grows where it gets full.
fn room_for(pages: u128, page_size: u32) -> usize {
    match usize::try_from(pages) {
        Ok(pages) => pages.saturating_mul(page_size as usize).saturating_add(1),
        Err(_) => usize::MAX,
    }
}

// The image of sections with their lists, for which so many bytes are taken at once: under their names where the first has one, and else that of the only one.
fn settled_image(alloc: Global, settled: Sections, room: usize) -> Result<Image, AllocError>
    requires { AreBuildable settled }
    ensures { IfOk result (λ image. IsImageOfSections settled image) }
{
    let Some(first) = settled.get(0) else {
        unreachable!()
    };
    let settings = first.settings;
    if first.name.is_some() {
        let sorted = in_name_order(alloc, settled)?;
        return named_image(alloc, settings.page_size, settings.order, sorted, room);
    }
    let mut settled = settled;
    let Some(section) = settled.pop() else {
        unreachable!()
    };
    section_image(alloc, section, room)
}

/// What `load` answers to sections for which no error holds; none is looked for.
pub fn load_sound(alloc: Global, sections: Sections, max: u64) -> Result<Image, LoadError>
    requires max { max ≤ 2 ^ 30 }
    requires fit { AreLoadable sections }
    requires none { load_error sections ≡ None }
    ensures built { IfOk result (λ image. Builds sections image) }
    ensures tables { IfOk result (λ image. HasBuiltTables image) }
    ensures laid_out { IfOk result (λ image. IsLaidOut (map loaded_section sections) image) }
    ensures sound { OnOk result (loading_error max sections ≡ None) }
    ensures refused { IfErr result (IsLoadRefusal max sections) }
{
    let ordered = ordered(alloc, sections)?;
    if !are_short(&ordered) {
        return Err(LoadError::TooLarge);
    }
    let pages = filled_need(alloc, &ordered)?;
    let size = page_size_in(&ordered);
    if are_too_many(pages, size, max) {
        return Err(LoadError::TooLarge);
    }
    let settled = filled(alloc, ordered)?;
    Ok(settled_image(alloc, settled, room_for(pages, size))?)
}

/// A sound file of at most `max` bytes with the databases of sections, in the page size and byte order of the first. Pages of buckets have type 2,
/// and the root of a tree of data says how many there are. Metadata, its flags and the roots that it names, and the pages under these are those of
/// `tree_image`, `table_image`, `queue_image` or `named_image`. An error is the first load error of the sections (docs/FORMAT.md, "Loading"), by line
/// and then by code; where there is none, that the file would have more than `max` bytes, or that memory ran out.
pub fn load(alloc: Global, sections: Sections, max: u64) -> Result<Image, LoadError>
    requires max { max ≤ 2 ^ 30 }
    requires fit { AreLoadable sections }
    ensures built { IfOk result (λ image. Builds sections image) }
    ensures tables { IfOk result (λ image. HasBuiltTables image) }
    ensures laid_out { IfOk result (λ image. IsLaidOut (map loaded_section sections) image) }
    ensures sound { OnOk result (loading_error max sections ≡ None) }
    ensures refused { IfErr result (IsLoadRefusal max sections) }
{
    if let Some(error) = first_load_error(&sections) {
        return Err(error);
    }
    load_sound(alloc, sections, max)
}
