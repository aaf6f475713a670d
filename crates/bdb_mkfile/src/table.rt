ghost use Rattle.std.specs.Prelude.{◌≡◌, ◌≤◌, ◌^◌, IfErr, IfOk, IsTrue, length, true};
ghost use Rattle.bdb_io.specs.of_format.declared.kinds.Kind.TheVariants.{Hash as HashKind};
ghost use Rattle.bdb_io.specs.of_format.Terms.{is_page_size};
ghost use Rattle.bdb_text_format.specs.Terms.{pairs_of, slice_seen};
ghost use Rattle.bdb_need.specs.of_mkhash.Table.{IsTableList};
ghost use Rattle.bdb_mkfile.specs.FileSettings.{file_settings};
ghost use Rattle.bdb_mkfile.specs.LoneImages.{IsTableImage};

use bdb_io::{Image, Settings};
use bdb_need::{Pages, build_table, put_hash_meta};
use bdb_text_format::PairSlice;
use std::alloc::{AllocError, Global};

/// How many pairs there are, where that fits the field of the metadata of a hash: from 2^32 on it is refused, and never before.
pub fn element_count(list: PairSlice<'_>) -> Result<u32, AllocError>
    ensures count { IfOk result (λ count. count ≡ length (slice_seen list.entry)) }
    ensures refused { IfErr result (λ _. 2 ^ 32 ≤ length (slice_seen list.entry)) }
{
    match u32::try_from(list.len()) {
        Ok(count) => Ok(count),
        Err(_) => Err(AllocError),
    }
}

/// The image of a hash with these settings and this list: page 0 is its metadata, and the pages of its table follow, those of buckets of type 2. Room for
/// `room` bytes is taken at once. An error means that memory ran out, that there would be more than 2^21 pages, or that the number of pairs doesn't fit its
/// field.
pub fn table_image(
    alloc: Global,
    settings: &Settings,
    list: PairSlice<'_>,
    room: usize,
) -> Result<Image, AllocError>
    requires kind { settings.now.kind ≡ HashKind }
    requires own { settings.now ≡ file_settings settings.now }
    requires legal { IsTrue (is_page_size settings.now.page_size) }
    requires sorted { settings.now.sorted ≡ true → settings.now.duplicates ≡ true }
    requires list { IsTableList settings.now (pairs_of list) }
    ensures { IfOk result (λ image. IsTableImage settings.now (pairs_of list.entry) image) }
{
    let elements = element_count(list)?;
    let mut pages = Pages::with_room(alloc, settings.page_size, settings.order, room);
    pages.add()?;
    let meta = build_table(alloc, &mut pages, settings, list)?;
    let last = pages.count() - 1;
    put_hash_meta(pages.page_mut(0), settings.order, 0, last, elements, &meta);
    Ok(Image::from_bytes(pages.into_bytes()))
}
