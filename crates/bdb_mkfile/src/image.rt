ghost use Rattle.std.specs.Prelude.{IfOk, IsTrue};
ghost use Rattle.bdb_io.specs.of_format.Terms.{is_page_size};
ghost use Rattle.bdb_mkfile.specs.NamedImages.{AreNamed, IsNamedImage};

use crate::databases::{add_zeros, build_databases};
use crate::master::build_master;
use crate::named_metadata::{DatabaseMeta, put_meta, put_metas};
use bdb_io::{Image, Order};
use bdb_need::Pages;
use bdb_text_format::Sections;
use std::alloc::{AllocError, Global};

/// The image of sections under their names, in a file of this page size and order: page 0 is the metadata of the master, its tree follows, then the
/// metadata of each section, and then the pages of their databases. The sections stand in the byte order of their names. Room for `room` bytes is
/// taken at once. An error means that memory ran out, that there would be more than 2^21 pages, or that a number doesn't fit its field.
pub fn named_image(
    alloc: Global,
    page_size: u32,
    order: Order,
    sections: Sections,
    room: usize,
) -> Result<Image, AllocError>
    requires legal { IsTrue (is_page_size page_size) }
    requires named { AreNamed page_size sections }
    ensures { IfOk result (λ image. IsNamedImage page_size order sections image) }
{
    let mut pages = Pages::with_room(alloc, page_size, order, room);
    pages.add()?;
    let master = build_master(alloc, &mut pages, page_size, sections.as_slice())?;
    add_zeros(&mut pages, sections.len())?;
    let beyond = pages.count();
    let metas = build_databases(alloc, &mut pages, page_size, sections)?;
    put_metas(&mut pages, beyond, metas.as_slice());
    put_meta(&mut pages, 0, &DatabaseMeta::Tree(master));
    Ok(Image::from_bytes(pages.into_bytes()))
}
