ghost use Rattle.std.specs.Prelude.{◌≡◌, ◌≤◌, ◌^◌, IfOk, IsTrue, length};
ghost use Rattle.bdb_io.specs.of_format.Terms.{btree_fields, is_page_size, is_zero};
ghost use Rattle.bdb_text_format.specs.Terms.{pairs_of};
ghost use Rattle.bdb_need.specs.of_pack.Built.{AreWhole, bytes_of, with_page};
ghost use Rattle.bdb_need.specs.of_mktree.Lists.{IsTreeList};
ghost use Rattle.bdb_mkfile.specs.Trees.{IsTreeImage, IsTreeSettings};
ghost use Rattle.bdb_mkfile.specs.FileSettings.{file_settings, first_bytes};

use crate::metadata::tree_meta;
use bdb_io::{BtreeMeta, Image, Settings};
use bdb_need::{Pages, build_tree, put_btree_meta};
use bdb_text_format::PairSlice;
use std::alloc::{AllocError, Global};

// Writes the metadata of a tree over page 0, which was kept for it.
fn put_first(pages: &mut Pages, meta: &BtreeMeta)
    requires some { 1 ≤ length pages.old.pages }
    requires zero { IsTrue (is_zero (bytes_of pages.old 0)) }
    ensures legal { IsTrue (is_page_size pages.old.size) }
    ensures whole { AreWhole pages.old }
    ensures page { pages.new ≡ with_page pages.old 0 (first_bytes pages.old meta.now) }
    ensures fields { btree_fields pages.old.order (first_bytes pages.old meta.now) ≡ meta.now }
    ensures few { length pages.old.pages ≤ 2 ^ 32 }
{
    let order = pages.order();
    let last = pages.count() - 1;
    put_btree_meta(pages.page_mut(0), order, 0, last, meta);
}

/// The image of a btree or recno with these settings and this list: page 0 is its metadata, and the pages of its tree follow. Room for `room` bytes
/// is taken at once. An error means that memory ran out, that there would be more than 2^21 pages, or that a sum of counts doesn't fit its field.
pub fn tree_image(
    alloc: Global,
    settings: &Settings,
    list: PairSlice<'_>,
    room: usize,
) -> Result<Image, AllocError>
    requires settings { IsTreeSettings settings.now }
    requires own { settings.now ≡ file_settings settings.now }
    requires list { IsTreeList settings.now (pairs_of list) }
    ensures { IfOk result (λ image. IsTreeImage settings.now (pairs_of list.entry) image) }
{
    let mut pages = Pages::with_room(alloc, settings.page_size, settings.order, room);
    pages.add()?;
    let root = build_tree(alloc, &mut pages, settings, list)?;
    put_first(&mut pages, &tree_meta(settings, root));
    Ok(Image::from_bytes(pages.into_bytes()))
}
