//! A tree behind a page of metadata: the bytes of a whole file.

ghost use Rattle.std.specs.Prelude.{IsTrue};
ghost use Rattle.bdb_need.specs.of_format.Terms.{is_page_size};

use crate::legal::{is_page_size, is_tree_kind};
use crate::tree_lists::is_list_for;
use bdb_mktree::build_tree;
use bdb_need::{BtreeMeta, Bytes, Kind, Pages, PairSlice, Settings, put_btree_meta};
use std::alloc::{AllocError, Global};

// The bytes of the longest image.
const MOST: usize = 1 << 24;

/// A file with a tree, and the root of that.
#[derive(Drop)]
pub struct TreeImage {
    pub root: u32,
    pub bytes: Bytes,
}

// The flag of a setting.
fn flag(set: bool, flag: u32) -> u32 {
    if set { flag } else { 0 }
}

// The metadata that says these settings and names a root.
fn meta(settings: &Settings, root: u32) -> BtreeMeta {
    let recno = settings.kind == Kind::Recno;
    BtreeMeta {
        flags: flag(settings.duplicates, 0x01)
            | flag(recno, 0x02)
            | flag(settings.recnum, 0x04)
            | flag(settings.fixed, 0x08)
            | flag(settings.sorted, 0x40),
        minkey: settings.minkey,
        re_len: settings.re_len,
        re_pad: settings.re_pad,
        root,
        free: 0,
    }
}

/// A tree's pages behind metadata, in place of their first one. Of more than `MOST` bytes it names a wrong last page.
#[tactic(auto, using(crate::proofs::Below::zeros_are))]
pub fn tree_image(
    alloc: Global,
    settings: &Settings,
    root: u32,
    pages: &[u8],
) -> Result<TreeImage, AllocError>
    requires { IsTrue (is_page_size settings.now.page_size) }
{
    let size = settings.page_size as usize;
    let mut page = vec![in alloc; 0u8; size]?;
    let last = (pages.len().min(MOST) / size).saturating_sub(1) as u32;
    put_btree_meta(&mut page, settings.order, 0, last, &meta(settings, root));
    let mut bytes = Bytes::new(alloc);
    bytes.push_all(&page)?;
    bytes.push_all(pages.get(size..).unwrap_or(&[]))?;
    Ok(TreeImage { root, bytes })
}

/// The file with the tree of a list; nothing where none can be built of it with these settings.
pub fn built_tree(
    alloc: Global,
    settings: &Settings,
    list: PairSlice<'_>,
) -> Result<Option<TreeImage>, AllocError> {
    if !is_page_size(settings.page_size) || !is_tree_kind(settings.kind) {
        return Ok(None);
    }
    if !is_list_for(settings, list) {
        return Ok(None);
    }
    let mut pages = Pages::new(alloc, settings.page_size, settings.order);
    pages.add()?;
    let root = build_tree(alloc, &mut pages, settings, list)?;
    let bytes = pages.into_bytes();
    let image = tree_image(alloc, settings, root, bytes.as_slice())?;
    Ok(Some(image))
}
