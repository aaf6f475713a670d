//! The pages of a section whose list is tested first.

use crate::legal::{is_page_size, is_tree_kind};
use crate::tree_lists::is_list_for;
use bdb_need::{Section, tree_pages};
use std::alloc::{AllocError, Global};

/// How many pages the file of a section needs, with its metadata page; nothing where it has a name, or isn't a btree or recno with a list in
/// its order.
pub fn counted(alloc: Global, section: Section) -> Result<Option<u128>, AllocError> {
    let settings = section.settings;
    if section.name.is_some() || !is_page_size(settings.page_size) || !is_tree_kind(settings.kind) {
        return Ok(None);
    }
    if !is_list_for(&settings, section.pairs.as_slice()) {
        return Ok(None);
    }
    let pages = tree_pages(alloc, &settings, &section.pairs)?;
    Ok(Some(1 + pages))
}
