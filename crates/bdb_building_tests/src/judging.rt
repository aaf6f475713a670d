//! The verdict on a tree or a table that was built, and what is read of it.

use crate::built_table;
use crate::trees::{TreeImage, built_tree};
use bdb_need::{PairSlice, Settings};
use std::alloc::{AllocError, Global};
use test_lists::gives;

/// How many levels a tree has, and how many pages its file, the metadata among them.
#[derive(Clone, Copy)]
pub struct TreeShape {
    pub levels: u8,
    pub pages: usize,
}

// Whether a file has so many pages, and the root on page 1 so many levels.
fn has_shape(settings: &Settings, image: &TreeImage, shape: TreeShape) -> bool {
    let bytes = image.bytes.as_slice();
    let size = settings.page_size as usize;
    image.root == 1
        && bytes.len() == shape.pages.saturating_mul(size)
        && bytes.get(size.saturating_add(24)) == Some(&shape.levels)
}

/// Whether the tree of a list is built with a shape, its file is sound and gives the list, and nothing under another key.
pub fn is_tree_built(
    alloc: Global,
    settings: &Settings,
    list: PairSlice<'_>,
    shape: TreeShape,
    absent: &[u8],
) -> Result<bool, AllocError> {
    let Some(image) = built_tree(alloc, settings, list)? else {
        return Ok(false);
    };
    let right = has_shape(settings, &image, shape);
    Ok(right && gives(alloc, image.bytes.as_slice(), list, absent)?)
}

/// How many buckets a table has, and how many pages its file, the metadata among them.
#[derive(Clone, Copy)]
pub struct TableShape {
    pub buckets: u32,
    pub pages: usize,
}

/// The same of the table of a list.
pub fn is_table_built(
    alloc: Global,
    settings: &Settings,
    list: PairSlice<'_>,
    shape: TableShape,
    absent: &[u8],
) -> Result<bool, AllocError> {
    let Some(image) = built_table(alloc, settings, list)? else {
        return Ok(false);
    };
    let bytes = image.bytes.as_slice();
    let size = settings.page_size as usize;
    let right = image.buckets == shape.buckets && bytes.len() == shape.pages.saturating_mul(size);
    Ok(right && gives(alloc, bytes, list, absent)?)
}
