//! A table behind a page of metadata: the bytes of a whole file.

ghost use Rattle.std.specs.Prelude.{IsTrue};
ghost use Rattle.bdb_need.specs.of_format.Terms.{is_page_size};

use crate::legal::is_page_size;
use crate::tree_lists::is_list_for;
use bdb_need::{Bytes, HashMeta, Kind, Pages, PairSlice, Settings, build_table, put_hash_meta};
use std::alloc::{AllocError, Global};

// The bytes of the longest image.
const MOST: usize = 1 << 24;

/// A file with a table, and how many buckets that has.
#[derive(Drop)]
pub struct TableImage {
    pub buckets: u32,
    pub bytes: Bytes,
}

// A table's pages behind metadata, in place of their first one. Of more than `MOST` bytes it names a wrong last page.
#[tactic(auto, using(crate::proofs::Below::zeros_are))]
fn table_image(
    alloc: Global,
    settings: &Settings,
    meta: &HashMeta,
    elements: u32,
    pages: &[u8],
) -> Result<TableImage, AllocError>
    requires { IsTrue (is_page_size settings.now.page_size) }
{
    let size = settings.page_size as usize;
    let mut page = vec![in alloc; 0u8; size]?;
    let last = (pages.len().min(MOST) / size).saturating_sub(1) as u32;
    put_hash_meta(&mut page, settings.order, 0, last, elements, meta);
    let mut bytes = Bytes::new(alloc);
    bytes.push_all(&page)?;
    bytes.push_all(pages.get(size..).unwrap_or(&[]))?;
    Ok(TableImage {
        buckets: meta.max_bucket.saturating_add(1),
        bytes,
    })
}

/// The file with the table of a list; nothing where none can be built of it with these settings.
pub fn built_table(
    alloc: Global,
    settings: &Settings,
    list: PairSlice<'_>,
) -> Result<Option<TableImage>, AllocError> {
    if settings.kind != Kind::Hash || !is_page_size(settings.page_size) {
        return Ok(None);
    }
    let keyed = Settings {
        kind: Kind::Btree,
        ..*settings
    };
    if !is_list_for(&keyed, list) {
        return Ok(None);
    }
    let elements = u32::try_from(list.len()).unwrap_or(0);
    let mut pages = Pages::new(alloc, settings.page_size, settings.order);
    pages.add()?;
    let meta = build_table(alloc, &mut pages, settings, list)?;
    let bytes = pages.into_bytes();
    let image = table_image(alloc, settings, &meta, elements, bytes.as_slice())?;
    Ok(Some(image))
}
