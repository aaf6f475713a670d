//! A queue under its metadata: the bytes of a whole file.

ghost use Rattle.std.specs.Prelude.{◌≤◌, ◌+◌, ◌-◌, IfOk, IsTrue};
ghost use Rattle.bdb_need.specs.of_format.Terms.{is_page_size, pad4};
ghost use Rattle.bdb_need.specs.of_text_format.Terms.{pairs_of};
ghost use Rattle.bdb_need.specs.of_mkqueue.Layout.{queue_meta};
ghost use Rattle.bdb_need.specs.of_mkqueue.Lists.{IsQueueList};
ghost use Rattle.bdb_need.specs.of_mkqueue.Written.{IsSoundQueueOf};

use crate::legal::is_page_size;
use crate::queue_lists::is_list_for;
use bdb_need::{Bytes, Pages, PairSlice, Settings, build_queue, put_queue_meta};
use std::alloc::{AllocError, Global};

// Whether a page has room for a record.
fn has_room(settings: &Settings) -> bool
    requires { 28 ≤ settings.now.page_size }
    ensures { IsTrue result → pad4 (settings.now.re_len + 1) ≤ settings.now.page_size - 28 }
{
    (u64::from(settings.re_len) + 1).div_ceil(4) * 4 <= u64::from(settings.page_size) - 28
}

/// The file of the queue of a list, which is sound and has this list: its pages, with the metadata written over the first.
pub fn queue_file(
    alloc: Global,
    settings: &Settings,
    list: PairSlice<'_>,
) -> Result<Bytes, AllocError>
    requires legal { IsTrue (is_page_size settings.now.page_size) }
    requires room { pad4 (settings.now.re_len + 1) ≤ settings.now.page_size - 28 }
    requires list { IsQueueList settings.now (pairs_of list) }
    ensures { IfOk result (λ image. IsSoundQueueOf image (queue_meta settings.now (pairs_of list.entry)) (pairs_of list.entry)) }
{
    let mut pages = Pages::new(alloc, settings.page_size, settings.order);
    pages.add()?;
    let meta = build_queue(&mut pages, settings, list)?;
    let last = pages.count() - 1;
    put_queue_meta(pages.page_mut(0), settings.order, last, &meta);
    Ok(pages.into_bytes())
}

/// The file of the queue of a list; nothing where none can be built of it with these settings.
pub fn built_queue(
    alloc: Global,
    settings: &Settings,
    list: PairSlice<'_>,
) -> Result<Option<Bytes>, AllocError> {
    if !is_page_size(settings.page_size) || !has_room(settings) || !is_list_for(settings, list) {
        return Ok(None);
    }
    let image = queue_file(alloc, settings, list)?;
    Ok(Some(image))
}
