ghost use Rattle.std.specs.Prelude.{◌≡◌, ◌+◌, ◌-◌, ◌≤◌, IfOk, IsTrue};
ghost use Rattle.bdb_io.specs.of_format.declared.kinds.Kind.TheVariants.{Queue as QueueKind};
ghost use Rattle.bdb_io.specs.of_format.Terms.{is_page_size, pad4};
ghost use Rattle.bdb_text_format.specs.Terms.{pairs_of};
ghost use Rattle.bdb_need.specs.of_mkqueue.Lists.{IsQueueList};
ghost use Rattle.bdb_mkfile.specs.FileSettings.{file_settings};
ghost use Rattle.bdb_mkfile.specs.LoneImages.{IsQueueImage};

use bdb_io::{Image, Settings};
use bdb_need::{Pages, build_queue, put_queue_meta};
use bdb_text_format::PairSlice;
use std::alloc::{AllocError, Global};

/// The image of a queue with these settings and this list: page 0 is its metadata, and its pages follow. An
/// error means that memory ran out, or that a record would stand on a page of 2^21 or above.
pub fn queue_image(
    alloc: Global,
    settings: &Settings,
    list: PairSlice<'_>,
    room: usize,
) -> Result<Image, AllocError>
    requires kind { settings.now.kind ≡ QueueKind }
    requires own { settings.now ≡ file_settings settings.now }
    requires legal { IsTrue (is_page_size settings.now.page_size) }
    requires room { pad4 (settings.now.re_len + 1) ≤ settings.now.page_size - 28 }
    requires list { IsQueueList settings.now (pairs_of list) }
    ensures { IfOk result (λ image. IsQueueImage settings.now (pairs_of list.entry) image) }
{
    let mut pages = Pages::with_room(alloc, settings.page_size, settings.order, room);
    pages.add()?;
    let meta = build_queue(&mut pages, settings, list)?;
    let last = pages.count() - 1;
    put_queue_meta(pages.page_mut(0), settings.order, last, &meta);
    Ok(Image::from_bytes(pages.into_bytes()))
}
