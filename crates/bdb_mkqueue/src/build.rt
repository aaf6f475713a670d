ghost use Rattle.std.specs.Prelude.{◌≡◌, ◌+◌, ◌-◌, ◌*◌, ◌<◌, ◌≤◌, ◌^◌, ◌∷◌, IfOk, length, take};
ghost use Rattle.std.specs.List.{All};
ghost use Rattle.bdb_text_format.specs.of_format.Terms.{pad4};
ghost use Rattle.bdb_mkqueue.specs.Building.{HasRoom, IsQueueBuilt, IsQueueOn, KeepsFirst, reached, with_header, with_more, with_record};
ghost use Rattle.bdb_mkqueue.specs.Layout.{queue_meta};
ghost use Rattle.bdb_text_format.specs.Terms.{AscendFrom, pairs_of, slice_seen};
ghost use Rattle.bdb_mkqueue.specs.Lists.{HasLength, HasNext, IsQueueList, first_number, next_number};

use crate::records::{page_of_record, put_record, slot_of};
use bdb_law_join::{Pages, put_header, records_per_page};
use bdb_text_format::{Header, PageType, PairSlice, QueueMeta, Settings, number_of};
use std::alloc::AllocError;

// Adds so many zero pages behind all pages.
fn add_pages(pages: &mut Pages, n: u32) -> Result<(), AllocError>
    requires { length pages.old.pages + n ≤ 2 ^ 21 }
    ensures { IfOk result (λ _. pages.new ≡ with_more n pages.old) }
{
    for _added in 0..n {
        pages.add()?;
    }
    Ok(())
}

// Writes the header of a page of records.
fn begin_page(pages: &mut Pages, number: u32)
    requires { number < length pages.old.pages }
    ensures { pages.new ≡ with_header pages.old number }
{
    let order = pages.order();
    let header = Header {
        number,
        previous: 0,
        next: 0,
        entries: 0,
        high_free: 0,
        level: 0,
        page_type: PageType::QUEUE,
    };
    put_header(pages.page_mut(number), order, &header);
}

// Adds and begins a page for records, and adds those before it, where it isn't there yet.
fn reach_page(pages: &mut Pages, number: u32) -> Result<(), AllocError>
    ensures { IfOk result (λ _. pages.new ≡ reached pages.old number) }
{
    let count = pages.count();
    if number < count {
        return Ok(());
    }
    if number >= Pages::MAX {
        return Err(AllocError);
    }
    add_pages(pages, number + 1 - count)?;
    begin_page(pages, number);
    Ok(())
}

// Puts a record into a slot of a page.
fn write_record(pages: &mut Pages, meta: &QueueMeta, page: u32, slot: u32, value: &[u8])
    requires page { page < length pages.old.pages }
    requires room { 28 + slot * pad4 (meta.now.re_len + 1) + 1 + length value.now ≤ pages.old.size }
    ensures { pages.new ≡ with_record meta.now pages.old page slot value.now }
{
    put_record(pages.page_mut(page), meta, slot, value);
}

// Puts the record at a place of a list behind those before it.
fn push_record(
    pages: &mut Pages,
    meta: &QueueMeta,
    list: PairSlice<'_>,
    place: usize,
) -> Result<(), AllocError>
    requires ascend { AscendFrom 1 (pairs_of list) }
    requires long { All (HasLength meta.now.re_len) (pairs_of list) }
    requires room { HasRoom pages.old.size meta.now }
    requires place { place < length (slice_seen list) }
    requires queue { IsQueueOn meta.now (take place (pairs_of list)) pages.old }
    ensures queue { IfOk result (λ _. IsQueueOn meta.now (take (place + 1) (pairs_of list.entry)) pages.new) }
    ensures kept { IfOk result (λ _. KeepsFirst pages.old pages.new) }
{
    let pair = list.at(place);
    let number = number_of(pair.key);
    let page = page_of_record(meta.per_page, number);
    reach_page(pages, page)?;
    let slot = slot_of(meta, number);
    write_record(pages, meta, page, slot, pair.value);
    Ok(())
}

// The number of the first record of a list, and the one after the last.
fn first_number(list: PairSlice<'_>) -> u32
    ensures { result ≡ first_number (pairs_of list.entry) }
{
    match list.first() {
        Some(pair) => number_of(pair.key),
        None => 1,
    }
}

fn next_number(list: PairSlice<'_>) -> u32
    requires { All HasNext (pairs_of list) }
    ensures { result ≡ next_number 1 (pairs_of list.entry) }
{
    match list.last() {
        Some(pair) => number_of(pair.key) + 1,
        None => 1,
    }
}

// The metadata of the queue of a list.
fn queue_meta(page_size: usize, settings: &Settings, list: PairSlice<'_>) -> QueueMeta
    requires size { page_size ≡ settings.now.page_size }
    requires low { 28 ≤ page_size }
    requires high { page_size ≤ 32768 }
    requires few { All HasNext (pairs_of list) }
    ensures { result ≡ queue_meta settings.now (pairs_of list.entry) }
{
    QueueMeta {
        first: first_number(list),
        current: next_number(list),
        re_len: settings.re_len,
        re_pad: settings.re_pad,
        per_page: records_per_page(page_size as u32, settings.re_len),
    }
}

/// Builds the queue of a list behind a page that is kept for its metadata, and answers that. The page size and the order of the settings
/// are those of the pages. An error means that memory ran out, or that the page of a record would be one of 2^21 or above.
pub fn build_queue(
    pages: &mut Pages,
    settings: &Settings,
    list: PairSlice<'_>,
) -> Result<QueueMeta, AllocError>
    requires size { pages.old.size ≡ settings.now.page_size }
    requires order { pages.old.order ≡ settings.now.order }
    requires one { length pages.old.pages ≡ 1 }
    requires room { pad4 (settings.now.re_len + 1) ≤ settings.now.page_size - 28 }
    requires list { IsQueueList settings.now (pairs_of list) }
    ensures { IfOk result (λ meta. IsQueueBuilt settings.now (pairs_of list.entry) pages.old pages.new meta) }
{
    let meta = queue_meta(pages.size(), settings, list);
    for place in 0..list.len() {
        push_record(pages, &meta, list, place)?;
    }
    Ok(meta)
}
