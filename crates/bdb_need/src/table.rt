ghost use Rattle.std.specs.Prelude.{◌≡◌, ◌+◌, ◌<◌, ◌≤◌, ◌^◌, IfOk, IsTrue, length};
ghost use Rattle.std.specs.List.{All, sum_by};
ghost use Rattle.bdb_mkhash.specs.of_format.Terms.{is_page_size};
ghost use Rattle.bdb_mkhash.specs.of_text_format.Terms.{pairs_of};
ghost use Rattle.bdb_mkhash.specs.of_mktree.Lists.{HasBytes, keyed_units};
ghost use Rattle.bdb_mkhash.specs.of_mktree.Units.{IsShortUnit};
ghost use Rattle.bdb_mkhash.specs.Buckets.{buckets_of, spread_bucket, table_size, table_units};
ghost use Rattle.bdb_mkhash.specs.Costs.{keyed_own_pages};
ghost use Rattle.bdb_mkhash.specs.Table.{IsTableList};
ghost use Rattle.bdb_need.specs.TreePages.{unlined_pairs};

use crate::count::Count;
use crate::units::keyed_own_pages;
use bdb_mkhash::{
    PairSlice, Settings, TextPairs, bucket_among, bucket_count, keyed_cost, page_room, run_at,
    table_bits,
};
use std::alloc::Global;

// The pages of a table where the number of a bucket has so many bits: for each bucket the room that is left on its open page is kept.
fn all_pages(alloc: Global, size: usize, sorted: bool, bits: u32, pairs: PairSlice<'_>) -> Count
    requires legal { IsTrue (is_page_size size) }
    requires some { 1 ≤ bits }
    requires few { bits ≤ 31 }
    requires keys { All (λ pair. HasBytes pair.key) (pairs_of pairs) }
    requires short { All IsShortUnit (keyed_units (pairs_of pairs)) }
    ensures pages { IfOk result (λ pages. pages
        ≡ sum_by (λ bucket. length (spread_bucket size bucket)) (buckets_of bits (table_units (pairs_of pairs.entry)))
        + sum_by (keyed_own_pages size sorted) (table_units (pairs_of pairs.entry))) }
    ensures few { IfOk result (λ pages. pages < 2 ^ 101) }
{
    let room = page_room(size) as u16;
    let count = bucket_count(bits) as usize;
    let mut left = vec![in alloc; room; count]?;
    let mut pages = count as u128;
    let mut own: u128 = 0;
    let mut start = 0;
    while start < pairs.len() {
        let run = run_at(pairs, start);
        own += keyed_own_pages(alloc, size, sorted, &run)?;
        let cost = keyed_cost(size, run.key, run.values) as u16;
        let b = bucket_among(bits, run.key) as usize;
        if cost <= left[b] {
            left[b] -= cost;
        } else {
            pages += 1;
            left[b] = room - cost;
        }
        start = run.end;
    }
    Ok(pages + own)
}

/// How many pages the table of a list has, its metadata not counted: those of its buckets, the chains and the trees of data.
/// An error means that memory ran out.
pub fn table_pages(alloc: Global, settings: &Settings, list: &TextPairs) -> Count
    requires legal { IsTrue (is_page_size settings.now.page_size) }
    requires list { IsTableList settings.now (unlined_pairs list.now) }
    ensures pages { IfOk result (λ pages. pages ≡ table_size settings.now.page_size settings.now.sorted (table_units (unlined_pairs list.now))) }
    ensures few { IfOk result (λ pages. pages < 2 ^ 101) }
{
    let size = settings.page_size as usize;
    let pairs = list.as_slice();
    let bits = table_bits(size, pairs)?;
    let pages = all_pages(alloc, size, settings.sorted, bits, pairs)?;
    Ok(pages)
}
