ghost use Rattle.std.specs.Prelude.{◌≡◌, ◌≤◌, ◌<◌, ◌+◌, ◌*◌, ◌^◌, length};
ghost use Rattle.std.specs.List.{All, count_by, flat_map};
ghost use Rattle.bdb_apart.specs.of_format.Terms.{File, page_at};
ghost use Rattle.bdb_apart.specs.of_layout.Seen.{content_seen};
ghost use Rattle.bdb_apart.specs.of_rescue.Kept.{IsKeptPair, data_here, file_in, given, given_live};
ghost use Rattle.bdb_apart.specs.of_survey.Salvage.{paired_items, stored_on};
ghost use Rattle.bdb_damage.specs.Counts.{lost_pairs_on};
ghost use Rattle.bdb_damage.specs.Tallies.{is_kept_live, live_pairs_in, set_size};

use crate::one::one;
use bdb_apart::{Content, DataPlace, DupBlocks, KeptPair, Salvaged, paired_slots};

/// How many blocks a set on a page has.
fn block_count(blocks: DupBlocks<'_>) -> u64
    requires { length blocks.blocks < 2 ^ 32 }
    ensures { result ≡ length blocks.entry.blocks }
{
    let mut count = 0;
    for _block in blocks {
        count += 1;
    }
    count
}

/// How many data a data item has by itself: those of a set off the page aren't counted.
fn count_here(content: Content<'_>) -> u64
    requires { set_size (content_seen content) < 2 ^ 32 }
    ensures { (file : File) → result ≡ length (data_here file (content_seen content.entry)) }
{
    match content {
        Content::Set(blocks) => block_count(blocks),
        Content::Inline(_) | Content::Overflow { .. } => 1,
        Content::OffPage { .. } => 0,
    }
}

/// How many data a pair has, whose key and data are whole. Of a set off the page the length is known.
#[tactic(auto, unfolding(crate::specs::Below::given))]
fn data_count(salvaged: &Salvaged<'_>, pair: KeptPair) -> u64
    requires { IsKeptPair (file_in salvaged.now) pair }
    ensures { result ≡ length (given (file_in salvaged.now) pair) }
{
    match pair.place {
        DataPlace::Here => {
            let _image = salvaged.image();
            let index = 2 * u32::from(pair.index) + 1;
            count_here(salvaged.pages().content(pair.page, index))
        }
        DataPlace::Set { leaf } => salvaged.places_in(leaf).len() as u64,
    }
}

/// How many pairs a kept pair gives: none where it's deleted.
fn live_count(salvaged: &Salvaged<'_>, pair: KeptPair) -> u64
    requires { IsKeptPair (file_in salvaged.now) pair }
    ensures { result ≡ length (given_live (file_in salvaged.now) pair) }
{
    if pair.live {
        data_count(salvaged, pair)
    } else {
        0
    }
}

/// How many pairs some kept pairs give.
fn count_among(salvaged: &Salvaged<'_>, pairs: &[KeptPair]) -> u64
    requires known { All (IsKeptPair (file_in salvaged.now)) pairs.now }
    requires few { length (flat_map (given_live (file_in salvaged.now)) pairs.now) < 2 ^ 64 }
    ensures { result ≡ length (flat_map (given_live (file_in salvaged.now)) pairs.now) }
{
    let mut count = 0;
    for pair in pairs {
        count += live_count(salvaged, *pair);
    }
    count
}

/// How many stored pairs a page has. No set off the page is gone over.
pub(crate) fn pairs_on(salvaged: &Salvaged<'_>, page: u32) -> u64
    requires { page < (file_in salvaged.now).count }
    ensures count { result ≡ length (stored_on (file_in salvaged.now) page) }
    ensures few { result ≤ 2 ^ 42 }
{
    let _image = salvaged.image();
    count_among(salvaged, salvaged.pairs_at(page))
}

/// How many pairs of a page are live.
fn live_on(salvaged: &Salvaged<'_>, page: u32) -> u32
    ensures { result ≡ live_pairs_in (paired_items (page_at (file_in salvaged.now) page)) }
{
    let Some(slots) = paired_slots(salvaged.pages().page(page)) else {
        return 0;
    };
    let mut count = 0;
    for index in 0..slots.count() / 2 {
        count += one(!slots.is_deleted(2 * index + 1));
    }
    count
}

/// How many kept pairs are live.
fn live_kept(pairs: &[KeptPair]) -> u32
    requires { length pairs.now < 2 ^ 32 }
    ensures { result ≡ count_by is_kept_live pairs.now }
{
    let mut count = 0;
    for pair in pairs {
        count += one(pair.live);
    }
    count
}

/// How many live pairs of a page have a key or data that aren't whole.
pub(crate) fn lost_pairs_on(salvaged: &Salvaged<'_>, page: u32) -> u32
    requires { page < (file_in salvaged.now).count }
    ensures { result ≡ lost_pairs_on (file_in salvaged.now) page }
{
    let _image = salvaged.image();
    let live = live_on(salvaged, page);
    live - live_kept(salvaged.pairs_at(page))
}
