ghost use Rattle.std.specs.Prelude.{◌≡◌, ◌%◌, ◌++◌, ◌∷◌, [], length, IfOk, OnOk};
ghost use Rattle.bdb_mktree.specs.of_text_format.Terms.{pair_seen, slice_seen};
ghost use Rattle.bdb_settle.specs.Loaded.{filled_pair, filled_pairs, filled_value, has_length};

use crate::order::holds_records;
use bdb_mktree::{PairRef, PairSlice, Settings, TextPairs};
use std::alloc::{AllocError, Global};

/// Whether records have a fixed length.
pub(crate) fn has_length(settings: &Settings) -> bool
    ensures { result ≡ has_length settings.now }
{
    settings.fixed && holds_records(settings.kind)
}

/// The length of a datum once it is filled up.
pub fn filled_len(settings: &Settings, value: &[u8]) -> usize
    ensures { result ≡ length (filled_value settings.now value.now) }
{
    if has_length(settings) {
        value.len().max(settings.re_len as usize)
    } else {
        value.len()
    }
}

/// The byte that fills up a short record.
fn padding(settings: &Settings) -> u8
    ensures { result ≡ settings.now.re_pad % 256 }
{
    (settings.re_pad % 256) as u8
}

/// Puts a datum into a room, filled up where it is shorter than the fixed length.
fn fill(settings: &Settings, value: &[u8], room: &mut Vec<u8>) -> Result<(), AllocError>
    ensures { OnOk result (room.new.items ≡ filled_value settings.now value.now) }
{
    room.clear();
    room.extend_from_slice(value)?;
    room.resize(filled_len(settings, value), padding(settings))?;
    Ok(())
}

/// Adds a pair with its record filled up. Each datum is filled up in the same room.
fn push_filled(
    settings: &Settings,
    pair: PairRef<'_>,
    room: &mut Vec<u8>,
    all: &mut TextPairs,
) -> Result<(), AllocError>
    ensures { OnOk result (all.new ≡ all.old ++ filled_pair settings.now (pair_seen pair.entry) ∷ []) }
{
    fill(settings, pair.value, room)?;
    all.push(PairRef {
        key: pair.key,
        value: room.as_slice(),
        line: pair.line,
    })
}

/// Pairs with their records filled up, in a run of their own.
fn fill_pairs(
    alloc: Global,
    settings: &Settings,
    pairs: PairSlice<'_>,
) -> Result<TextPairs, AllocError>
    ensures { IfOk result (λ all. all ≡ filled_pairs settings.now (slice_seen pairs.entry)) }
{
    let mut room = Vec::new(alloc);
    let mut all = TextPairs::new(alloc);
    for i in 0..pairs.len() {
        push_filled(settings, pairs.at(i), &mut room, &mut all)?;
    }
    Ok(all)
}

/// Pairs with their records filled up. They are as they are where records have no fixed length.
pub(crate) fn filled_pairs(
    alloc: Global,
    settings: &Settings,
    pairs: TextPairs,
) -> Result<TextPairs, AllocError>
    ensures { IfOk result (λ all. all ≡ filled_pairs settings.now pairs) }
{
    if !has_length(settings) {
        return Ok(pairs);
    }
    fill_pairs(alloc, settings, pairs.as_slice())
}
