//! Whether a tree can be built of a list, found by one pass from its end.

ghost use Rattle.std.specs.Prelude.{◌≡◌, ◌+◌, ◌<◌, IsTrue, drop, get_or, length};
ghost use Rattle.bdb_need.specs.of_text_format.Terms.{key_seen, pairs_of};
ghost use Rattle.bdb_mktree.specs.Lists.{IsKeyFor, IsTreeList, IsPairFor, bytes_in, keyed_follow, may_follow};
ghost use Rattle.bdb_building_tests.specs.Trees.{no_pair, one_seen};

use bdb_mktree::number_of;
use bdb_need::{KeyRef, Kind, PairRef, PairSlice, Settings};
use test_lists::{Datum, is_less};

#[tactic(auto, using(crate::proofs::CopyLemmas::one_at))]
fn pair_at(list: PairSlice<'_>, i: usize) -> PairRef<'_>
    requires { i < length (pairs_of list) }
    ensures { one_seen result ≡ get_or (pairs_of list.entry) i no_pair }
{
    list.at(i)
}

fn is_key_for(kind: Kind, key: KeyRef<'_>) -> bool
    ensures { IsTrue result → IsKeyFor kind (key_seen key.entry) }
{
    match (kind, key) {
        (Kind::Btree, KeyRef::Bytes(key)) => key.len() < 1 << 32,
        (Kind::Recno, KeyRef::Number(number)) => number >= 1,
        _ => false,
    }
}

fn is_pair_for(settings: &Settings, pair: PairRef<'_>) -> bool
    ensures { IsTrue result → IsPairFor settings.now (one_seen pair.entry) }
{
    is_key_for(settings.kind, pair.key)
        && pair.value.len() < 1 << 32
        && (!settings.fixed || pair.value.len() as u64 == u64::from(settings.re_len))
}

fn bytes_in(key: KeyRef<'_>) -> &[u8]
    ensures { result.now ≡ bytes_in (key_seen key.entry) }
{
    match key {
        KeyRef::Bytes(key) => key,
        KeyRef::Number(_) => &[],
    }
}

// Whether a key is above the one before it, or its datum is a further one of the same key.
fn keyed_follow(settings: &Settings, before: PairRef<'_>, pair: PairRef<'_>) -> bool
    ensures { result ≡ keyed_follow settings.now (one_seen before.entry) (one_seen pair.entry) }
{
    let key = bytes_in(pair.key);
    let other = bytes_in(before.key);
    is_less(&Datum::Inline(other), &Datum::Inline(key))
        || (other == key
            && settings.duplicates
            && (!settings.sorted
                || is_less(&Datum::Inline(before.value), &Datum::Inline(pair.value))))
}

fn may_follow(settings: &Settings, before: PairRef<'_>, pair: PairRef<'_>) -> bool
    ensures { result ≡ may_follow settings.now.kind settings.now (one_seen before.entry) (one_seen pair.entry) }
{
    match settings.kind {
        Kind::Btree => keyed_follow(settings, before, pair),
        Kind::Recno => number_of(before.key) < number_of(pair.key),
        Kind::Hash | Kind::Queue => false,
    }
}

// Whether a pair may stand before those after it.
fn fits_at(settings: &Settings, list: PairSlice<'_>, i: usize) -> bool
    requires { i < length (pairs_of list) }
    ensures { IsTrue result → IsTreeList settings.now (drop (i + 1) (pairs_of list.entry)) → IsTreeList settings.now (drop i (pairs_of list.entry)) }
{
    let count = list.len();
    let pair = pair_at(list, i);
    if !is_pair_for(settings, pair) {
        return false;
    }
    if i + 1 == count {
        return true;
    }
    let next = pair_at(list, i + 1);
    may_follow(settings, pair, next)
}

/// Whether a tree can be built of a list with these settings.
pub fn is_list_for(settings: &Settings, list: PairSlice<'_>) -> bool
    ensures { IsTrue result → IsTreeList settings.now (pairs_of list.entry) }
{
    let mut i = list.len();
    while i > 0 {
        i -= 1;
        if !fits_at(settings, list, i) {
            return false;
        }
    }
    true
}
