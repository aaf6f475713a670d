ghost use Rattle.std.specs.Prelude.{◌≡◌, ◌≤◌, ◌<◌, ◌-◌, Some, length, true};
ghost use Rattle.std.specs.List.{All, prefix_len};
ghost use Rattle.bdb_text_format.specs.of_places.Places.{values_seen};
ghost use Rattle.bdb_text_format.specs.Terms.{key_seen, keys_of, pairs_of, slice_seen};
ghost use Rattle.bdb_mkleaves.specs.Units.{KeyedUnit};
ghost use Rattle.bdb_mktree.specs.Lists.{HasBytes, IsRunAt, has_key, has_key_at};

use bdb_text_format::{KeyRef, PairSlice, Values};

// Whether a key of a list is this one.
fn is_key(other: KeyRef<'_>, key: &[u8]) -> bool
    ensures { result ≡ has_key key.now (key_seen other.entry) }
{
    match other {
        KeyRef::Bytes(bytes) => bytes == key,
        KeyRef::Number(_) => false,
    }
}

// Whether the key of a pair is this one, as that of the pair before it is.
fn has_key_at(list: PairSlice<'_>, n: usize, key: &[u8]) -> bool
    requires within { 0 < n × (n < length (slice_seen list)) }
    requires before { has_key_at key.now (slice_seen list) (n - 1) ≡ Some true }
    ensures { has_key_at key.now (slice_seen list.entry) n ≡ Some result }
{
    list.share_key(n - 1, n) || is_key(list.at(n).key, key)
}

// How many pairs from the first on have its key.
fn run_length(list: PairSlice<'_>, key: &[u8]) -> usize
    requires { has_key_at key.now (slice_seen list) 0 ≡ Some true }
    ensures { result ≡ prefix_len (has_key key.now) (keys_of (pairs_of list.entry)) }
{
    for n in 1..list.len() {
        if !has_key_at(list, n, key) {
            return n;
        }
    }
    list.len()
}

/// A key with all its data, and the place behind its pairs.
#[derive(Clone, Copy)]
pub struct KeyGroup<'a> {
    /// The key, once for all data.
    pub key: &'a [u8],
    /// The data, in the order of the list: one at least.
    pub values: Values<'a>,
    /// The place of the next key, or the length of the list.
    pub end: usize,
}

/// The key at a place of a list, with all its data.
pub fn run_at<'a>(list: PairSlice<'a>, start: usize) -> KeyGroup<'a>
    requires keys { All (λ pair. HasBytes pair.key) (pairs_of list) }
    requires more { start < length (slice_seen list) }
    ensures { IsRunAt (pairs_of list.entry) start (KeyedUnit result.key.now (values_seen result.values)) result.end }
{
    let KeyRef::Bytes(key) = list.at(start).key else {
        unreachable!()
    };
    let (_, rest) = list.split_at(start);
    let (run, behind) = rest.split_at(run_length(rest, key));
    KeyGroup {
        key,
        values: run.values(),
        end: list.len() - behind.len(),
    }
}
