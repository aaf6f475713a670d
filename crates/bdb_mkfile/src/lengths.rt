ghost use Rattle.std.specs.Prelude.{◌≡◌};
ghost use Rattle.std.specs.List.{list_all};
ghost use Rattle.bdb_text_format.specs.Terms.{key_seen, pair_seen, slice_seen};
ghost use Rattle.bdb_need.specs.of_mktree.Lists.{bytes_in};
ghost use Rattle.bdb_need.specs.Need.{is_short};
ghost use Rattle.bdb_mkfile.specs.Lengths.{is_short_pair, is_short_section};

use bdb_need::{is_short, name_of};
use bdb_text_format::{KeyRef, PairRef, PairSlice, Section, Sections};

// Whether the length of a key fits its field, where it is bytes.
fn is_short_key(key: KeyRef<'_>) -> bool
    ensures { result ≡ is_short (bytes_in (key_seen key.entry)) }
{
    match key {
        KeyRef::Bytes(bytes) => is_short(bytes),
        KeyRef::Number(_) => true,
    }
}

// Whether a pair does.
fn is_short_pair(pair: PairRef<'_>) -> bool
    ensures { result ≡ is_short_pair (pair_seen pair.entry) }
{
    is_short_key(pair.key) && is_short(pair.value)
}

// Whether all pairs do.
fn are_short_pairs(pairs: PairSlice<'_>) -> bool
    ensures { result ≡ list_all is_short_pair (slice_seen pairs.entry) }
{
    for i in 0..pairs.len() {
        if !is_short_pair(pairs.at(i)) {
            return false;
        }
    }
    true
}

// Whether the name and the pairs of a section do.
fn is_short_section(section: &Section) -> bool
    ensures { result ≡ is_short_section section.now }
{
    is_short(name_of(section)) && are_short_pairs(section.pairs.as_slice())
}

/// Whether all names, keys and data are so short that their lengths fit fields of four bytes.
pub(crate) fn are_short(sections: &Sections) -> bool
    ensures { result ≡ list_all is_short_section sections.now }
{
    sections
        .as_slice()
        .iter()
        .all(|section| is_short_section(section))
}
