ghost use Rattle.std.specs.Prelude.{◌≡◌, ◌+◌, ◌==◌, length};
ghost use Rattle.std.specs.List.{flat_map, fold};
ghost use Rattle.bdb_mktree.specs.of_text_format.Terms.{is_queue, key_seen, pair_seen, slice_seen};
ghost use Rattle.bdb_settle.specs.LoadErrors.{header_errors, is_among_names, is_sooner, is_too_long, is_too_wide, is_zero};
ghost use Rattle.bdb_settle.specs.LoadErrors.{load_error, pair_errors, page_size_in, section_errors, sooner, where_so};

use crate::LoadError;
use crate::filling::has_length;
use bdb_mktree::{KeyRef, Kind, PairRef, PairSlice, Section, Sections, Settings, slot_size};

/// Whether an error has the lesser line, or on one line the lesser code.
fn is_sooner(a: LoadError, b: LoadError) -> bool
    ensures { result ≡ is_sooner a b }
{
    a.line() < b.line() || (a.line() == b.line() && a.code() < b.code())
}

/// The first of two errors.
fn sooner(first: Option<LoadError>, error: LoadError) -> Option<LoadError>
    ensures { result ≡ sooner first error }
{
    match first {
        Some(first) if !is_sooner(error, first) => Some(first),
        _ => Some(error),
    }
}

/// The first, by line and then by code, of an error and of another one if that holds; `None` if there is neither.
pub fn sooner_where(first: Option<LoadError>, holds: bool, error: LoadError) -> Option<LoadError>
    ensures { result ≡ fold sooner first (where_so holds error) }
{
    if holds { sooner(first, error) } else { first }
}

/// Whether a datum is longer than the fixed length.
fn is_too_long(settings: &Settings, pair: PairRef<'_>) -> bool
    ensures { result ≡ is_too_long settings.now (pair_seen pair.entry) }
{
    has_length(settings) && (settings.re_len as usize) < pair.value.len()
}

/// Whether a key is the number 0.
fn is_zero(key: KeyRef<'_>) -> bool
    ensures { result ≡ is_zero (key_seen key.entry) }
{
    match key {
        KeyRef::Bytes(_) => false,
        KeyRef::Number(number) => number == 0,
    }
}

/// The first error, with those of a pair.
fn with_pair(first: Option<LoadError>, settings: &Settings, pair: PairRef<'_>) -> Option<LoadError>
    ensures { result ≡ fold sooner first (pair_errors settings.now (pair_seen pair.entry)) }
{
    let first = sooner_where(
        first,
        is_too_long(settings, pair),
        LoadError::RecordTooLong(pair.line),
    );
    sooner_where(first, is_zero(pair.key), LoadError::RecordZero(pair.line))
}

/// The first, by line and then by code, of an error and of those of pairs; `None` if there is none.
pub fn with_pairs(
    first: Option<LoadError>,
    settings: &Settings,
    pairs: PairSlice<'_>,
) -> Option<LoadError>
    ensures { result ≡ fold sooner first (flat_map (pair_errors settings.now) (slice_seen pairs.entry)) }
{
    let mut first = first;
    for i in 0..pairs.len() {
        first = with_pair(first, settings, pairs.at(i));
    }
    first
}

/// Whether a kind is that of queues.
fn is_queue(kind: Kind) -> bool
    ensures { result ≡ is_queue kind }
{
    match kind {
        Kind::Btree | Kind::Recno | Kind::Hash => false,
        Kind::Queue => true,
    }
}

/// Whether a queue's record doesn't fit a page of so many bytes.
pub fn is_too_wide(size: u32, settings: &Settings) -> bool
    ensures { result ≡ is_too_wide size settings.now }
{
    is_queue(settings.kind) && (size.saturating_sub(28) as usize) < slot_size(settings.re_len)
}

/// Whether a queue has a name, or isn't alone.
pub fn is_among_names(alone: bool, section: &Section) -> bool
    ensures { result ≡ is_among_names alone section.now }
{
    is_queue(section.settings.kind) && (section.name.is_some() || !alone)
}

/// The first error, with those of a header, in a file of this page size.
fn with_header(
    first: Option<LoadError>,
    size: u32,
    alone: bool,
    section: &Section,
) -> Option<LoadError>
    ensures { result ≡ fold sooner first (header_errors size alone section.now) }
{
    let line = section.header_line;
    let first = sooner_where(
        first,
        is_too_wide(size, &section.settings),
        LoadError::RecordTooLong(line),
    );
    sooner_where(
        first,
        is_among_names(alone, section),
        LoadError::QueueAmongNames(line),
    )
}

/// The first error, with those of a section, in a file of this page size.
fn with_section(
    first: Option<LoadError>,
    size: u32,
    alone: bool,
    section: &Section,
) -> Option<LoadError>
    ensures { result ≡ fold sooner first (section_errors size alone section.now) }
{
    let first = with_header(first, size, alone, section);
    with_pairs(first, &section.settings, section.pairs.as_slice())
}

/// The page size of the file that is made of sections: that of the first.
pub fn page_size_in(sections: &Sections) -> u32
    ensures { result ≡ page_size_in sections.now }
{
    match sections.get(0) {
        Some(section) => section.settings.page_size,
        None => 0,
    }
}

/// The first error of sections, which `settle` answers.
pub fn load_error(sections: &Sections) -> Option<LoadError>
    ensures { result ≡ load_error sections.now }
{
    let size = page_size_in(sections);
    let alone = sections.len() == 1;
    let mut first = None;
    for section in sections.as_slice() {
        first = with_section(first, size, alone, section);
    }
    first
}
