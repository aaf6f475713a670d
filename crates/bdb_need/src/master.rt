ghost use Rattle.std.specs.Prelude.{◌≡◌, ◌<◌, ◌^◌, IfOk, IsTrue, map};
ghost use Rattle.std.specs.List.{list_all};
ghost use Rattle.bdb_mkhash.specs.of_format.Terms.{is_page_size};
ghost use Rattle.bdb_mkhash.specs.of_text_format.Terms.{pair_seen};
ghost use Rattle.bdb_need.specs.Need.{is_short, master_pages, master_settings, name_in, name_pair};

use crate::count::Count;
use crate::trees::tree_pages;
use bdb_mkhash::{
    KeyRef, Kind, Order, PairRef, Section, Sections, Settings, TextPairs, plain_settings,
};
use bdb_settle::settle;
use std::alloc::{AllocError, Global};

/// The settings of the master of a file, its byte order aside.
pub fn master_settings(size: u32) -> Settings
    ensures { result ≡ master_settings size }
{
    plain_settings(Kind::Btree, size, Order::Little)
}

/// The bytes of a section's name, none where it has none.
pub fn name_of(section: &Section) -> &[u8]
    ensures { result.now ≡ name_in section.now.name }
{
    match &section.name {
        Some(name) => name.as_slice(),
        None => &[],
    }
}

/// The most bytes that a length of four bytes can count.
const MOST: usize = 4294967295;

/// Whether bytes are few enough for a length of four bytes.
pub fn is_short(bytes: &[u8]) -> bool
    ensures { result ≡ is_short bytes.now }
{
    bytes.len() <= MOST
}

// Whether all names are so short.
fn are_short_names(sections: &[Section]) -> bool
    ensures { result ≡ list_all (λ section. is_short (name_in section.name)) sections.now }
{
    sections.iter().all(|section| is_short(name_of(section)))
}

// The pair of a section in the master. Which page its data name takes no part in the count.
fn name_pair(section: &Section) -> PairRef<'_>
    ensures { pair_seen result ≡ name_pair section.now }
{
    PairRef {
        key: KeyRef::Bytes(name_of(section)),
        value: &[0, 0, 0, 0],
        line: 0,
    }
}

// The pairs of the master, in the order of the sections.
fn name_pairs(alloc: Global, sections: &[Section]) -> Result<TextPairs, AllocError>
    ensures { IfOk result (λ pairs. pairs ≡ map name_pair sections.now) }
{
    let mut pairs = TextPairs::new(alloc);
    for section in sections {
        pairs.push(name_pair(section))?;
    }
    Ok(pairs)
}

/// How many pages the tree of the master has: its pairs are the names, in byte order. It is refused where one has 2^32 bytes or more: no run of pairs
/// has room for it.
pub(crate) fn master_pages(alloc: Global, size: u32, sections: &[Section]) -> Count
    requires { IsTrue (is_page_size size) }
    ensures pages { IfOk result (λ pages. pages ≡ master_pages size sections.now) }
    ensures few { IfOk result (λ pages. pages < 2 ^ 100) }
{
    if !are_short_names(sections) {
        return Err(AllocError);
    }
    let mut master = Sections::new(alloc);
    let pairs = name_pairs(alloc, sections)?;
    master.push(Section {
        name: None,
        settings: master_settings(size),
        header_line: 0,
        pairs,
    })?;
    let Ok(settled) = settle(alloc, master) else {
        return Err(AllocError);
    };
    let Some(section) = settled.get(0) else {
        unreachable!()
    };
    let pages = tree_pages(alloc, &section.settings, &section.pairs)?;
    Ok(pages)
}
