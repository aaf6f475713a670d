ghost use Rattle.std.specs.Prelude.{◌≡◌, ◌+◌, ◌<◌, ◌^◌, IfOk, IsTrue, map};
ghost use Rattle.std.specs.List.{All, sum_by};
ghost use Rattle.bdb_mkhash.specs.of_format.Terms.{is_page_size};
ghost use Rattle.bdb_need.specs.Need.{AreSettled, IsListOf, IsSettled, list_pages, need_of, section_pages, sized};
ghost use Rattle.bdb_need.specs.TreePages.{unlined_pairs};
ghost use Rattle.bdb_settle.specs.Loaded.{filled_pairs, filled_section};

use crate::count::Count;
use crate::master::master_pages;
use crate::queue::queue_pages;
use crate::table::table_pages;
use crate::trees::filled_tree_pages;
use bdb_mkhash::{Kind, Section, Sections, Settings, TextPairs};
use std::alloc::{AllocError, Global};

// The pages of the database of a list once its records are filled up, its metadata not counted.
fn list_pages(alloc: Global, settings: &Settings, list: &TextPairs) -> Count
    requires legal { IsTrue (is_page_size settings.now.page_size) }
    requires list { IsListOf settings.now.kind settings.now (unlined_pairs (filled_pairs settings.now list.now)) }
    ensures pages { IfOk result (λ pages. pages ≡ list_pages settings.now.kind settings.now (unlined_pairs (filled_pairs settings.now list.now))) }
    ensures few { IfOk result (λ pages. pages < 2 ^ 101) }
{
    match settings.kind {
        Kind::Btree | Kind::Recno => filled_tree_pages(alloc, settings, list),
        Kind::Hash => table_pages(alloc, settings, list),
        Kind::Queue => Ok(u128::from(queue_pages(settings, list))),
    }
}

// The settings of a section, with the page size of the file.
fn sized(size: u32, section: &Section) -> Settings
    ensures { result ≡ sized size section.now }
{
    let mut settings = section.settings;
    settings.page_size = size;
    settings
}

// The pages of sections once their records are filled up, each with its metadata.
fn sections_pages(alloc: Global, size: u32, sections: &[Section]) -> Count
    requires legal { IsTrue (is_page_size size) }
    requires each { All (λ section. IsSettled size (filled_section section)) sections.now }
    ensures { IfOk result (λ pages. pages ≡ sum_by (λ section. section_pages size (filled_section section)) sections.now) }
{
    let mut pages: u128 = 0;
    for section in sections {
        let more = list_pages(alloc, &sized(size, section), &section.pairs)?;
        pages = pages.checked_add(1 + more).ok_or(AllocError)?;
    }
    Ok(pages)
}

/// How many pages loading needs: those of the file that is made of the sections once their records are filled up. The page size is that
/// of the first section; where that has a name, each has one, and there is a master. No record is filled up for that.
/// An error means that memory ran out.
pub fn filled_need(alloc: Global, sections: &Sections) -> Result<u128, AllocError>
    requires { AreSettled (map filled_section sections.now) }
    ensures { IfOk result (λ pages. pages ≡ need_of (map filled_section sections.now)) }
{
    let Some(first) = sections.get(0) else {
        unreachable!()
    };
    let size = first.settings.page_size;
    let own = sections_pages(alloc, size, sections.as_slice())?;
    if first.name.is_none() {
        return Ok(own);
    }
    let master = master_pages(alloc, size, sections.as_slice())?;
    let pages = own.checked_add(1 + master).ok_or(AllocError)?;
    Ok(pages)
}

/// How many pages loading needs: those of the file that is made of the sections. The page size is that of the first section; where
/// that has a name, each has one, and there is a master. An error means that memory ran out.
pub fn need(alloc: Global, sections: &Sections) -> Result<u128, AllocError>
    requires { AreSettled sections.now }
    ensures { IfOk result (λ pages. pages ≡ need_of sections.now) }
{
    filled_need(alloc, sections)
}
