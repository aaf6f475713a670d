ghost use Rattle.std.specs.Prelude.{◌≡◌, ◌+◌, ◌≤◌, ◌<◌, ◌^◌, ◌∷◌, ◌++◌, [], IfOk, IsTrue, OnOk, length};
ghost use Rattle.bdb_io.specs.of_format.declared.kinds.Order.TheVariants.{Big};
ghost use Rattle.bdb_io.specs.of_format.Terms.{is_page_size, spelled};
ghost use Rattle.bdb_need.specs.TreePages.{unlined_pairs};
ghost use Rattle.bdb_mkfile.specs.NamedImages.{AreNamed, names_pages};
ghost use Rattle.bdb_mkfile.specs.Layout.{entries_from, entry_of, settings_of_master};
ghost use Rattle.bdb_mkfile.specs.Standing.{IsMasterBuilt};

use crate::named_metadata::named_tree_meta;
use bdb_io::{BtreeMeta, Order, Settings};
use bdb_need::{Pages, build_tree, master_settings, name_of, tree_pages};
use bdb_text_format::{KeyRef, PairRef, Section, TextPairs};
use std::alloc::{AllocError, Global};

// The settings of the master.
fn settings_of_master(size: u32, order: Order) -> Settings
    ensures { result ≡ settings_of_master size order }
{
    Settings {
        order,
        ..master_settings(size)
    }
}

// A number as four bytes, the highest first.
fn high_first(number: u32) -> [u8; 4]
    ensures { result ≡ spelled 4 Big number }
{
    number.to_be_bytes()
}

// Adds the pair of a section in the master: its name, and the number of its metadata page.
fn push_entry(entries: &mut TextPairs, number: u32, section: &Section) -> Result<(), AllocError>
    ensures { OnOk result (unlined_pairs entries.new ≡ unlined_pairs entries.old ++ entry_of number section.now ∷ []) }
{
    let value = high_first(number);
    entries.push(PairRef {
        key: KeyRef::Bytes(name_of(section)),
        value: &value,
        line: 0,
    })?;
    Ok(())
}

// The pairs of sections whose metadata pages follow each other from a page on.
fn entries_from(alloc: Global, first: u32, sections: &[Section]) -> Result<TextPairs, AllocError>
    ensures { IfOk result (λ pairs. unlined_pairs pairs ≡ entries_from first sections.now) }
{
    let mut entries = TextPairs::new(alloc);
    let mut number = first;
    for section in sections {
        push_entry(&mut entries, number, section)?;
        number = number.checked_add(1).ok_or(AllocError)?;
    }
    Ok(entries)
}

// How many pages the tree of the master has. The numbers in it take no part in the count.
fn names_pages(alloc: Global, settings: &Settings, sections: &[Section]) -> Result<u32, AllocError>
    requires legal { IsTrue (is_page_size settings.now.page_size) }
    requires master { settings.now ≡ settings_of_master settings.now.page_size settings.now.order }
    requires named { AreNamed settings.now.page_size sections.now }
    ensures { IfOk result (λ pages. pages ≡ names_pages settings.now.page_size sections.now) }
{
    let entries = entries_from(alloc, 0, sections)?;
    let pages = tree_pages(alloc, settings, &entries)?;
    match u32::try_from(pages) {
        Ok(pages) => Ok(pages),
        Err(_) => Err(AllocError),
    }
}

/// Builds the tree of the master behind all pages: it names the pages that follow it, one for each section. Answers its metadata.
pub(crate) fn build_master(
    alloc: Global,
    pages: &mut Pages,
    page_size: u32,
    sections: &[Section],
) -> Result<BtreeMeta, AllocError>
    requires size { pages.old.size ≡ page_size }
    requires some { 1 ≤ length pages.old.pages }
    requires named { AreNamed page_size sections.now }
    ensures { IfOk result (λ meta. IsMasterBuilt sections.now pages.old pages.new meta) }
{
    let settings = settings_of_master(page_size, pages.order());
    let count = names_pages(alloc, &settings, sections)?;
    let first = pages.count().checked_add(count).ok_or(AllocError)?;
    let entries = entries_from(alloc, first, sections)?;
    let root = build_tree(alloc, pages, &settings, entries.as_slice())?;
    Ok(named_tree_meta(&settings, root))
}
