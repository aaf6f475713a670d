ghost use Rattle.std.specs.Prelude.{◌≡◌, ◌+◌, ◌≤◌, ◌<◌, ◌^◌, IfOk, IsTrue, length, true};
ghost use Rattle.std.specs.List.{All};
ghost use Rattle.bdb_io.specs.of_format.declared.kinds.Kind.TheVariants.{Hash as HashKind};
ghost use Rattle.bdb_io.specs.of_format.Terms.{is_page_size};
ghost use Rattle.bdb_text_format.specs.Terms.{pairs_of};
ghost use Rattle.bdb_need.specs.of_mktree.Lists.{IsTreeList};
ghost use Rattle.bdb_need.specs.of_mkhash.Table.{IsTableList};
ghost use Rattle.bdb_mkfile.specs.FileSettings.{file_settings, own_settings};
ghost use Rattle.bdb_mkfile.specs.Trees.{IsTreeSettings};
ghost use Rattle.bdb_mkfile.specs.NamedImages.{IsNamed};
ghost use Rattle.bdb_mkfile.specs.Standing.{AreAdded, AreDatabasesBuilt, IsDatabaseBuilt, IsSectionBuilt};

use crate::metadata::file_settings;
use crate::named_metadata::{DatabaseMeta, named_table_meta, named_tree_meta};
use crate::table::element_count;
use bdb_io::{Kind, Order, Settings};
use bdb_need::{Pages, build_table, build_tree};
use bdb_text_format::{PairSlice, Section, Sections};
use std::alloc::{AllocError, Global};

/// Adds so many zero pages at the end.
pub(crate) fn add_zeros(pages: &mut Pages, count: usize) -> Result<(), AllocError>
    ensures { IfOk result (λ _. AreAdded pages.old pages.new count) }
{
    for _page in 0..count {
        if pages.count() >= Pages::MAX {
            return Err(AllocError);
        }
        pages.add()?;
    }
    Ok(())
}

// Settings of a section in a file of a page size and an order.
fn settings_in(page_size: u32, order: Order, settings: &Settings) -> Settings
    ensures { result ≡ own_settings settings.now.kind page_size order settings.now }
{
    let mut in_file = *settings;
    in_file.page_size = page_size;
    in_file.order = order;
    file_settings(&in_file)
}

// Builds the tree of a list behind all pages, and answers its metadata.
fn build_named_tree(
    alloc: Global,
    pages: &mut Pages,
    settings: &Settings,
    list: PairSlice<'_>,
) -> Result<DatabaseMeta, AllocError>
    requires fit { IsTreeSettings settings.now }
    requires own { settings.now ≡ file_settings settings.now }
    requires size { pages.old.size ≡ settings.now.page_size }
    requires order { pages.old.order ≡ settings.now.order }
    requires some { 1 ≤ length pages.old.pages }
    requires list { IsTreeList settings.now (pairs_of list) }
    ensures { IfOk result (λ meta. IsDatabaseBuilt settings.now (pairs_of list.entry) pages.old pages.new meta) }
{
    let root = build_tree(alloc, pages, settings, list)?;
    Ok(DatabaseMeta::Tree(named_tree_meta(settings, root)))
}

// Builds the table of a list behind all pages, and answers its metadata. The number of pairs must fit its field.
fn build_named_table(
    alloc: Global,
    pages: &mut Pages,
    settings: &Settings,
    list: PairSlice<'_>,
) -> Result<DatabaseMeta, AllocError>
    requires kind { settings.now.kind ≡ HashKind }
    requires own { settings.now ≡ file_settings settings.now }
    requires sorted { settings.now.sorted ≡ true → settings.now.duplicates ≡ true }
    requires size { pages.old.size ≡ settings.now.page_size }
    requires order { pages.old.order ≡ settings.now.order }
    requires some { 1 ≤ length pages.old.pages }
    requires list { IsTableList settings.now (pairs_of list) }
    ensures { IfOk result (λ meta. IsDatabaseBuilt settings.now (pairs_of list.entry) pages.old pages.new meta) }
{
    let elements = element_count(list)?;
    let meta = build_table(alloc, pages, settings, list)?;
    Ok(DatabaseMeta::Table {
        meta: named_table_meta(&meta),
        elements,
    })
}

// Builds the database of a section behind all pages, and answers its metadata.
fn build_database(
    alloc: Global,
    pages: &mut Pages,
    page_size: u32,
    section: Section,
) -> Result<DatabaseMeta, AllocError>
    requires size { pages.old.size ≡ page_size }
    requires some { 1 ≤ length pages.old.pages }
    requires named { IsNamed page_size section }
    ensures { IfOk result (λ meta. IsSectionBuilt section pages.old pages.new meta) }
{
    let settings = settings_in(page_size, pages.order(), &section.settings);
    let list = section.pairs.as_slice();
    match settings.kind {
        Kind::Btree | Kind::Recno => build_named_tree(alloc, pages, &settings, list),
        Kind::Hash => build_named_table(alloc, pages, &settings, list),
        Kind::Queue => unreachable!(),
    }
}

/// Builds the databases of sections behind all pages, the last one first, and answers their metadata in this order.
pub(crate) fn build_databases(
    alloc: Global,
    pages: &mut Pages,
    page_size: u32,
    sections: Sections,
) -> Result<Vec<DatabaseMeta>, AllocError>
    requires size { pages.old.size ≡ page_size }
    requires some { 1 ≤ length pages.old.pages }
    requires each { All (IsNamed page_size) sections }
    ensures { IfOk result (λ metas. AreDatabasesBuilt sections pages.old pages.new metas.items) }
{
    let mut sections = sections;
    let mut metas = Vec::with_capacity(alloc, sections.len())?;
    while let Some(section) = sections.pop() {
        metas.push(build_database(alloc, pages, page_size, section)?)?;
    }
    Ok(metas)
}
