ghost use Rattle.std.specs.Prelude.{◌≡◌, ◌≤◌, ◌<◌, ◌^◌, IfOk, IsTrue};
ghost use Rattle.bdb_mkhash.specs.of_format.Terms.{is_page_size};
ghost use Rattle.bdb_mkhash.specs.of_mkleaves.Spread.{tree_size};
ghost use Rattle.bdb_mkhash.specs.of_mktree.Lists.{IsTreeList, units_in};
ghost use Rattle.bdb_mkhash.specs.of_mktree.Units.{IsTreeKind, leaf_type_of};
ghost use Rattle.bdb_need.specs.TreePages.{unlined_pairs, tree_pages};
ghost use Rattle.bdb_settle.specs.Loaded.{filled_pairs};

use crate::count::Count;
use crate::keys::keyed_pages;
use crate::records::record_pages;
use bdb_mkhash::{Kind, Settings, TextPairs};
use std::alloc::Global;

/// How many pages the tree of a list has once its records are filled up, its root and the chains and trees of its data among them. No
/// record is filled up for that. An error means that memory ran out.
pub fn filled_tree_pages(alloc: Global, settings: &Settings, list: &TextPairs) -> Count
    requires kind { IsTreeKind settings.now.kind }
    requires legal { IsTrue (is_page_size settings.now.page_size) }
    requires list { IsTreeList settings.now (unlined_pairs (filled_pairs settings.now list.now)) }
    ensures pages { IfOk result (λ pages. pages ≡ tree_pages settings.now (unlined_pairs (filled_pairs settings.now list.now))) }
    ensures few { IfOk result (λ pages. pages < 2 ^ 100) }
{
    let size = settings.page_size as usize;
    match settings.kind {
        Kind::Btree => keyed_pages(alloc, size, settings.sorted, list.as_slice()),
        Kind::Recno => Ok(record_pages(size, settings, list.as_slice())),
        Kind::Hash | Kind::Queue => unreachable!(),
    }
}

/// How many pages the tree of a list has, its root and the chains and trees of its data among them. An error means
/// that memory ran out.
pub fn tree_pages(alloc: Global, settings: &Settings, list: &TextPairs) -> Count
    requires kind { IsTreeKind settings.now.kind }
    requires legal { IsTrue (is_page_size settings.now.page_size) }
    requires list { IsTreeList settings.now (unlined_pairs list.now) }
    ensures pages { IfOk result (λ pages. pages ≡ tree_size (leaf_type_of settings.now.kind) settings.now.page_size settings.now.sorted
        (units_in settings.now.kind (unlined_pairs list.now))) }
    ensures few { IfOk result (λ pages. pages < 2 ^ 100) }
{
    filled_tree_pages(alloc, settings, list)
}
