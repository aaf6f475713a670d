ghost use Rattle.std.specs.Prelude.{◌≡◌, ◌++◌, [], IfOk, OnOk, map};
ghost use Rattle.std.specs.List.{All, flat_map};
ghost use Rattle.std.specs.Option.{unwrap_or};
ghost use Rattle.bdb_overflow.specs.of_form.Seen.{page_seen};
ghost use Rattle.bdb_overflow.specs.of_image.Linked.{IsForest};
ghost use Rattle.bdb_overflow.specs.of_format.Terms.{children_in, file_of, header_in, leaves, page_at};
ghost use Rattle.bdb_tree.specs.Trees.{IsTreePage, children_at};

use bdb_overflow::{Forest, InternalView, PageView, RecnoInternalView};
use std::alloc::{AllocError, Global};

/// Adds the children of the items of an internal page of a recno.
fn push_recno(next: &mut Vec<u32>, page: &RecnoInternalView<'_>) -> Result<(), AllocError>
    ensures { OnOk result (next.new.items ≡ next.old.items ++ map (λ item. item.child) page.now.items) }
{
    for item in page.items() {
        next.push(item.child)?;
    }
    Ok(())
}

/// Adds the children of the items of an internal page.
fn push_internal(next: &mut Vec<u32>, page: &InternalView<'_>) -> Result<(), AllocError>
    ensures { OnOk result (next.new.items ≡ next.old.items ++ map (λ item. item.child) page.now.items) }
{
    for item in page.items() {
        next.push(item.child)?;
    }
    Ok(())
}

/// Adds the pages right below a page.
fn push_children(next: &mut Vec<u32>, page: &PageView<'_>) -> Result<(), AllocError>
    ensures { OnOk result (next.new.items ≡ next.old.items ++ unwrap_or (children_in (page_seen page.now)) []) }
{
    match page {
        PageView::Internal(page) => push_internal(next, page),
        PageView::RecnoInternal(page) => push_recno(next, page),
        _ => Ok(()),
    }
}

/// The level of a page of a tree: 1 for a leaf.
#[tactic(auto, using(crate::proofs::TreeLemmas::tree_inside, crate::proofs::LevelLemmas::seen_level))]
fn level_of(forest: &Forest<'_>, page: u32) -> u8
    requires { IsTreePage (file_of forest.now) page }
    ensures level { result ≡ (header_in (page_at (file_of forest.now) page)).level }
    ensures forest { IsForest forest.now }
{
    forest.page(page).header().level
}

/// The pages right below these, in order, 4 bytes for each; a leaf has none. An error means that memory ran out.
#[tactic(auto, using(crate::proofs::TreeLemmas::tree_inside, crate::proofs::LevelLemmas::children_are_trees))]
pub fn next_level(alloc: Global, forest: &Forest<'_>, pages: &[u32]) -> Result<Vec<u32>, AllocError>
    requires { All (IsTreePage (file_of forest.now)) pages.now }
    ensures children { IfOk result (λ next. next.items ≡ flat_map (children_at (file_of forest.now)) pages.now) }
    ensures trees { IfOk result (λ next. All (IsTreePage (file_of forest.now)) next.items) }
{
    let mut next = Vec::new(alloc);
    for page in pages {
        push_children(&mut next, &forest.page(*page))?;
    }
    Ok(next)
}

/// The leaves at or below a page of a tree, from left to right. It keeps one level of the tree at a time and
/// the next one, 4 bytes for each page. An error means that memory ran out.
#[tactic(auto, using(crate::proofs::LevelLemmas::first_level))]
pub fn leaves_below(alloc: Global, forest: &Forest<'_>, page: u32) -> Result<Vec<u32>, AllocError>
    requires { IsTreePage (file_of forest.now) page }
    ensures leaves { IfOk result (λ found. found.items ≡ leaves (file_of forest.now) page) }
    ensures forest { OnOk result (IsForest forest.now) }
{
    let mut pages = Vec::new(alloc);
    pages.push(page)?;
    for _turn in 1..level_of(forest, page) {
        pages = next_level(alloc, forest, &pages)?;
    }
    Ok(pages)
}
