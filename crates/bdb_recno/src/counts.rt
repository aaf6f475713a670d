ghost use Rattle.std.specs.Prelude.{◌≡◌, IfOk, OnOk, length};
ghost use Rattle.bdb_faults.specs.Notes.{NotesAll};
ghost use Rattle.bdb_tree.specs.of_image.Linked.{IsForest};
ghost use Rattle.bdb_tree.specs.of_format.Terms.{file_of, inner_pages, tree_entries};
ghost use Rattle.bdb_recno.specs.Counts.{counted};
ghost use Rattle.bdb_recno.specs.Noted.{count_faults};
ghost use Rattle.bdb_recno.specs.Pages.{IsRecnoPage};

use crate::page::{RecnoPage, recno_page};
use bdb_faults::{FaultSink, note_if};
use bdb_tree::{ContentsRow, Forest, Row};
use std::alloc::AllocError;

/// How many entries stand at or below a page, up to the greatest number, while the internal pages there that have a wrong count
/// are noted. Each page is gone over once, from the leaves up, by calls within each other, at most as many as a tree has levels;
/// they take no memory but the sink's.
pub(crate) fn note_counts<F: FaultSink>(
    forest: &Forest<'_>,
    page: u32,
    found: &mut F,
) -> Result<u64, AllocError>
    requires forest { IsForest forest.now }
    requires page { IsRecnoPage (file_of forest.now) page }
    ensures entries { IfOk result (λ entries. entries ≡ counted (length (tree_entries (file_of forest.now) page))) }
    ensures noted { OnOk result (NotesAll (F.has_noted found.old) (F.has_noted found.new)
        (count_faults (file_of forest.now) (inner_pages (file_of forest.now) page))) }
{
    let view = match recno_page(forest, page) {
        RecnoPage::Internal(view) => view,
        RecnoPage::Leaf(view) => return Ok(u64::from(view.entries())),
    };
    let mut entries: u64 = 0;
    let mut wrong = false;
    for item in view.items() {
        let below = note_counts(forest, item.child, found)?;
        entries = entries.saturating_add(below);
        wrong |= below != u64::from(item.count);
    }
    note_if(found, Row::Contents(ContentsRow::Count), page, wrong)?;
    Ok(entries)
}
