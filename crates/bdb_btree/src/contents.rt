ghost use Rattle.std.specs.Prelude.{◌≡◌, [], false, IfErr, OnOk, if◌then◌else◌};
ghost use Rattle.bdb_ranks.specs.of_image.Linked.{FitsTreeRoot, HasMetadata, IsForest};
ghost use Rattle.bdb_faults.specs.Notes.{HasNoted};
ghost use Rattle.bdb_faults.specs.Notes.{NotesAll};
ghost use Rattle.bdb_ranks.specs.of_format.Terms.{BtreeFields, IsFirstOf, database_faults, file_of, has_wrong_count, inner_pages, is_recno, page_at};
ghost use Rattle.bdb_ranks.specs.of_format.Terms.{structure_faults};
ghost use Rattle.bdb_btree.specs.Counts.{IsKeyed};
ghost use Rattle.bdb_btree.specs.Noted.{faults_at};
ghost use Rattle.bdb_ranks.specs.of_format.declared.rows.ContentsRow.TheVariants.{Count};

use crate::counts::note_counts;
use crate::pair_rows::{Rules, note_pairs};
use crate::separators::note_separators;
use bdb_faults::{FaultSink, First, NamedList, checked};
use bdb_ranks::{BtreeMeta, CheckError, Forest, Linked, Values};
use std::alloc::{AllocError, Global};

/// Checks what a btree holds. A refusal is the first fault: the least page, and there the least code; or that
/// memory ran out, for chains that are shared.
pub fn check(alloc: Global, linked: &Linked<'_>, meta: &BtreeMeta) -> Result<(), CheckError>
    requires meta { HasMetadata (file_of linked.now) (BtreeFields meta.now) }
    requires keyed { is_recno meta.now ≡ false }
    requires stage { structure_faults (file_of linked.now) ≡ [] }
    ensures accepted { OnOk result (database_faults (file_of linked.now) (BtreeFields meta.now) ≡ []) }
    ensures refusal { IfErr result (IsFirstOf (database_faults (file_of linked.now) (BtreeFields meta.now))) }
{
    let mut first = First::new();
    let mut known = Values::new(alloc, linked.forest());
    let answer = note_contents(linked, meta, &mut known, &mut first);
    checked(first, answer)
}

/// Notes each row on what a btree holds at each page where it holds, in a list of all. An error means that memory ran
/// out.
pub fn all_faults(
    alloc: Global,
    linked: &Linked<'_>,
    meta: &BtreeMeta,
    found: &mut NamedList,
) -> Result<(), AllocError>
    requires meta { HasMetadata (file_of linked.now) (BtreeFields meta.now) }
    requires keyed { is_recno meta.now ≡ false }
    requires stage { structure_faults (file_of linked.now) ≡ [] }
    ensures { OnOk result (NotesAll (HasNoted found.old) (HasNoted found.new) (database_faults (file_of linked.now) (BtreeFields meta.now))) }
{
    let mut known = Values::new(alloc, linked.forest());
    note_contents(linked, meta, &mut known, found)
}

/// Notes each row on what a btree holds at each page where it holds, in any order and repeats allowed. What is found of chains
/// that are shared is kept for other databases of the file. An error means that memory ran out: the sink's, or that for these
/// chains.
pub fn note_contents<'a, F: FaultSink>(
    linked: &Linked<'a>,
    meta: &BtreeMeta,
    known: &mut Values<'a>,
    found: &mut F,
) -> Result<(), AllocError>
    requires meta { HasMetadata (file_of linked.now) (BtreeFields meta.now) }
    requires keyed { is_recno meta.now ≡ false }
    requires stage { structure_faults (file_of linked.now) ≡ [] }
    requires known { known.old ≡ linked.now }
    ensures noted { OnOk result (NotesAll (F.has_noted found.old) (F.has_noted found.new)
        (database_faults (file_of linked.now) (BtreeFields meta.now))) }
    ensures same { known.new ≡ known.old }
{
    // What it ensures: its root is that of a tree, in a file that linking accepts.
    linked.root(meta);
    let forest = linked.forest();
    note_forest(&forest, meta, known, found)?;
    Ok(())
}

/// The same, of the forest of a file.
#[tactic(auto, using(crate::proofs::RootLemmas::root_keyed))]
fn note_forest<'a, F: FaultSink>(
    forest: &Forest<'a>,
    meta: &BtreeMeta,
    known: &mut Values<'a>,
    found: &mut F,
) -> Result<(), AllocError>
    requires forest { IsForest forest.now }
    requires meta { HasMetadata (file_of forest.now) (BtreeFields meta.now) }
    requires keyed { is_recno meta.now ≡ false }
    requires root { FitsTreeRoot (file_of forest.now) meta.now.root }
    requires stage { structure_faults (file_of forest.now) ≡ [] }
    requires known { known.old ≡ forest.now }
    ensures noted { OnOk result (NotesAll (F.has_noted found.old) (F.has_noted found.new)
        (database_faults (file_of forest.now) (BtreeFields meta.now))) }
    ensures same { known.new ≡ known.old }
{
    let rules = Rules {
        duplicates: meta.has_duplicates(),
        sorted: meta.is_sorted(),
    };
    let ordered = note_pairs(known, meta.root, rules, found)?;
    note_separators(known, meta.root, ordered, found)?;
    note_counted(forest, meta.counts_records(), meta.root, found)?;
    Ok(())
}

/// Notes the internal pages of a tree that have a wrong count, if counts are kept.
#[tactic(auto, using(crate::proofs::Below::notes_none))]
fn note_counted<F: FaultSink>(
    forest: &Forest<'_>,
    keeps_counts: bool,
    root: u32,
    found: &mut F,
) -> Result<(), AllocError>
    requires { IsKeyed (file_of forest.now) root }
    ensures { OnOk result (NotesAll (F.has_noted found.old) (F.has_noted found.new)
        (if keeps_counts then faults_at Count (λ p. has_wrong_count (file_of forest.now) (page_at (file_of forest.now) p))
        (inner_pages (file_of forest.now) root) else [])) }
{
    if keeps_counts {
        note_counts(forest, root, found)?;
    }
    Ok(())
}
