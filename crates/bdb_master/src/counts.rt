ghost use Rattle.std.specs.Prelude.{◌≡◌, ◌<◌, ℕ, IfOk, OnOk, if◌then◌else◌, get_or, length};
ghost use Rattle.std.specs.Option.{option_map};
ghost use Rattle.bdb_btree.specs.of_faults.Notes.{NotesAll};
ghost use Rattle.bdb_format.specs.Terms.{fault_seen, file_of, is_page};
ghost use Rattle.bdb_master.specs.Entries.{AreCounts, by_naming, count_fault, one_more};
ghost use Rattle.bdb_btree.specs.of_image.Linked.{IsForest};

use crate::entry::MasterEntry;
use crate::noting::note_given;
use bdb_btree::{FaultSink, Linked};
use bdb_format::{MasterRow, Named, Row};
use std::alloc::{AllocError, Global};

/// One more pair that names a page; a third counts as a second.
fn one_more(count: u8) -> u8
    ensures { result ≡ one_more count }
{
    if count >= 2 { 2 } else { count + 1 }
}

/// Counts a pair at the page that it names, if that page is there.
fn count(counts: &mut Vec<u8>, names: Option<u32>)
    ensures len { length counts.new.items ≡ length counts.old.items }
    ensures each { (p : ℕ) → p < length counts.old.items → get_or counts.new.items p 0
        ≡ (if is_page names p then one_more (get_or counts.old.items p 0) else get_or counts.old.items p 0) }
{
    if let Some(page) = names {
        let page = page as usize;
        if page < counts.len() {
            counts[page] = one_more(counts[page]);
        }
    }
}

/// How many pairs of a master name each page below a number. An error means that memory ran out: a byte for each page.
#[tactic(auto, using(crate::proofs::CountLemmas::none_counted, crate::proofs::CountLemmas::counted_more, crate::proofs::CountLemmas::all_counted))]
fn counts_of(alloc: Global, pages: u32, entries: &[MasterEntry<'_>]) -> Result<Vec<u8>, AllocError>
    ensures { IfOk result (λ counts. AreCounts counts.items pages entries.now) }
{
    let mut counts = vec![in alloc; 0; pages as usize]?;
    for entry in entries {
        count(&mut counts, entry.names());
    }
    Ok(counts)
}

/// The fault of a metadata page that so many pairs name: above page 0 it's named once.
fn count_fault(page: u32, count: u8) -> Option<Named>
    ensures { option_map fault_seen result ≡ count_fault page count }
{
    match count {
        _ if page == 0 => None,
        0 => Some(Row::Master(MasterRow::Unnamed).at(page)),
        1 => None,
        _ => Some(Row::Master(MasterRow::MetaTwice).at(page)),
    }
}

/// Notes the metadata pages that a master names not at all or twice. An error means that memory ran out.
pub(crate) fn note_naming<F: FaultSink>(
    alloc: Global,
    linked: &Linked<'_>,
    entries: &[MasterEntry<'_>],
    found: &mut F,
) -> Result<(), AllocError>
    ensures noted { OnOk result (NotesAll (F.has_noted found.old) (F.has_noted found.new) (by_naming (file_of linked.now) entries.now)) }
    ensures forest { IsForest linked.now }
{
    let counts = counts_of(alloc, linked.head().last + 1, entries)?;
    for i in 0..linked.metas() {
        let (number, _) = linked.meta(i);
        note_given(count_fault(number, counts[number as usize]), found)?;
    }
    Ok(())
}
