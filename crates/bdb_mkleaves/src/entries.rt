ghost use Rattle.std.specs.Prelude.{ℕ, ◌≡◌, ◌<◌, ◌^◌, ◌++◌, ◌∷◌, [], IfOk, IsTrue, List, length};
ghost use Rattle.bdb_places.specs.of_format.Terms.{is_page_size, leaf_bytes};
ghost use Rattle.bdb_pack.specs.of_layout.Seen.{leaf_item_seen};
ghost use Rattle.bdb_pack.specs.Built.{AreWhole, bytes_of, with_page};
ghost use Rattle.bdb_pack.specs.OnPages.{IsBegunOn, with_item_on};
ghost use Rattle.bdb_pack.specs.Placing.{page_and_shared};
ghost use Rattle.bdb_mkleaves.specs.LeafEntries.{CanShareKey, CanTakeEntry, Entry, HoldsEntriesOn, own_entry, shared_key, with_field, with_leaf};
ghost use Rattle.bdb_mkleaves.specs.declared.leaf_type.LeafType.{LeafType as TypeOfLeaf};
ghost use Rattle.bdb_mkleaves.specs.declared.leaf_type.LeafType.TheVariants.{Pairs};

use crate::LeafType;
use bdb_pack::{LeafItem, Pages, put_u32};
use std::alloc::AllocError;

/// Adds a leaf without entries behind all pages, where a number is left for it, and answers that. `previous` is the leaf before it, 0 where it is
/// the first.
pub(crate) fn add_leaf(
    pages: &mut Pages,
    leaf_type: LeafType,
    previous: u32,
) -> Result<u32, AllocError>
    ensures legal { IsTrue (is_page_size pages.old.size) }
    ensures number { IfOk result (λ number. number ≡ length pages.old.pages) }
    ensures pages { IfOk result (λ _. pages.new ≡ with_leaf leaf_type pages.old previous) }
    ensures holds { IfOk result (λ number. HoldsEntriesOn leaf_type pages.new number previous 0 []) }
    ensures long { IfOk result (λ number. length (bytes_of pages.new number) ≡ pages.old.size) }
{
    let number = pages.add_begun(previous, 1, leaf_type.number())?;
    Ok(number)
}

/// Writes which leaf comes before a leaf.
pub(crate) fn set_previous(pages: &mut Pages, leaf: u32, previous: u32)
    requires leaf { leaf < length pages.old.pages }
    requires whole { AreWhole pages.old }
    requires begun { IsBegunOn pages.old leaf }
    ensures page { pages.new ≡ with_page pages.old leaf (with_field pages.old.order (bytes_of pages.old leaf) 12 previous) }
    ensures holds { (type : TypeOfLeaf) (before next : ℕ) (entries : List Entry) → HoldsEntriesOn type pages.old leaf before next entries
        → HoldsEntriesOn type pages.new leaf previous next entries }
{
    let order = pages.order();
    put_u32(pages.page_mut(leaf), 12, order, previous);
}

/// Writes which leaf comes after a leaf.
pub(crate) fn set_next(pages: &mut Pages, leaf: u32, next: u32)
    requires leaf { leaf < length pages.old.pages }
    requires whole { AreWhole pages.old }
    requires begun { IsBegunOn pages.old leaf }
    ensures page { pages.new ≡ with_page pages.old leaf (with_field pages.old.order (bytes_of pages.old leaf) 16 next) }
    ensures holds { (type : TypeOfLeaf) (previous before : ℕ) (entries : List Entry) → HoldsEntriesOn type pages.old leaf previous before entries
        → HoldsEntriesOn type pages.new leaf previous next entries }
{
    let order = pages.order();
    put_u32(pages.page_mut(leaf), 16, order, next);
}

/// Adds an item at the end of a leaf.
pub(crate) fn append_item(pages: &mut Pages, leaf: u32, item: &LeafItem<'_>)
    requires leaf { leaf < length pages.old.pages }
    requires takes { CanTakeEntry pages.old leaf (leaf_item_seen item.now) }
    ensures page { pages.new ≡ with_item_on pages.old leaf (leaf_bytes pages.old.order (leaf_item_seen item.now)) }
    ensures long { length (bytes_of pages.new leaf) ≡ length (bytes_of pages.old leaf) }
    ensures holds { (type : TypeOfLeaf) (previous next : ℕ) (entries : List Entry) → HoldsEntriesOn type pages.old leaf previous next entries
        → HoldsEntriesOn type pages.new leaf previous next (entries ++ (own_entry (leaf_item_seen item.now) ∷ [])) }
{
    pages.append_leaf(leaf, item);
}

/// Adds the key of the last pair of a leaf once more.
pub(crate) fn append_shared_key(pages: &mut Pages, leaf: u32)
    requires leaf { leaf < length pages.old.pages }
    requires shares { CanShareKey pages.old leaf }
    ensures page { pages.new ≡ with_page pages.old leaf (page_and_shared pages.old.order (bytes_of pages.old leaf)) }
    ensures long { length (bytes_of pages.new leaf) ≡ length (bytes_of pages.old leaf) }
    ensures holds { (previous next : ℕ) (entries : List Entry) → HoldsEntriesOn Pairs pages.old leaf previous next entries
        → HoldsEntriesOn Pairs pages.new leaf previous next (entries ++ (shared_key entries ∷ [])) }
{
    pages.append_shared(leaf);
}
