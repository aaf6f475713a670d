ghost use Rattle.std.specs.Prelude.{◌≡◌, ◌++◌, [], IfOk, OnOk, map};
ghost use Rattle.bdb_btree.specs.Held.{AreKeyed, pair_held, stored_as};
ghost use Rattle.bdb_btree.specs.Pairs.{AreFit};
ghost use Rattle.bdb_master.specs.Entries.{entry_of, live_entries, master_entries};
ghost use Rattle.bdb_format.specs.Terms.{Meta as MetaPage, file_of, master_in, page_at, structure_faults};
ghost use Rattle.bdb_btree.specs.of_image.Metas.{meta_seen};
ghost use Rattle.bdb_overflow.specs.Datum.{FitsContent};

use crate::named_pages::NamedPages;
use bdb_btree::{Forest, HeldPair, HeldPairs, Linked, Meta, pairs};
use bdb_format::{BtreeMeta, Bytes};
use bdb_overflow::{Datum, is_deleted, value_of};
use std::alloc::{AllocError, Global};
use std::marker::Model;

/// A live pair of a master: its leaf, its key, and the page that it names, if it names one.
#[derive(Drop)]
pub struct MasterEntry<'a> {
    page: u32,
    key: Datum<'a>,
    names: Option<u32>,
}

impl<'a> Model for MasterEntry<'a> {
    ghost use Rattle.bdb_master.specs.Entries.{NamedPair};
    ghost use Rattle.bdb_overflow.specs.Datum.{datum_seen};

    ghost Value = { NamedPair };

    ghost view = { λ it. record { page = it.page; key = datum_seen it.key; names = it.names } };
}

impl<'a> MasterEntry<'a> {
    /// A live pair of a master, which names a page or none.
    fn of(forest: &Forest<'a>, pair: &HeldPair<'a>, names: Option<u32>) -> MasterEntry<'a>
        requires { FitsContent (file_of forest.now) (pair_held pair.now).key.content }
        ensures { result ≡ entry_of (file_of forest.now) names (pair_held pair.now) }
    {
        MasterEntry {
            page: pair.page,
            key: value_of(forest, &pair.key),
            names,
        }
    }

    /// The leaf that holds the pair.
    pub(crate) fn page(&self) -> u32
        ensures { result ≡ self.now.page }
    {
        self.page
    }

    /// The bytes of the key in a list of their own. An error means that memory ran out.
    pub fn name(&self, alloc: Global) -> Result<Bytes, AllocError>
        ensures { IfOk result (λ name. name ≡ self.now.key) }
    {
        self.key.copy(alloc)
    }

    /// The page that the pair names, if it names one.
    pub fn names(&self) -> Option<u32>
        ensures { result ≡ self.now.names }
    {
        self.names
    }
}

/// The metadata of the master of a file, if page 0 is a btree with the flag of subdatabases.
#[tactic(auto, using(crate::proofs::EntryLemmas::no_first, crate::proofs::EntryLemmas::other_first))]
pub fn master_of(linked: &Linked<'_>) -> Option<BtreeMeta>
    ensures { result ≡ master_in (page_at (file_of linked.now) 0) }
{
    if linked.metas() == 0 {
        return None;
    }
    let (number, meta) = linked.meta(0);
    if number != 0 {
        return None;
    }
    master_among(meta)
}

/// These fields, where they are of a btree with the flag of subdatabases.
pub fn master_among(meta: Meta) -> Option<BtreeMeta>
    ensures { result ≡ master_in (MetaPage (meta_seen meta)) }
{
    match meta {
        Meta::Btree(meta) if meta.names_databases() => Some(meta),
        _ => None,
    }
}

/// Adds the live ones of these pairs. An error means that memory ran out.
#[tactic(auto, using(crate::proofs::EntryLemmas::living_entries))]
fn push_live<'a>(
    alloc: Global,
    entries: &mut Vec<MasterEntry<'a>>,
    known: &mut NamedPages<'a>,
    pairs: HeldPairs<'a>,
) -> Result<(), AllocError>
    requires keyed { AreKeyed (file_of known.old) pairs }
    requires fits { AreFit (file_of known.old) (map (stored_as (file_of known.old)) pairs) }
    ensures { OnOk result (entries.new.items ≡ entries.old.items ++ live_entries (file_of known.old) pairs.entry) }
{
    let forest = known.forest();
    for pair in pairs {
        if !is_deleted(&pair.value) {
            let names = known.named_by(alloc, &pair.value)?;
            entries.push(MasterEntry::of(&forest, &pair, names))?;
        }
    }
    Ok(())
}

/// The live pairs of the master of a file, in order; none where it has no master. An error means that memory ran out.
#[tactic(auto, using(crate::proofs::EntryLemmas::entries_of_master, crate::proofs::EntryLemmas::no_entries))]
pub fn master_entries<'a>(
    alloc: Global,
    linked: &Linked<'a>,
) -> Result<Vec<MasterEntry<'a>>, AllocError>
    requires { structure_faults (file_of linked.now) ≡ [] }
    ensures { IfOk result (λ entries. entries.items ≡ master_entries (file_of linked.now)) }
{
    let mut entries = Vec::new(alloc);
    if let Some(meta) = master_of(linked) {
        let mut known = NamedPages::new(alloc, linked.forest());
        push_live(alloc, &mut entries, &mut known, pairs(linked, &meta))?;
    }
    Ok(entries)
}
