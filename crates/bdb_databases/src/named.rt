ghost use Rattle.std.specs.Prelude.{◌≡◌, ◌≤◌, ◌++◌, [], IfOk, OnOk, Some, option_copied};
ghost use Rattle.std.specs.Option.{ForSome};
ghost use Rattle.bdb_master.specs.Entries.{master_entries};
ghost use Rattle.bdb_databases.specs.Named.{entry_database};
ghost use Rattle.bdb_recno.specs.of_image.Metas.{meta_seen};
ghost use Rattle.bdb_recno.specs.of_format.Terms.{database_on, databases, file_of, is_name, master_faults, structure_faults};
ghost use Rattle.std.specs.List.{flat_map};

use bdb_master::{MasterEntry, master_of};
use bdb_recno::{Bytes, Linked, Meta};
use std::alloc::{AllocError, Global};
use std::marker::Model;

/// A database of a file: its name, where it has one, and its metadata.
#[derive(Drop)]
pub struct NamedMeta {
    name: Option<Bytes>,
    meta: Meta,
}

impl Model for NamedMeta {
    ghost use Rattle.bdb_recno.specs.of_image.Metas.{meta_seen};
    ghost use Rattle.bdb_recno.specs.of_format.Terms.{Database};

    ghost Value = { Database };

    ghost view = { λ it. record { name = it.name; fields = meta_seen it.meta } };
}

impl NamedMeta {
    pub(crate) fn name(&self) -> Option<&[u8]>
        ensures { option_copied result ≡ self.now.name }
    {
        match &self.name {
            Some(name) => Some(name.as_slice()),
            None => None,
        }
    }

    pub(crate) fn meta(&self) -> &Meta
        ensures { meta_seen result.now ≡ self.now.fields }
    {
        &self.meta
    }

    /// Whether it has this name; `None` asks for one that has no name.
    pub(crate) fn has_name(&self, name: Option<&[u8]>) -> bool
        ensures { result ≡ is_name (option_copied name.entry) self.now.name }
    {
        match (name, self.name()) {
            (None, None) => true,
            (Some(asked), Some(own)) => asked == own,
            _ => false,
        }
    }
}

/// Adds the database whose metadata is on a page up to the last one; nothing where that is no metadata page.
#[tactic(auto, using(crate::proofs::NamedLemmas::database_there, crate::proofs::NamedLemmas::no_database_there))]
fn push_on(
    databases: &mut Vec<NamedMeta>,
    linked: &Linked<'_>,
    name: Option<Bytes>,
    page: u32,
) -> Result<(), AllocError>
    requires { page ≤ (file_of linked.now).last }
    ensures { OnOk result (databases.new.items ≡ databases.old.items ++ database_on (file_of linked.now) name (Some page)) }
{
    let forest = linked.forest();
    if let Some(meta) = forest.meta(page) {
        databases.push(NamedMeta { name, meta })?;
    }
    Ok(())
}

/// Adds the database that an entry of the master names.
fn push_entry(
    alloc: Global,
    databases: &mut Vec<NamedMeta>,
    linked: &Linked<'_>,
    entry: &MasterEntry<'_>,
) -> Result<(), AllocError>
    requires { ForSome entry.now.names (λ page. page ≤ (file_of linked.now).last) }
    ensures { OnOk result (databases.new.items ≡ databases.old.items ++ entry_database (file_of linked.now) entry.now) }
{
    match entry.names() {
        Some(page) => push_on(databases, linked, Some(entry.name(alloc)?), page),
        None => Ok(()),
    }
}

/// The databases that the master of a file names, in the order of its list.
#[tactic(auto, using(crate::proofs::NamedLemmas::named_inside))]
fn push_named(
    alloc: Global,
    databases: &mut Vec<NamedMeta>,
    linked: &Linked<'_>,
    entries: &[MasterEntry<'_>],
) -> Result<(), AllocError>
    requires structure { structure_faults (file_of linked.now) ≡ [] }
    requires entries { entries.now ≡ master_entries (file_of linked.now) }
    requires master { master_faults (file_of linked.now) ≡ [] }
    ensures { OnOk result (databases.new.items
        ≡ databases.old.items ++ flat_map (entry_database (file_of linked.now)) (master_entries (file_of linked.now))) }
{
    // What it ensures: the pages are a forest.
    linked.head();
    for entry in entries {
        push_entry(alloc, databases, linked, entry)?;
    }
    Ok(())
}

/// The databases of a file without a fault of stages 6 and 7: those that its master names, in the order of its
/// list, or the one on page 0, which has no name. An error means that memory ran out.
#[tactic(auto, using(crate::proofs::NamedLemmas::all_named, crate::proofs::NamedLemmas::one_unnamed))]
pub fn databases_of(
    alloc: Global,
    linked: &Linked<'_>,
    entries: &[MasterEntry<'_>],
) -> Result<Vec<NamedMeta>, AllocError>
    requires structure { structure_faults (file_of linked.now) ≡ [] }
    requires entries { entries.now ≡ master_entries (file_of linked.now) }
    requires master { master_faults (file_of linked.now) ≡ [] }
    ensures { IfOk result (λ all. all.items ≡ databases (file_of linked.now)) }
{
    let mut databases = Vec::new(alloc);
    match master_of(linked) {
        Some(_) => push_named(alloc, &mut databases, linked, entries)?,
        None => push_on(&mut databases, linked, None, 0)?,
    }
    Ok(databases)
}
