ghost use Rattle.std.specs.Prelude.{◌≡◌, ◌<◌, ◌++◌, ◌∷◌, [], IfOk, IfSome, OnOk, map};
ghost use Rattle.std.specs.List.{flat_map, fold};
ghost use Rattle.bdb_rescue.specs.Kept.{file_in};
ghost use Rattle.bdb_rescue.specs.of_format.Terms.{page_at};
ghost use Rattle.bdb_rescue.specs.of_image.Metas.{meta_seen};
ghost use Rattle.bdb_apart.specs.Found.{above_by, entries, found, found_under, meta_by, named_above, only_found, unnamed_above, with_found};
ghost use Rattle.bdb_apart.specs.Kept.{found_seen};
ghost use Rattle.bdb_apart.specs.Names.{AreNames, entry_found};

use crate::above::has_one;
use crate::holds::tree_meta;
use crate::name::Name;
use crate::names::names_of;
use crate::place::{At, Place};
use crate::queue::queue_of;
use bdb_homes::{Meta, PageHomes};
use bdb_rescue::{Datum, Salvaged};
use std::alloc::{AllocError, Global};
use std::collections::BTreeMap;

/// Adds a database, unless one has its name.
fn put_db<'s>(
    dbs: &mut BTreeMap<Name<'s>, At>,
    name: Name<'s>,
    meta: u32,
    fields: Meta,
) -> Result<(), AllocError>
    ensures { OnOk result (map entry_found dbs.new.entries ≡ with_found (map entry_found dbs.old.entries)
        (entry_found (name.entry, record { meta = meta; fields = fields }))) }
{
    if dbs.contains_key(&name) {
        return Ok(());
    }
    dbs.insert(name, At { meta, fields })?;
    Ok(())
}

/// Adds the database whose metadata stand on a page under the name that an entry gives it, or where none does under that of its page:
/// those that are named, or the others.
fn put_on<'s>(
    alloc: Global,
    dbs: &mut BTreeMap<Name<'s>, At>,
    page: u32,
    salvaged: &Salvaged<'_>,
    names: &[Option<Datum<'s>>],
    named: bool,
) -> Result<(), AllocError>
    requires names { AreNames (file_in salvaged.now).count names.now (entries (file_in salvaged.now)) }
    requires there { page < (file_in salvaged.now).count }
    ensures { OnOk result (map entry_found dbs.new.entries
        ≡ fold with_found (map entry_found dbs.old.entries) (meta_by named (file_in salvaged.now) (entries (file_in salvaged.now)) page)) }
{
    let name = &names[page as usize];
    if name.is_some() != named {
        return Ok(());
    }
    let Some(fields) = tree_meta(salvaged, page) else {
        return Ok(());
    };
    let name = match name {
        Some(name) => Name::key(name.again()),
        None => Name::page(alloc, page)?,
    };
    put_db(dbs, name, page, fields)
}

/// Adds the databases that entries name, or the others, page by page.
fn put_all<'s>(
    alloc: Global,
    dbs: &mut BTreeMap<Name<'s>, At>,
    salvaged: &Salvaged<'_>,
    names: &[Option<Datum<'s>>],
    named: bool,
) -> Result<(), AllocError>
    requires { AreNames (file_in salvaged.now).count names.now (entries (file_in salvaged.now)) }
    ensures { OnOk result (map entry_found dbs.new.entries
        ≡ fold with_found (map entry_found dbs.old.entries) (above_by named (file_in salvaged.now))) }
{
    for page in 1..salvaged.pages().count() {
        put_on(alloc, dbs, page, salvaged, names, named)?;
    }
    Ok(())
}

/// The databases that stand beside each other, in the order of their names.
fn by_name<'s>(
    alloc: Global,
    salvaged: &'s Salvaged<'_>,
    homes: &PageHomes<'_>,
) -> Result<BTreeMap<Name<'s>, At>, AllocError>
    requires { homes.now ≡ file_in salvaged.now }
    ensures { IfOk result (λ dbs. map entry_found dbs.entries
        ≡ fold with_found [] (named_above (file_in salvaged.now) ++ unnamed_above (file_in salvaged.now))) }
{
    let names = names_of(alloc, salvaged, homes)?;
    let mut dbs = BTreeMap::new(alloc);
    put_all(alloc, &mut dbs, salvaged, &names, true)?;
    put_all(alloc, &mut dbs, salvaged, &names, false)?;
    Ok(dbs)
}

/// Databases as a list.
fn listed<'s>(alloc: Global, dbs: BTreeMap<Name<'s>, At>) -> Result<Vec<Place<'s>>, AllocError>
    ensures { IfOk result (λ places. map found_seen places.items ≡ map entry_found dbs.entry.entries) }
{
    let mut places = Vec::with_capacity(alloc, dbs.len())?;
    for (name, at) in dbs {
        places.push(Place {
            name: Some(name),
            meta: at.meta,
            fields: at.fields,
        })?;
    }
    Ok(places)
}

/// The only database, whose metadata stand on page 0.
fn only<'s>(alloc: Global, fields: Meta) -> Result<Vec<Place<'s>>, AllocError>
    ensures { IfOk result (λ places. map found_seen places.items ≡ only_found (meta_seen fields) ∷ []) }
{
    let mut places = Vec::new(alloc);
    places.push(Place {
        name: None,
        meta: 0,
        fields,
    })?;
    Ok(places)
}

/// The databases of a file that isn't a queue.
fn databases_under<'s>(
    alloc: Global,
    salvaged: &'s Salvaged<'_>,
    homes: &PageHomes<'_>,
) -> Result<Vec<Place<'s>>, AllocError>
    requires { homes.now ≡ file_in salvaged.now }
    ensures { IfOk result (λ places. map found_seen places.items ≡ found_under (file_in salvaged.now) (page_at (file_in salvaged.now) 0)) }
{
    if !has_one(salvaged) {
        return listed(alloc, by_name(alloc, salvaged, homes)?);
    }
    match tree_meta(salvaged, 0) {
        Some(fields) => only(alloc, fields),
        None => Ok(Vec::new(alloc)),
    }
}

/// The databases that are found.
#[tactic(auto, unfolding(crate::specs::Found::found))]
pub(crate) fn databases<'s>(
    alloc: Global,
    salvaged: &'s Salvaged<'_>,
    homes: &PageHomes<'_>,
) -> Result<Vec<Place<'s>>, AllocError>
    requires { homes.now ≡ file_in salvaged.now }
    ensures { IfOk result (λ places. map found_seen places.items ≡ found salvaged.now) }
{
    match queue_of(salvaged) {
        Some(meta) => only(alloc, Meta::Queue(meta)),
        None => databases_under(alloc, salvaged, homes),
    }
}
