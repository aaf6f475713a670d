ghost use Rattle.std.specs.Prelude.{◌≡◌, ◌<◌, ◌∷◌, [], IfOk, if◌then◌else◌};
ghost use Rattle.std.specs.List.{filter, flat_map, range_with_len};
ghost use Rattle.bdb_rescue.specs.Kept.{file_in};
ghost use Rattle.bdb_rescue.specs.of_overflow.Datum.{datum_seen};
ghost use Rattle.bdb_apart.specs.Found.{entries, entries_on, entry_of, is_master_leaf};
ghost use Rattle.bdb_apart.specs.Names.{AreNames, AreNoted};

use crate::above::{has_master, meta_of};
use crate::entry::page_named;
use crate::holds::{PageKind, kind_of};
use bdb_homes::PageHomes;
use bdb_rescue::{Datum, SalvagePairs, Salvaged};
use std::alloc::{AllocError, Global};

/// Keeps the key of an entry that names a page, where it's the first.
fn note_name<'s>(names: &mut [Option<Datum<'s>>], page: u32, key: Datum<'s>)
    ensures { AreNoted names.old names.new ((datum_seen key.entry, page) ∷ []) }
{
    let at = page as usize;
    if at < names.len() && names[at].is_none() {
        names[at] = Some(key);
    }
}

/// Keeps the name that a pair gives to a page, if it gives one.
#[tactic(auto, using(crate::proofs::NameLemmas::none_noted))]
fn note_pair<'s>(names: &mut [Option<Datum<'s>>], key: Datum<'s>, value: &Datum<'s>)
    ensures { AreNoted names.old names.new (entry_of (datum_seen key.entry, datum_seen value.now)) }
{
    match page_named(value) {
        Some(page) => note_name(names, page, key),
        None => {}
    }
}

/// Keeps the names that pairs give to pages.
fn note_pairs<'s>(names: &mut [Option<Datum<'s>>], pairs: SalvagePairs<'s, '_>)
    ensures { AreNoted names.old names.new (flat_map entry_of pairs.entry) }
{
    for (key, value) in pairs {
        note_pair(names, key, &value);
    }
}

/// Whether a page is a leaf of pairs below page 0.
pub(crate) fn is_master_leaf(salvaged: &Salvaged<'_>, homes: &PageHomes<'_>, page: u32) -> bool
    requires homes { homes.now ≡ file_in salvaged.now }
    requires there { page < (file_in salvaged.now).count }
    ensures { result ≡ is_master_leaf (file_in salvaged.now) page }
{
    kind_of(&salvaged.pages().page(page)) == PageKind::Leaf && meta_of(homes.home(page)) == Some(0)
}

/// Keeps the names that a page gives to pages, if it's a leaf of a master.
#[tactic(auto, using(crate::proofs::NameLemmas::none_noted))]
fn note_page<'s>(
    names: &mut [Option<Datum<'s>>],
    salvaged: &'s Salvaged<'_>,
    homes: &PageHomes<'_>,
    page: u32,
)
    requires homes { homes.now ≡ file_in salvaged.now }
    requires there { page < (file_in salvaged.now).count }
    ensures { AreNoted names.old names.new (if is_master_leaf (file_in salvaged.now) page then entries_on (file_in salvaged.now) page else []) }
{
    if is_master_leaf(salvaged, homes, page) {
        note_pairs(names, salvaged.pairs_on(page));
    }
}

/// Keeps the names that the leaves of a master give to pages.
fn note_leaves<'s>(
    names: &mut [Option<Datum<'s>>],
    salvaged: &'s Salvaged<'_>,
    homes: &PageHomes<'_>,
)
    requires { homes.now ≡ file_in salvaged.now }
    ensures { AreNoted names.old names.new (flat_map (entries_on (file_in salvaged.now))
        (filter (is_master_leaf (file_in salvaged.now)) (range_with_len 0 (file_in salvaged.now).count))) }
{
    for page in 0..salvaged.pages().count() {
        note_page(names, salvaged, homes, page);
    }
}

/// No name for any page.
fn no_names<'s>(alloc: Global, count: u32) -> Result<Vec<Option<Datum<'s>>>, AllocError>
    ensures { IfOk result (λ names. AreNames count names.items []) }
{
    let mut names = Vec::with_capacity(alloc, count as usize)?;
    for _page in 0..count {
        names.push(None)?;
    }
    Ok(names)
}

/// The name that the first entry gives to each page, by page.
#[tactic(auto, using(crate::proofs::NameLemmas::are_names), unfolding(crate::specs::Found::entries))]
pub(crate) fn names_of<'s>(
    alloc: Global,
    salvaged: &'s Salvaged<'_>,
    homes: &PageHomes<'_>,
) -> Result<Vec<Option<Datum<'s>>>, AllocError>
    requires { homes.now ≡ file_in salvaged.now }
    ensures { IfOk result (λ names. AreNames (file_in salvaged.now).count names.items (entries (file_in salvaged.now))) }
{
    let mut names = no_names(alloc, salvaged.pages().count())?;
    if has_master(salvaged) {
        note_leaves(&mut names, salvaged, homes);
    }
    Ok(names)
}
