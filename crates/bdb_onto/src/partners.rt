ghost use Rattle.std.specs.Prelude.{◌≡◌, option_copied};
ghost use Rattle.std.specs.List.{find};
ghost use Rattle.bdb_onto.specs.Onto.{is_misnamed, partner_of, settings_onto};
ghost use Rattle.bdb_onto.specs.Search.{AllNamed, HasNames, IsPlaceOf, NamesRise, at_place, has_name, order_of};

use crate::Base;
use bdb_format::Settings;
use bdb_mkfile::{Section, Sections, name_of};
use std::cmp::Ordering;

// The order of a database's name and a name.
fn order_of(database: &Section, name: &[u8]) -> Ordering
    ensures { result ≡ order_of name.now database.now }
{
    name_of(database).cmp(name)
}

// The place of the database of a name among databases in the order of their names.
fn place_named(databases: &Sections, name: &[u8]) -> Option<usize>
    requires rise { NamesRise databases.now }
    requires named { AllNamed databases.now }
    ensures { IsPlaceOf databases.now (find (has_name name.now) databases.now) result }
{
    databases
        .as_slice()
        .binary_search_by(|database| order_of(database, name))
        .ok()
}

/// Whether a section has a name and the base no master, or the other way round.
pub(crate) fn is_misnamed(base: &Base, section: &Section) -> bool
    ensures { result ≡ is_misnamed base.now section.now }
{
    section.name.is_some() != base.master
}

/// The place in a base of the database that a section is loaded onto, where there is one, by halving: names ascend under a master, and without one there is one
/// database.
pub fn place_of(base: &Base, section: &Section) -> Option<usize>
    requires { HasNames base.now }
    ensures { IsPlaceOf base.now.databases (partner_of base.now section.now) result }
{
    if is_misnamed(base, section) {
        return None;
    }
    match &section.name {
        Some(name) => place_named(&base.databases, name.as_slice()),
        None if base.databases.is_empty() => None,
        None => Some(0),
    }
}

/// The database that stands at a place, where there is one.
pub(crate) fn at_place(base: &Base, place: Option<usize>) -> Option<&Section>
    ensures { option_copied result ≡ at_place base.now.databases place }
{
    base.databases.get(place?)
}

/// The settings of a section on a base, where this is its partner.
pub(crate) fn settings_onto(base: &Base, section: &Section, partner: Option<&Section>) -> Settings
    requires { option_copied partner ≡ partner_of base.now section.now }
    ensures { result ≡ settings_onto base.now section.now }
{
    let settings = match partner {
        Some(partner) => partner.settings,
        None => section.settings,
    };
    Settings {
        page_size: base.page_size,
        order: base.order,
        ..settings
    }
}
