ghost use Rattle.std.specs.Prelude.{◌≡◌, ◌++◌, ◌<◌, IfOk, OnOk, length};
ghost use Rattle.bdb_text_format.specs.of_format.Terms.{chain};
ghost use Rattle.std.specs.List.{flat_map};
ghost use Rattle.std.specs.Option.{option_to_list};
ghost use Rattle.bdb_rescue.specs.Kept.{IsTable, kept_value, loose_values, untaken_on, values_in, values_on};
ghost use Rattle.bdb_rescue.specs.Marks.{Marks};
ghost use Rattle.bdb_survey.specs.Salvage.{set_starts};
ghost use Rattle.bdb_survey.specs.Slots.{slots_seen};

use crate::kept::KeptValue;
use crate::starts::is_marked;
use crate::tables::{Table, push_some};
use bdb_survey::{Slots, Survey, entry_slots};
use std::alloc::{AllocError, Global};

/// The entry at a place, if it's live and has a whole value.
fn kept_value(survey: &Survey<'_>, slots: &Slots<'_>, page: u32, index: u16) -> Option<KeptValue>
    requires { index < length (slots_seen slots.now) }
    ensures { option_to_list result ≡ kept_value survey.now page (slots_seen slots.now) index }
{
    if slots.is_deleted(index) {
        return None;
    }
    if survey.is_valued(&slots.content(index)) {
        Some(KeptValue { page, index })
    } else {
        None
    }
}

/// Adds the live entries among some items that have a whole value.
fn keep_among(
    kept: &mut Vec<KeptValue>,
    survey: &Survey<'_>,
    slots: &Slots<'_>,
    page: u32,
) -> Result<(), AllocError>
    ensures { OnOk result (kept.new.items ≡ kept.old.items ++ values_in survey.now page (slots_seen slots.now)) }
{
    for index in 0..slots.count() {
        push_some(kept, kept_value(survey, slots, page, index))?;
    }
    Ok(())
}

/// The same of a leaf.
#[tactic(auto, unfolding(crate::specs::Kept::values_on))]
pub(crate) fn keep_leaf(
    kept: &mut Vec<KeptValue>,
    survey: &Survey<'_>,
    page: u32,
) -> Result<(), AllocError>
    ensures { OnOk result (kept.new.items ≡ kept.old.items ++ values_on survey.now page) }
{
    match entry_slots(survey.pages().page(page)) {
        Some(slots) => keep_among(kept, survey, &slots, page),
        None => Ok(()),
    }
}

/// The live entries that have a whole value, of all leaves of records and of sorted data that belong to no whole
/// set of a pair with a whole key, in the order of page and slot.
pub(crate) fn loose_values(
    alloc: Global,
    survey: &Survey<'_>,
    taken: &[bool],
) -> Result<Table<KeptValue>, AllocError>
    requires { Marks survey.now.count taken.now (flat_map (chain survey.now) (set_starts survey.now)) }
    ensures pages { IfOk result (λ kept. IsTable (untaken_on survey.now) survey.now.count kept.bounds.items kept.all.items) }
    ensures all { IfOk result (λ kept. kept.all.items ≡ loose_values survey.now) }
{
    let mut kept = Table::new(alloc)?;
    for page in 0..survey.pages().count() {
        if !is_marked(taken, page) {
            keep_leaf(&mut kept.all, survey, page)?;
        }
        kept.end_page()?;
    }
    Ok(kept)
}
