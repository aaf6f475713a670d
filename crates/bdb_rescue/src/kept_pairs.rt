ghost use Rattle.std.specs.Prelude.{◌≡◌, ◌++◌, ◌+◌, ◌*◌, ◌^◌, ◌<◌, IfOk, OnOk, length};
ghost use Rattle.bdb_survey.specs.of_layout.Seen.{content_seen};
ghost use Rattle.std.specs.Option.{option_to_list};
ghost use Rattle.bdb_rescue.specs.Kept.{IsTable, data_places, kept_on, kept_pair, kept_pairs};
ghost use Rattle.bdb_survey.specs.Slots.{slots_seen};

use crate::kept::{DataPlace, KeptPair};
use crate::tables::{Table, push_some};
use bdb_survey::{Content, Slots, Survey, paired_slots};
use std::alloc::{AllocError, Global};

/// Where the data of a data item are, if they are whole.
fn data_place(survey: &Survey<'_>, content: &Content<'_>) -> Option<DataPlace>
    ensures { option_to_list result ≡ data_places survey.now (content_seen content.now) }
{
    match content {
        Content::Inline(_) | Content::Set(_) => Some(DataPlace::Here),
        Content::Overflow { head, total } => {
            if survey.is_whole(*head, *total) {
                Some(DataPlace::Here)
            } else {
                None
            }
        }
        Content::OffPage { root } => match survey.set_start(*root) {
            Some(leaf) => Some(DataPlace::Set { leaf }),
            None => None,
        },
    }
}

/// A pair of a page, if its key and its data are whole.
fn kept_pair(survey: &Survey<'_>, slots: &Slots<'_>, page: u32, index: u16) -> Option<KeptPair>
    requires there { 2 * index + 1 < length (slots_seen slots.now) }
    requires small { 2 * index + 1 < 2 ^ 16 }
    ensures { option_to_list result ≡ kept_pair survey.now page (slots_seen slots.now) index }
{
    if !survey.is_valued(&slots.content(2 * index)) {
        return None;
    }
    let place = data_place(survey, &slots.content(2 * index + 1))?;
    Some(KeptPair {
        page,
        index,
        live: !slots.is_deleted(2 * index + 1),
        place,
    })
}

/// Adds the pairs of a page whose key and data are whole.
fn keep_page(kept: &mut Vec<KeptPair>, survey: &Survey<'_>, page: u32) -> Result<(), AllocError>
    ensures { OnOk result (kept.new.items ≡ kept.old.items ++ kept_on survey.now page) }
{
    let Some(slots) = paired_slots(survey.pages().page(page)) else {
        return Ok(());
    };
    for index in 0..slots.count() / 2 {
        push_some(kept, kept_pair(survey, &slots, page, index))?;
    }
    Ok(())
}

/// The pairs of all pages whose key and data are whole, live or deleted, in the order of page and slot.
pub(crate) fn kept_pairs(alloc: Global, survey: &Survey<'_>) -> Result<Table<KeptPair>, AllocError>
    ensures pages { IfOk result (λ kept. IsTable (kept_on survey.now) survey.now.count kept.bounds.items kept.all.items) }
    ensures all { IfOk result (λ kept. kept.all.items ≡ kept_pairs survey.now) }
{
    let mut kept = Table::new(alloc)?;
    for page in 0..survey.pages().count() {
        keep_page(&mut kept.all, survey, page)?;
        kept.end_page()?;
    }
    Ok(kept)
}
