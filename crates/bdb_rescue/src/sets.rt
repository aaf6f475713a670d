ghost use Rattle.std.specs.Prelude.{◌≡◌, ◌+◌, ◌++◌, IfOk, OnOk, if◌then◌else◌, []};
ghost use Rattle.std.specs.List.{flat_map};
ghost use Rattle.bdb_text_format.specs.of_format.Terms.{chain};
ghost use Rattle.bdb_rescue.specs.Kept.{IsTable, set_from, values_on};
ghost use Rattle.bdb_rescue.specs.Marks.{Marks};
ghost use Rattle.bdb_survey.specs.Salvage.{set_starts};

use crate::kept::KeptValue;
use crate::kept_values::keep_leaf;
use crate::starts::is_marked;
use crate::tables::Table;
use bdb_survey::{RowPages, Survey};
use std::alloc::{AllocError, Global};

/// Adds the values of the set that begins at a page.
fn keep_set(kept: &mut Vec<KeptValue>, survey: &Survey<'_>, first: u32) -> Result<(), AllocError>
    ensures { OnOk result (kept.new.items ≡ kept.old.items ++ flat_map (values_on survey.now) (chain survey.now first)) }
{
    for leaf in RowPages::over(survey.pages().again(), first) {
        keep_leaf(kept, survey, leaf)?;
    }
    Ok(())
}

/// The same where one begins there.
fn keep_started(
    kept: &mut Vec<KeptValue>,
    survey: &Survey<'_>,
    page: u32,
    starts: bool,
) -> Result<(), AllocError>
    ensures { OnOk result (kept.new.items ≡ kept.old.items ++ (if starts then flat_map (values_on survey.now) (chain survey.now page) else [])) }
{
    if starts {
        return keep_set(kept, survey, page);
    }
    Ok(())
}

/// The whole values of the live entries of the whole sets of pairs, whose first leaves are marked: each set's together, in the order of first leaves. A
/// set is walked once, however many pairs name it.
pub(crate) fn set_table(
    alloc: Global,
    survey: &Survey<'_>,
    starts: &[bool],
) -> Result<Table<KeptValue>, AllocError>
    requires { Marks survey.now.count starts.now (set_starts survey.now) }
    ensures { IfOk result (λ table. IsTable (set_from survey.now) survey.now.count table.bounds.items table.all.items) }
{
    let mut sets = Table::new(alloc)?;
    for page in 0..survey.pages().count() {
        keep_started(&mut sets.all, survey, page, is_marked(starts, page))?;
        sets.end_page()?;
    }
    Ok(sets)
}
