ghost use Rattle.std.specs.Prelude.{◌≡◌, ◌≤◌, ◌+◌, ◌^◌, [], ◌∷◌, IfErr, IfOk, None, OnOk, length};
ghost use Rattle.bdb_check.specs.of_any_order.AnyOrder.{faults_by_rows};
ghost use Rattle.bdb_file.specs.Whole.{IsVerdictOf};
ghost use Rattle.bdb_check.specs.of_faults.Refusals.{IsAllOf};
ghost use Rattle.bdb_check.specs.of_format.Terms.{faults_in, faults_of, file_of, verdict_of};

use crate::{Readable, Rows, Sound};
use bdb_check::{
    AllError, First, Formed, Judge, NamedList, Steps, Verdict, entries_by, first_verdict, link_by,
    open_by,
};
use bdb_databases::databases_of;
use std::alloc::Global;
use std::sync::ledger::Ledger;

/// A formed image as a readable file, or a refusal by the rows that count.
#[tactic(auto, using(crate::proofs::VerdictLemmas::whole_verdict))]
fn readable<'a, J: Judge + Drop, L: Ledger>(
    alloc: Global,
    formed: Formed<'a>,
    rows: Rows,
    steps: &mut Steps<L>,
) -> Result<Readable<'a>, J::Refusal>
    requires { faults_in (1 ∷ 2 ∷ []) formed ≡ [] }
    ensures readable { IfOk result (λ readable. readable ≡ formed.entry) }
    ensures accepted { OnOk result (faults_by_rows rows formed.entry ≡ []) }
    ensures refusal { IfErr result (J.refuses (faults_by_rows rows formed.entry)) }
    ensures cost { steps.new ≤ steps.old + ((file_of formed.entry).last + 1) }
{
    let linked = link_by::<J, L>(alloc, formed, steps)?;
    let entries = entries_by::<J>(alloc, &linked, rows)?;
    match databases_of(alloc, &linked, &entries) {
        Ok(databases) => Ok(Readable::over(linked, databases)),
        Err(_) => Err(J::memory()),
    }
}

/// Opens an image as a file whose databases can be read: `rows` says which rows of the fault table count. A refusal is what the judge makes of the
/// rows that count and hold, of the first of the eight stages in which one does, unsupported cases among them; or memory ran out. It takes at most as
/// many steps as the image has whole pages.
#[tactic(auto, using(crate::proofs::VerdictLemmas::whole_pages))]
pub fn verify_by<'a, J: Judge + Drop, L: Ledger>(
    alloc: Global,
    image: &'a [u8],
    rows: Rows,
    steps: &mut Steps<L>,
) -> Result<Readable<'a>, J::Refusal>
    requires { length image.now ≤ 2 ^ 30 }
    ensures readable { IfOk result (λ readable. readable ≡ image.now) }
    ensures accepted { OnOk result (faults_by_rows rows image.now ≡ []) }
    ensures refusal { IfErr result (J.refuses (faults_by_rows rows image.now)) }
    ensures cost { steps.new ≤ steps.old + (file_of image.now).count }
{
    let formed = open_by::<J>(alloc, image)?;
    readable::<J, L>(alloc, formed, rows, steps)
}

/// Opens an image as a sound file: as `verify_by`, where all rows count. It is refused with what the judge makes of the rows that hold, or because
/// memory ran out.
#[tactic(auto, using(crate::proofs::RowsLemmas::all_accepted))]
pub fn sound_by<'a, J: Judge + Drop, L: Ledger>(
    alloc: Global,
    image: &'a [u8],
    steps: &mut Steps<L>,
) -> Result<Sound<'a>, J::Refusal>
    requires { length image.now ≤ 2 ^ 30 }
    ensures sound { IfOk result (λ sound. sound ≡ image.now) }
    ensures accepted { OnOk result (faults_of image.now ≡ []) }
    ensures refusal { IfErr result (J.refuses (faults_of image.now)) }
    ensures cost { steps.new ≤ steps.old + (file_of image.now).count }
{
    let readable = verify_by::<J, L>(alloc, image, Rows::All, steps)?;
    Ok(Sound::over(readable))
}

/// Opens an image as a sound file. An error is its verdict: the least page, and there the least row, of the first stage in which a row holds, or the
/// unsupported case. `Memory` means that memory ran out.
#[tactic(auto, using(crate::proofs::RowsLemmas::none_judged, crate::proofs::RowsLemmas::first_told))]
pub fn verify<'a, L: Ledger>(
    alloc: Global,
    image: &'a [u8],
    steps: &mut Steps<L>,
) -> Result<Sound<'a>, Verdict>
    requires { length image.now ≤ 2 ^ 30 }
    ensures sound { IfOk result (λ sound. sound ≡ image.now) }
    ensures accepted { OnOk result (verdict_of image.now ≡ None) }
    ensures refusal { IfErr result (IsVerdictOf image.now) }
    ensures cost { steps.new ≤ steps.old + (file_of image.now).count }
{
    match sound_by::<First, L>(alloc, image, steps) {
        Ok(sound) => Ok(sound),
        Err(error) => Err(first_verdict(error)),
    }
}

/// Opens an image as a sound file. An error is the list of all faults of the first stage that has one, by page and then by row, each once. `Memory`
/// means that memory ran out; the list takes at most 24 bytes for each fault.
pub fn verify_all<'a, L: Ledger>(
    alloc: Global,
    image: &'a [u8],
    steps: &mut Steps<L>,
) -> Result<Sound<'a>, AllError>
    requires { length image.now ≤ 2 ^ 30 }
    ensures sound { IfOk result (λ sound. sound ≡ image.now) }
    ensures accepted { OnOk result (faults_of image.now ≡ []) }
    ensures refusal { IfErr result (IsAllOf (faults_of image.now)) }
    ensures cost { steps.new ≤ steps.old + (file_of image.now).count }
{
    sound_by::<NamedList, L>(alloc, image, steps)
}
