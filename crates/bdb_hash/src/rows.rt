ghost use Rattle.std.specs.Prelude.{◌≡◌, ◌&&◌, IfOk, OnOk, not};
ghost use Rattle.bdb_faults.specs.Notes.{Notes};
ghost use Rattle.bdb_hash.specs.Noted.{told_faults};
ghost use Rattle.bdb_ranks.specs.of_format.Terms.{HashFields, ascends, bucket, data_of, file_of, has_duplicates, is_duplicate, is_sorted};

use crate::Chains;
use bdb_buckets::{Data, Pair};
use bdb_faults::{FaultSink, note_if};
use bdb_ranks::{ContentsRow, HashMeta, Row, bucket_of, is_less};
use std::alloc::AllocError;

/// Whether data ascend strictly.
pub(crate) fn ascends(values: &mut Data<'_>) -> bool
    ensures { result ≡ ascends values.old }
{
    let Some(mut last) = values.next() else {
        return true;
    };
    for next in values {
        if !is_less(&last, &next) {
            return false;
        }
        last = next;
    }
    true
}

/// The bucket of a key with this hash.
pub(crate) fn home_of(meta: &HashMeta, hash: u32) -> u32
    ensures { result ≡ bucket hash meta.now.max_bucket meta.now.high_mask meta.now.low_mask }
{
    bucket_of(hash, meta.max_bucket, meta.high_mask, meta.low_mask)
}

/// Whether only another table may have a pair.
fn is_refused(meta: &HashMeta, pair: &Pair<'_>) -> bool
    ensures { result ≡ (not (has_duplicates (HashFields meta.now)) && is_duplicate pair.now.pair) }
{
    !meta.has_duplicates() && pair.is_duplicate()
}

/// Whether the data of a pair are out of order. An error means that memory ran out, for chains in a set off the page.
fn is_out_of_order(pair: Pair<'_>, known: &mut Chains<'_>) -> Result<bool, AllocError>
    requires { pair.image ≡ known.old }
    ensures order { IfOk result (λ is. is ≡ not (ascends (data_of (file_of pair.entry.image) pair.entry.pair.data_item))) }
    ensures same { known.new ≡ known.old }
{
    let ascends = match pair.set_root() {
        Some(root) => known.set_ascends(root)?,
        None => ascends(&mut pair.into_data()),
    };
    Ok(!ascends)
}

/// Whether the data of a pair are out of order in a table where they ascend. An error means that memory ran out, as above.
#[inline(always)]
fn is_unsorted(pair: Pair<'_>, meta: &HashMeta, known: &mut Chains<'_>) -> Result<bool, AllocError>
    requires { pair.image ≡ known.old }
    ensures order { IfOk result (λ is. is ≡ (is_sorted (HashFields meta.now) && not (ascends (data_of (file_of pair.entry.image) pair.entry.pair.data_item)))) }
    ensures same { known.new ≡ known.old }
{
    if !meta.is_sorted() {
        return Ok(false);
    }
    is_out_of_order(pair, known)
}

/// Notes each row that holds for a pair by itself, which is a stray or isn't. An error means that memory ran out: the sink's, or that for
/// chains in a set off the page.
#[inline(always)]
pub(crate) fn note_pair<F: FaultSink>(
    pair: Pair<'_>,
    meta: &HashMeta,
    is_stray: bool,
    known: &mut Chains<'_>,
    found: &mut F,
) -> Result<(), AllocError>
    requires { pair.image ≡ known.old }
    ensures noted { OnOk result (Notes (F.has_noted found.old) (F.has_noted found.new) (told_faults meta.now is_stray pair.entry)) }
    ensures same { known.new ≡ known.old }
{
    let page = pair.page();
    let is_refused = is_refused(meta, &pair);
    let is_wrong_set = pair.is_wrong_set(meta.is_sorted());
    let is_unsorted = is_unsorted(pair, meta, known)?;
    let duplicates = Row::Contents(ContentsRow::Duplicates);
    let kind = Row::Contents(ContentsRow::DuplicateKind);
    let order = Row::Contents(ContentsRow::DuplicateOrder);
    note_if(found, duplicates, page, is_refused)?;
    note_if(found, kind, page, is_wrong_set)?;
    note_if(found, order, page, is_unsorted)?;
    note_if(found, Row::Contents(ContentsRow::Bucket), page, is_stray)?;
    Ok(())
}
