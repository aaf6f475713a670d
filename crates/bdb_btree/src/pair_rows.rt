ghost use Rattle.std.specs.Prelude.{◌≡◌, ◌&&◌, [], IfOk, OnOk, not};
ghost use Rattle.bdb_ranks.specs.of_image.Linked.{FitsTreeRoot};
ghost use Rattle.bdb_faults.specs.Notes.{Notes};
ghost use Rattle.bdb_ranks.specs.of_format.Terms.{File, file_of, is_duplicate, structure_faults, tree_pairs};
ghost use Rattle.bdb_ranks.specs.of_overflow.Datum.{FitsContent};
ghost use Rattle.bdb_btree.specs.Bounds.{OrderedIf};
ghost use Rattle.bdb_btree.specs.Held.{FitsPassed, pair_held, passed_seen, stored_as, without_key};
ghost use Rattle.bdb_btree.specs.Pairs.{FitsPair};
ghost use Rattle.bdb_btree.specs.Rows.{next_pair, no_pairs_passed, pair_faults, pairs_faults};

use crate::data_order::Ascent;
use crate::duplicates::{is_duplicate, is_wrong_set};
use crate::held::{HeldPair, tree_items};
use crate::order::KeyOrder;
use bdb_faults::{FaultSink, note_if};
use bdb_ranks::{ContentsRow, Forest, Row, Values};
use std::alloc::AllocError;

/// What a database lets its pairs be.
#[derive(Clone, Copy)]
pub(crate) struct Rules {
    /// Whether a key may have several values.
    pub(crate) duplicates: bool,
    /// Whether the values of a key ascend.
    pub(crate) sorted: bool,
}

/// What is kept of the pairs that have been gone through.
#[derive(Drop)]
struct Passed<'a> {
    keys: KeyOrder<'a>,
    values: Ascent<'a>,
}

/// Whether only another database may have a pair.
fn is_refused(rules: Rules, pair: &HeldPair<'_>) -> bool
    ensures { result ≡ (not rules.duplicates && is_duplicate (without_key (pair_held pair.now))) }
{
    !rules.duplicates && is_duplicate(pair)
}

impl<'a> Passed<'a> {
    /// No pair yet.
    fn new() -> Passed<'a>
        ensures none { (file : File) → passed_seen file result ≡ no_pairs_passed }
        ensures fits { (file : File) → FitsPassed file result }
    {
        Passed {
            keys: KeyOrder::new(),
            values: Ascent::new(),
        }
    }

    /// The next pair, in a database whose sets are sorted or not. An error means that memory ran out.
    #[inline(always)]
    fn see(
        &mut self,
        known: &mut Values<'a>,
        sorted: bool,
        pair: &HeldPair<'a>,
    ) -> Result<(), AllocError>
        requires passed { FitsPassed (file_of known.old) self.old }
        requires key { FitsContent (file_of known.old) (pair_held pair.now).key.content }
        requires fits { FitsPair (file_of known.old) (stored_as (file_of known.old) (pair_held pair.now)) }
        requires stage { structure_faults (file_of known.old) ≡ [] }
        ensures next { OnOk result (passed_seen (file_of known.old) self.new
            ≡ next_pair (file_of known.old) sorted (passed_seen (file_of known.old) self.old) (stored_as (file_of known.old) (pair_held pair.now))) }
        ensures passed { OnOk result (FitsPassed (file_of known.old) self.new) }
        ensures same { known.new ≡ known.old }
    {
        self.keys.see(known, pair)?;
        if sorted {
            self.values.see(known, pair)?;
        }
        Ok(())
    }

    /// Whether the data of the last pair are out of order, where they ought to be in order.
    fn is_unsorted(&self, sorted: bool) -> bool
        ensures { result ≡ (sorted && self.now.values.broken) }
    {
        sorted && self.values.is_broken()
    }

    /// Notes the rows on the last pair.
    #[inline(always)]
    fn note<F: FaultSink>(
        &self,
        forest: &Forest<'a>,
        rules: Rules,
        pair: &HeldPair<'a>,
        found: &mut F,
    ) -> Result<(), AllocError>
        requires { FitsPair (file_of forest.now) (stored_as (file_of forest.now) (pair_held pair.now)) }
        ensures { OnOk result (Notes (F.has_noted found.old) (F.has_noted found.new)
            (pair_faults (file_of forest.now) rules (passed_seen (file_of forest.now) self.now) (stored_as (file_of forest.now) (pair_held pair.now)))) }
    {
        note_if(
            found,
            Row::Contents(ContentsRow::Duplicates),
            pair.page,
            is_refused(rules, pair),
        )?;
        note_if(
            found,
            Row::Contents(ContentsRow::DuplicateKind),
            pair.page,
            is_wrong_set(forest, rules.sorted, pair),
        )?;
        note_if(
            found,
            Row::Contents(ContentsRow::KeyOrder),
            pair.page,
            self.keys.is_wrong(),
        )?;
        note_if(
            found,
            Row::Contents(ContentsRow::DuplicateOrder),
            pair.page,
            self.is_unsorted(rules.sorted),
        )?;
        Ok(())
    }
}

/// Notes the rows on the pairs of a btree: one walk over its leaves. It tells whether no key is out of order. An error is want
/// of memory, the sink's or that for chains that are shared.
pub(crate) fn note_pairs<F: FaultSink>(
    known: &mut Values<'_>,
    root: u32,
    rules: Rules,
    found: &mut F,
) -> Result<bool, AllocError>
    requires root { FitsTreeRoot (file_of known.old) root }
    requires stage { structure_faults (file_of known.old) ≡ [] }
    ensures noted { OnOk result (Notes (F.has_noted found.old) (F.has_noted found.new)
        (pairs_faults (file_of known.old) rules no_pairs_passed (tree_pairs (file_of known.old) root))) }
    ensures order { IfOk result (λ ordered. OrderedIf ordered (file_of known.old) root) }
    ensures same { known.new ≡ known.old }
{
    let forest = known.forest();
    // What it ensures: the pages are a forest.
    forest.head();
    let mut passed = Passed::new();
    for pair in tree_items(&forest, root) {
        passed.see(known, rules.sorted, &pair)?;
        passed.note(&forest, rules, &pair, found)?;
    }
    Ok(passed.keys.is_ordered())
}
