ghost use Rattle.std.specs.Prelude.{◌≡◌, if◌then◌else◌, false, [], None, OnOk};
ghost use Rattle.std.specs.List.{fold};
ghost use Rattle.bdb_btree.specs.Held.{pair_held, run_seen, stored_as};
ghost use Rattle.bdb_btree.specs.Pairs.{FitsPair, FitsSet};
ghost use Rattle.bdb_btree.specs.Runs.{follow, next_data};
ghost use Rattle.bdb_ranks.specs.of_overflow.Datum.{FitsContent};
ghost use Rattle.bdb_ranks.specs.of_overflow.Held.{FitsAny, FitsHeld, value_held};
ghost use Rattle.bdb_ranks.specs.of_layout.Seen.{leaf_item_seen};
ghost use Rattle.bdb_ranks.specs.of_format.Terms.{Tree, data_of, file_of, structure_faults};
ghost use Rattle.bdb_ranks.specs.of_image.Linked.{FitsDupRoot};

use crate::held::HeldPair;
use bdb_ranks::{Held, LeafItem, Values, is_deleted, leaf_held, tree_entries};
use std::alloc::AllocError;

/// Values that ought to ascend: the last one, and whether some value wasn't above the one before it.
#[derive(Drop)]
pub(crate) struct Ascent<'a> {
    last: Option<Held<'a>>,
    broken: bool,
}

impl<'a> Ascent<'a> {
    /// The next value. An error means that memory ran out.
    fn follow(&mut self, known: &mut Values<'a>, value: Held<'a>) -> Result<(), AllocError>
        requires last { FitsAny (file_of known.old) self.old.last }
        requires value { FitsHeld (file_of known.old) value }
        ensures run { OnOk result (run_seen (file_of known.old) self.new
            ≡ follow (run_seen (file_of known.old) self.old) (value_held (file_of known.old) value.entry)) }
        ensures fits { OnOk result (FitsAny (file_of known.old) self.new.last) }
        ensures same { known.new ≡ known.old }
    {
        if known.is_not_above(self.last, value)? {
            self.broken = true;
        }
        self.last = Some(value);
        Ok(())
    }
}

impl<'a> Ascent<'a> {
    /// No value yet.
    pub(crate) fn new() -> Ascent<'a>
        ensures { result ≡ record { last = None; broken = false } }
    {
        Ascent {
            last: None,
            broken: false,
        }
    }

    /// No value yet, or the last one of the run before.
    fn begin(&mut self, goes_on: bool)
        ensures { self.new ≡ record { last = if goes_on then self.old.last else None; broken = false } }
    {
        if !goes_on {
            self.last = None;
        }
        self.broken = false;
    }

    /// The data of a set off the page, the live ones of its entries.
    fn see_set(&mut self, known: &mut Values<'a>, root: u32) -> Result<(), AllocError>
        requires last { FitsAny (file_of known.old) self.old.last }
        requires root { FitsDupRoot (file_of known.old) root }
        requires stage { structure_faults (file_of known.old) ≡ [] }
        ensures run { OnOk result (run_seen (file_of known.old) self.new
            ≡ fold follow (run_seen (file_of known.old) self.old) (data_of (file_of known.old) (Tree root))) }
        ensures fits { OnOk result (FitsAny (file_of known.old) self.new.last) }
        ensures same { known.new ≡ known.old }
    {
        for entry in tree_entries(&known.forest(), root) {
            if !is_deleted(&entry) {
                self.follow(known, leaf_held(&entry))?;
            }
        }
        Ok(())
    }

    /// The data of a data item.
    #[tactic(auto, unfolding(crate::specs::Below::data_of, crate::specs::Below::value_of))]
    fn see_content(&mut self, known: &mut Values<'a>, item: &LeafItem<'a>) -> Result<(), AllocError>
        requires last { FitsAny (file_of known.old) self.old.last }
        requires content { FitsContent (file_of known.old) (leaf_item_seen item.now).content }
        requires set { FitsSet (file_of known.old) (leaf_item_seen item.now).content }
        requires stage { structure_faults (file_of known.old) ≡ [] }
        ensures run { OnOk result (run_seen (file_of known.old) self.new
            ≡ fold follow (run_seen (file_of known.old) self.old) (data_of (file_of known.old) (leaf_item_seen item.now).content)) }
        ensures fits { OnOk result (FitsAny (file_of known.old) self.new.last) }
        ensures same { known.new ≡ known.old }
    {
        match *item {
            LeafItem::Duplicates { root, .. } => self.see_set(known, root),
            LeafItem::Inline { bytes, .. } => self.follow(known, Held::Inline(bytes)),
            LeafItem::Overflow { head, .. } => self.follow(known, Held::Chained(head)),
        }
    }
}

impl<'a> Ascent<'a> {
    /// The live data of the next pair: they have to ascend, and where it shares its key to follow those before. An error
    /// means that memory ran out.
    pub(crate) fn see(
        &mut self,
        known: &mut Values<'a>,
        pair: &HeldPair<'a>,
    ) -> Result<(), AllocError>
        requires last { FitsAny (file_of known.old) self.old.last }
        requires fits { FitsPair (file_of known.old) (stored_as (file_of known.old) (pair_held pair.now)) }
        requires stage { structure_faults (file_of known.old) ≡ [] }
        ensures run { OnOk result (run_seen (file_of known.old) self.new
            ≡ next_data (file_of known.old) (run_seen (file_of known.old) self.old) (stored_as (file_of known.old) (pair_held pair.now))) }
        ensures fits { OnOk result (FitsAny (file_of known.old) self.new.last) }
        ensures same { known.new ≡ known.old }
    {
        self.begin(pair.shares);
        if !is_deleted(&pair.value) {
            self.see_content(known, &pair.value)?;
        }
        Ok(())
    }

    /// Whether some value of the last pair wasn't above the one before it.
    pub(crate) fn is_broken(&self) -> bool
        ensures { result ≡ self.now.broken }
    {
        self.broken
    }
}
