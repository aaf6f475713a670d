ghost use Rattle.std.specs.Prelude.{◌≡◌, None, OnOk, false, true};
ghost use Rattle.bdb_ranks.specs.of_format.Terms.{file_of};
ghost use Rattle.bdb_btree.specs.Held.{keys_seen, pair_held, stored_as};
ghost use Rattle.bdb_btree.specs.Runs.{next_key};
ghost use Rattle.bdb_ranks.specs.of_overflow.Datum.{FitsContent};
ghost use Rattle.bdb_ranks.specs.of_overflow.Held.{FitsAny};

use crate::held::HeldPair;
use bdb_ranks::{Held, Values, leaf_held};
use std::alloc::AllocError;

/// The order of keys, pair after pair: the last key, whether it was out of order, and whether none was so far.
#[derive(Drop)]
pub(crate) struct KeyOrder<'a> {
    before: Option<Held<'a>>,
    wrong: bool,
    ordered: bool,
}

impl<'a> KeyOrder<'a> {
    /// No pair yet.
    pub(crate) fn new() -> KeyOrder<'a>
        ensures { result ≡ record { before = None; wrong = false; ordered = true } }
    {
        KeyOrder {
            before: None,
            wrong: false,
            ordered: true,
        }
    }

    /// The next pair: its key has to be above that of the pair before it, unless it shares that. An error means that
    /// memory ran out.
    #[inline(always)]
    pub(crate) fn see(
        &mut self,
        known: &mut Values<'a>,
        pair: &HeldPair<'a>,
    ) -> Result<(), AllocError>
        requires before { FitsAny (file_of known.old) self.old.before }
        requires key { FitsContent (file_of known.old) (pair_held pair.now).key.content }
        ensures keys { OnOk result (keys_seen (file_of known.old) self.new
            ≡ next_key (keys_seen (file_of known.old) self.old) (stored_as (file_of known.old) (pair_held pair.now))) }
        ensures fits { OnOk result (FitsAny (file_of known.old) self.new.before) }
        ensures same { known.new ≡ known.old }
    {
        let key = leaf_held(&pair.key);
        self.wrong = !pair.shares && known.is_not_above(self.before, key)?;
        if self.wrong {
            self.ordered = false;
        }
        self.before = Some(key);
        Ok(())
    }

    /// Whether the last pair was out of order.
    pub(crate) fn is_wrong(&self) -> bool
        ensures { result ≡ self.now.wrong }
    {
        self.wrong
    }

    /// Whether no pair was out of order.
    pub(crate) fn is_ordered(&self) -> bool
        ensures { result ≡ self.now.ordered }
    {
        self.ordered
    }
}
