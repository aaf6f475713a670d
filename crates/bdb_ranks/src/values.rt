ghost use Rattle.std.specs.Prelude.{◌≡◌, IfOk, IfSome, List, ℕ};
ghost use Rattle.std.specs.Option.{option_map};
ghost use Rattle.bdb_tree.specs.of_format.Terms.{file_of, less};
ghost use Rattle.bdb_tree.specs.of_image.Linked.{FitsChain};
ghost use Rattle.bdb_tree.specs.of_overflow.Held.{FitsAny, FitsHeld, chain_value, value_held};
ghost use Rattle.bdb_ranks.specs.Order.{is_not_above};
ghost use Rattle.bdb_ranks.specs.Ranks.{AreRanks};

use crate::ranking::ranks_of;
use bdb_tree::{Forest, Held, Values as OwnValues, compare, is_shared};
use std::alloc::{AllocError, Global};
use std::cmp::Ordering;
use std::collections::BTreeMap;
use std::marker::Model;

/// The values of one file, to be compared. Chains that several items may name are ranked by one sort, once two of them are compared:
/// from then on their ranks tell.
#[derive(Drop)]
pub struct Values<'a> {
    alloc: Global,
    values: OwnValues<'a>,
    // The ranks of shared chains by their heads.
    ranks: Option<BTreeMap<u32, usize>>,
}

impl<'a> Model for Values<'a> {
    ghost use Rattle.std.specs.Option.{ForSome};
    ghost use Rattle.std.specs.Prelude.{List, ℕ};
    ghost use Rattle.bdb_ranks.specs.Ranks.{AreRanks};

    ghost Value = { List ℕ };

    ghost view = { λ v. v.values };

    ghost invariant = { λ v. ForSome v.ranks (AreRanks v.values) };
}

/// Whether bytes of pages are less than others.
#[inline(always)]
#[tactic(auto, using(crate::proofs::Below::is_less))]
fn is_less_bytes(a: &[u8], b: &[u8]) -> bool
    ensures { result ≡ less a.now b.now }
{
    matches!(compare(a, b), Ordering::Less)
}

impl<'a> Values<'a> {
    /// Nothing was found yet.
    pub fn new(alloc: Global, forest: Forest<'a>) -> Values<'a>
        ensures { result ≡ forest.entry }
    {
        Values {
            alloc,
            values: OwnValues::new(alloc, forest),
            ranks: None,
        }
    }

    /// A handle to their file.
    pub fn forest(&self) -> Forest<'a>
        ensures { result ≡ self.now }
    {
        self.values.forest()
    }

    /// Whether a value is less than another. Most lie on their pages, and are compared without a look at what is known. Chains that are shared are
    /// compared by their ranks. An error means that memory ran out, for these and for chains that begin with a blank page.
    #[inline(always)]
    pub fn is_less(&mut self, a: Held<'_>, b: Held<'_>) -> Result<bool, AllocError>
        requires first { FitsHeld (file_of self.old) a }
        requires second { FitsHeld (file_of self.old) b }
        ensures less { IfOk result (λ is. is ≡ less (value_held (file_of self.old) a.entry) (value_held (file_of self.old) b.entry)) }
        ensures same { self.new ≡ self.old }
    {
        match (a, b) {
            (Held::Inline(a), Held::Inline(b)) => Ok(is_less_bytes(a, b)),
            (Held::Chained(a), Held::Chained(b)) => self.is_less_chain(a, b),
            _ => self.values.is_less(a, b),
        }
    }

    /// Whether a value isn't above the one before it, where there is one. An error means that memory ran out, as above.
    #[inline(always)]
    pub fn is_not_above(
        &mut self,
        before: Option<Held<'_>>,
        value: Held<'_>,
    ) -> Result<bool, AllocError>
        requires before { FitsAny (file_of self.old) before }
        requires value { FitsHeld (file_of self.old) value }
        ensures above { IfOk result (λ is. is ≡ is_not_above (option_map (value_held (file_of self.old)) before.entry)
            (value_held (file_of self.old) value.entry)) }
        ensures same { self.new ≡ self.old }
    {
        match before {
            Some(before) => {
                let is_below = self.is_less(before, value)?;
                Ok(!is_below)
            }
            None => Ok(false),
        }
    }

    /// The same of two chains.
    fn is_less_chain(&mut self, a: u32, b: u32) -> Result<bool, AllocError>
        requires first { FitsChain (file_of self.old) a }
        requires second { FitsChain (file_of self.old) b }
        ensures less { IfOk result (λ is. is ≡ less (chain_value (file_of self.old) a) (chain_value (file_of self.old) b)) }
        ensures same { self.new ≡ self.old }
    {
        if a != b && is_shared(&self.values.forest(), a) && is_shared(&self.values.forest(), b) {
            return self.is_less_by_rank(a, b);
        }
        self.values.is_less(Held::Chained(a), Held::Chained(b))
    }

    /// The same of two chains that are shared.
    fn is_less_by_rank(&mut self, a: u32, b: u32) -> Result<bool, AllocError>
        requires first { FitsChain (file_of self.old) a }
        requires second { FitsChain (file_of self.old) b }
        ensures less { IfOk result (λ is. is ≡ less (chain_value (file_of self.old) a) (chain_value (file_of self.old) b)) }
        ensures same { self.new ≡ self.old }
    {
        self.rank()?;
        match self.is_less_ranked(a, b) {
            Some(is) => Ok(is),
            None => self.values.is_less(Held::Chained(a), Held::Chained(b)),
        }
    }

    /// Ranks the chains that are shared, unless they are ranked. An error means that memory ran out.
    fn rank(&mut self) -> Result<(), AllocError>
        ensures { self.new ≡ self.old }
    {
        if self.ranks.is_none() {
            let ranks = ranks_of(self.alloc, &self.values.forest())?;
            self.ranks = Some(ranks);
        }
        Ok(())
    }

    /// Whether the first of two chains is less, by their ranks, if both have one.
    fn is_less_ranked(&self, a: u32, b: u32) -> Option<bool>
        ensures { IfSome result (λ is. is ≡ less (chain_value (file_of self.now) a) (chain_value (file_of self.now) b)) }
    {
        match &self.ranks {
            Some(ranks) => is_less_among(ranks, a, b),
            None => None,
        }
    }
}

/// The same by these ranks.
fn is_less_among(ranks: &BTreeMap<u32, usize>, a: u32, b: u32) -> Option<bool>
    ensures { IfSome result (λ is. (image : List ℕ) → AreRanks image ranks.now → is ≡ less (chain_value (file_of image) a) (chain_value (file_of image) b)) }
{
    match (ranks.get(&a), ranks.get(&b)) {
        (Some(first), Some(second)) => Some(*first < *second),
        _ => None,
    }
}
