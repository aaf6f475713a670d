ghost use Rattle.std.specs.Prelude.{◌≡◌, IfOk};
ghost use Rattle.bdb_graph.specs.of_format.Terms.{file_of, less};
ghost use Rattle.bdb_graph.specs.of_image.Linked.{FitsChain};
ghost use Rattle.bdb_overflow.specs.Held.{FitsHeld, chain_value, value_held};

use crate::{Datum, Held, chain_pieces, is_less};
use bdb_graph::{Forest, PageView, compare};
use std::alloc::{AllocError, Global};
use std::cmp::Ordering;
use std::collections::BTreeMap;
use std::marker::Model;

/// The values of one file, to be compared, and what was found of their chains: two chains of which one may have several names
/// are compared once.
#[derive(Drop)]
pub struct Values<'a> {
    forest: Forest<'a>,
    // Whether the first of two chains is less, by their heads.
    found: BTreeMap<(u32, u32), bool>,
}

impl<'a> Model for Values<'a> {
    ghost use Rattle.std.specs.Prelude.{List, ℕ};
    ghost use Rattle.bdb_overflow.specs.Held.{AreFound};

    ghost Value = { List ℕ };

    ghost view = { λ v. v.forest };

    ghost invariant = { λ v. AreFound v.forest v.found };
}

/// Whether more than one item may name a chain. Where none else does, nothing is to be kept of it.
pub fn is_shared(forest: &Forest<'_>, head: u32) -> bool {
    if head > forest.head().last {
        return false;
    }
    match forest.page(head) {
        PageView::Overflow(page) => page.header().entries > 1,
        _ => false,
    }
}

/// Whether bytes of a page are less than others.
#[tactic(auto, using(crate::proofs::KeyLemmas::is_less))]
fn is_less_inline(a: &[u8], b: &[u8]) -> bool
    ensures { result ≡ less a.now b.now }
{
    matches!(compare(a, b), Ordering::Less)
}

impl<'a> Values<'a> {
    /// Nothing was found yet.
    pub fn new(alloc: Global, forest: Forest<'a>) -> Values<'a>
        ensures { result ≡ forest.entry }
    {
        Values {
            forest,
            found: BTreeMap::new(alloc),
        }
    }

    /// A handle to their file.
    pub fn forest(&self) -> Forest<'a>
        ensures { result ≡ self.now }
    {
        self.forest.again()
    }

    /// Whether a value is less than another. A chain isn't less than itself, which takes no look at its
    /// pages. An error means that memory ran out, for a chain that is shared. Most values are bytes of pages.
    pub fn is_less(&mut self, a: Held<'_>, b: Held<'_>) -> Result<bool, AllocError>
        requires first { FitsHeld (file_of self.old) a }
        requires second { FitsHeld (file_of self.old) b }
        ensures less { IfOk result (λ is. is ≡ less (value_held (file_of self.old) a.entry) (value_held (file_of self.old) b.entry)) }
        ensures same { self.new ≡ self.old }
    {
        match (a, b) {
            (Held::Inline(a), Held::Inline(b)) => Ok(is_less_inline(a, b)),
            (Held::Chained(a), Held::Chained(b)) => self.is_less_chain(a, b),
            (Held::Inline(a), Held::Chained(b)) => Ok(self.is_below_chain(a, b)),
            (Held::Chained(a), Held::Inline(b)) => Ok(self.is_chain_below(a, b)),
        }
    }

    /// The same of bytes of a page and a chain.
    fn is_below_chain(&self, a: &[u8], b: u32) -> bool
        requires { FitsChain (file_of self.now) b }
        ensures { result ≡ less a.now (chain_value (file_of self.now) b) }
    {
        let pieces = chain_pieces(&self.forest, b);
        is_less(&Datum::Inline(a), &Datum::Chained(pieces))
    }

    /// The same of a chain and bytes of a page.
    fn is_chain_below(&self, a: u32, b: &[u8]) -> bool
        requires { FitsChain (file_of self.now) a }
        ensures { result ≡ less (chain_value (file_of self.now) a) b.now }
    {
        let pieces = chain_pieces(&self.forest, a);
        is_less(&Datum::Chained(pieces), &Datum::Inline(b))
    }

    /// The same of two chains.
    #[tactic(auto, using(crate::proofs::Below::less_self))]
    fn is_less_chain(&mut self, a: u32, b: u32) -> Result<bool, AllocError>
        requires first { FitsChain (file_of self.old) a }
        requires second { FitsChain (file_of self.old) b }
        ensures less { IfOk result (λ is. is ≡ less (chain_value (file_of self.old) a) (chain_value (file_of self.old) b)) }
        ensures same { self.new ≡ self.old }
    {
        if a == b {
            return Ok(false);
        }
        if is_shared(&self.forest, a) || is_shared(&self.forest, b) {
            return self.is_less_once(a, b);
        }
        Ok(self.is_less_by_pages(a, b))
    }

    /// The same of two chains of which one may be named again.
    fn is_less_once(&mut self, a: u32, b: u32) -> Result<bool, AllocError>
        requires first { FitsChain (file_of self.old) a }
        requires second { FitsChain (file_of self.old) b }
        ensures less { IfOk result (λ is. is ≡ less (chain_value (file_of self.old) a) (chain_value (file_of self.old) b)) }
        ensures same { self.new ≡ self.old }
    {
        if let Some(is) = self.found.get(&(a, b)) {
            return Ok(*is);
        }
        let is = self.is_less_by_pages(a, b);
        self.found.insert((a, b), is)?;
        Ok(is)
    }

    /// The same of two chains, by their pages.
    fn is_less_by_pages(&self, a: u32, b: u32) -> bool
        requires first { FitsChain (file_of self.now) a }
        requires second { FitsChain (file_of self.now) b }
        ensures { result ≡ less (chain_value (file_of self.now) a) (chain_value (file_of self.now) b) }
    {
        let first = chain_pieces(&self.forest, a);
        let second = chain_pieces(&self.forest, b);
        is_less(&Datum::Chained(first), &Datum::Chained(second))
    }
}
