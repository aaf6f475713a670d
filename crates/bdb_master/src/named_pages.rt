ghost use Rattle.std.specs.Prelude.{◌≡◌, IfOk};
ghost use Rattle.bdb_format.specs.Terms.{file_of, named_by, page_named};
ghost use Rattle.bdb_btree.specs.of_image.Linked.{FitsChain};
ghost use Rattle.bdb_btree.specs.of_layout.Seen.{leaf_item_seen};
ghost use Rattle.bdb_overflow.specs.Datum.{FitsContent};
ghost use Rattle.bdb_overflow.specs.Held.{chain_value};

use bdb_btree::{Forest, LeafItem, u32_at};
use bdb_format::Order;
use bdb_overflow::Held;
use std::alloc::{AllocError, Global};
use std::collections::BTreeMap;
use std::marker::Model;

/// The pages that the data of a master name. Of chains they are kept by their heads: each is read once, however many pairs have it.
#[derive(Drop)]
pub(crate) struct NamedPages<'a> {
    forest: Forest<'a>,
    chains: BTreeMap<u32, Option<u32>>,
}

impl<'a> Model for NamedPages<'a> {
    ghost use Rattle.std.specs.Prelude.{List, ℕ};
    ghost use Rattle.bdb_master.specs.Entries.{AreNamed};

    ghost Value = { List ℕ };

    ghost view = { λ v. v.forest };

    ghost invariant = { λ v. AreNamed v.forest v.chains };
}

/// The page that bytes name: four of them, the high end first.
#[tactic(auto, using(crate::proofs::EntryLemmas::named_by_four, crate::proofs::EntryLemmas::names_none))]
fn page_in(bytes: &[u8]) -> Option<u32>
    ensures { result ≡ page_named bytes.now }
{
    if bytes.len() != 4 {
        return None;
    }
    Some(u32_at(bytes, 0, Order::Big))
}

/// The page that a chain names. An error means that memory ran out.
#[tactic(auto, using(crate::proofs::EntryLemmas::names_none))]
fn page_in_chain(alloc: Global, forest: &Forest<'_>, head: u32) -> Result<Option<u32>, AllocError>
    requires { FitsChain (file_of forest.now) head }
    ensures { IfOk result (λ named. named ≡ page_named (chain_value (file_of forest.now) head)) }
{
    let value = Held::Chained(head).datum(forest);
    if !value.has_len(4) {
        return Ok(None);
    }
    let bytes = value.copy(alloc)?;
    Ok(page_in(bytes.as_slice()))
}

impl<'a> NamedPages<'a> {
    /// Nothing was read yet.
    pub(crate) fn new(alloc: Global, forest: Forest<'a>) -> NamedPages<'a>
        ensures { result ≡ forest.entry }
    {
        NamedPages {
            forest,
            chains: BTreeMap::new(alloc),
        }
    }

    /// A handle to their file.
    pub(crate) fn forest(&self) -> Forest<'a>
        ensures { result ≡ self.now }
    {
        self.forest.again()
    }

    /// The page that the data of a pair name; a set names none. An error means that memory ran out.
    #[tactic(auto, unfolding(crate::specs::Below::value_of))]
    pub(crate) fn named_by(
        &mut self,
        alloc: Global,
        item: &LeafItem<'a>,
    ) -> Result<Option<u32>, AllocError>
        requires { FitsContent (file_of self.old) (leaf_item_seen item.now).content }
        ensures named { IfOk result (λ named. named ≡ named_by (file_of self.old) (leaf_item_seen item.now).content) }
        ensures same { self.new ≡ self.old }
    {
        match *item {
            LeafItem::Inline { bytes, .. } => Ok(page_in(bytes)),
            LeafItem::Overflow { head, .. } => self.named_in_chain(alloc, head),
            LeafItem::Duplicates { .. } => Ok(None),
        }
    }

    /// The page that a chain names.
    fn named_in_chain(&mut self, alloc: Global, head: u32) -> Result<Option<u32>, AllocError>
        requires { FitsChain (file_of self.old) head }
        ensures named { IfOk result (λ named. named ≡ page_named (chain_value (file_of self.old) head)) }
        ensures same { self.new ≡ self.old }
    {
        if let Some(named) = self.chains.get(&head) {
            return Ok(*named);
        }
        let named = page_in_chain(alloc, &self.forest, head)?;
        self.chains.insert(head, named)?;
        Ok(named)
    }
}
