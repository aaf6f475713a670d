ghost use Rattle.std.specs.Prelude.{◌≡◌, [], IfOk};
ghost use Rattle.bdb_ranks.specs.of_format.Terms.{Tree, ascends, data_of, file_of, structure_faults};
ghost use Rattle.bdb_ranks.specs.of_image.Linked.{FitsDupRoot};
ghost use Rattle.bdb_buckets.specs.Chained.{chain_value};
ghost use Rattle.bdb_hash.specs.Passed.{key_hash};

use crate::set_order::set_ascends;
use bdb_buckets::{Pair, hash_of};
use bdb_ranks::{Forest, Values, is_shared};
use std::alloc::{AllocError, Global};
use std::collections::BTreeMap;
use std::marker::Model;

/// What was found of the chains of one file. The hashes of keys that are chains and shared are kept by their heads: each is found
/// once, however many pairs and tables name it. So is what was found where data were compared.
#[derive(Drop)]
pub struct Chains<'a> {
    values: Values<'a>,
    hashes: BTreeMap<u32, u32>,
}

impl<'a> Model for Chains<'a> {
    ghost use Rattle.std.specs.Prelude.{List, ℕ};
    ghost use Rattle.bdb_buckets.specs.Chained.{AreHashes};

    ghost Value = { List ℕ };

    ghost view = { λ v. v.values };

    ghost invariant = { λ v. AreHashes v.values v.hashes };
}

impl<'a> Chains<'a> {
    /// Nothing was found yet.
    pub fn new(alloc: Global, forest: Forest<'a>) -> Chains<'a>
        ensures { result ≡ forest.entry }
    {
        Chains {
            values: Values::new(alloc, forest),
            hashes: BTreeMap::new(alloc),
        }
    }

    /// The hash of the key of a pair. An error means that memory ran out, for a chain that is shared.
    #[tactic(auto, using(bdb_buckets::proofs::HeadLemmas::chain_key))]
    #[inline(always)]
    pub(crate) fn hash_of(&mut self, pair: &Pair<'_>) -> Result<u32, AllocError>
        requires { pair.now.image ≡ self.old }
        ensures hash { IfOk result (λ hash. hash ≡ key_hash pair.now) }
        ensures same { self.new ≡ self.old }
    {
        match pair.head() {
            Some(head) if is_shared(&self.values.forest(), head) => self.hash_at(head, pair),
            _ => Ok(hash_of(pair.key())),
        }
    }

    /// The same, where the key is the chain with this head.
    fn hash_at(&mut self, head: u32, pair: &Pair<'_>) -> Result<u32, AllocError>
        requires pair { pair.now.image ≡ self.old }
        requires head { pair.now.pair.key ≡ chain_value pair.now.image head }
        ensures hash { IfOk result (λ hash. hash ≡ key_hash pair.now) }
        ensures same { self.new ≡ self.old }
    {
        if let Some(hash) = self.hashes.get(&head) {
            return Ok(*hash);
        }
        let hash = hash_of(pair.key());
        self.hashes.insert(head, hash)?;
        Ok(hash)
    }

    /// Whether the data of a set off the page ascend strictly. An error means that memory ran out, for chains that are shared or begin
    /// with a blank page.
    pub(crate) fn set_ascends(&mut self, root: u32) -> Result<bool, AllocError>
        requires root { FitsDupRoot (file_of self.old) root }
        requires stage { structure_faults (file_of self.old) ≡ [] }
        ensures ascends { IfOk result (λ is. is ≡ ascends (data_of (file_of self.old) (Tree root))) }
        ensures same { self.new ≡ self.old }
    {
        set_ascends(&mut self.values, root)
    }
}
