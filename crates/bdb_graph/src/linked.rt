ghost use Rattle.std.specs.Prelude.{◌≡◌, ◌+◌, ◌^◌, ◌<◌, ◌≤◌, Some, None, length};
ghost use Rattle.std.specs.List.{slice_get};
ghost use Rattle.bdb_image.specs.of_form.Seen.{header_seen, page_seen};
ghost use Rattle.bdb_image.specs.Linked.{IsForest, FitsBucket, FitsChain, FitsDupRoot, FitsTreeRoot, HasMetadata, meta_pages};
ghost use Rattle.bdb_graph.specs.ChainLengths.{IsKept, chain_length};
ghost use Rattle.bdb_image.specs.Metas.{meta_seen};
ghost use Rattle.bdb_image.specs.of_format.Terms.{BtreeFields, HashFields, Meta as MetaPage, file_of, first_page, head_of, header_of, owners, page_at};
ghost use Rattle.bdb_image.specs.of_format.Terms.{page_bytes};

use crate::{Bucket, Chain, DupRoot, Forest, Meta, Ref, TreeRoot};
use bdb_image::{BtreeMeta, HashMeta, Head, PageView, page_of};
use std::marker::Model;

/// An image on which no row of the first five stages holds: its pages are a forest, whose roots its
/// metadata names.
pub struct Linked<'a> {
    forest: Forest<'a>,
    metas: Vec<u32>,
    // How many owners each page has. That of page 0 isn't asked for.
    owned: Vec<u32>,
    // The length of each chain that an item names, at its head; empty where no item names one.
    lengths: Vec<u32>,
}

impl Drop for Linked<'_> {
    fn drop(self) {
        let Linked {
            forest: _forest,
            metas: _metas,
            owned: _owned,
            lengths: _lengths,
        } = self;
    }
}

impl<'a> Model for Linked<'a> {
    ghost use Rattle.std.specs.Prelude.{List, ℕ};
    ghost use Rattle.bdb_graph.specs.ChainLengths.{IsKept};
    ghost use Rattle.bdb_image.specs.of_format.Terms.{file_of};

    ghost Value = { List ℕ };

    ghost view = { λ v. v.forest };

    ghost invariant = { λ v. IsKept (file_of v.forest) v.metas.items v.owned.items v.lengths.items };
}

impl<'a> Linked<'a> {
    // An image for which the stages are decided, with its metadata pages, the numbers of owners and the lengths of its chains.
    pub(crate) fn over(
        forest: Forest<'a>,
        metas: Vec<u32>,
        owned: Vec<u32>,
        lengths: Vec<u32>,
    ) -> Linked<'a>
        requires { IsKept (file_of forest) metas.items owned.items lengths.items }
        ensures { result ≡ forest.entry }
    {
        Linked {
            forest,
            metas,
            owned,
            lengths,
        }
    }

    /// A handle to its pages.
    pub fn forest(&self) -> Forest<'a>
        ensures { result ≡ self.now }
    {
        self.forest.again()
    }

    /// What page 0 says of the whole file.
    pub fn head(&self) -> Head
        ensures head { result ≡ head_of self.now }
        ensures last { result.last ≡ (file_of self.now).last }
        ensures few { result.last < 2 ^ 21 }
        ensures forest { IsForest self.now }
    {
        self.forest.head()
    }

    /// A page up to the last one, by its type.
    pub fn page(&self, number: u32) -> PageView<'a>
        requires { number ≤ (file_of self.now).last }
        ensures page { page_seen result ≡ page_at (file_of self.now) number }
        ensures header { header_seen result ≡ header_of (head_of self.now).order (page_bytes (head_of self.now) self.now number) }
        ensures forest { IsForest self.now }
    {
        self.forest.page(number)
    }

    /// How many metadata pages there are.
    #[tactic(auto, using(crate::proofs::LinkedLemmas::few_metas))]
    pub fn metas(&self) -> u32
        ensures metas { result ≡ length (meta_pages (file_of self.now)) }
        ensures forest { IsForest self.now }
    {
        prove!(self.metas.len() <= self.forest.head().last as usize + 1);
        self.metas.len() as u32
    }

    /// The number and the fields of a metadata page, by its place among them, from 0.
    #[tactic(auto, using(crate::proofs::LinkedLemmas::meta_inside, crate::proofs::LinkedLemmas::meta_there, bdb_image::proofs::MetaLemmas::is_fields))]
    pub fn meta(&self, i: u32) -> (u32, Meta)
        requires { i < length (meta_pages (file_of self.now)) }
        ensures number { slice_get (meta_pages (file_of self.now)) i ≡ Some result.0 }
        ensures inside { result.0 ≤ (file_of self.now).last }
        ensures fields { page_at (file_of self.now) result.0 ≡ MetaPage (meta_seen result.1) }
        ensures forest { IsForest self.now }
    {
        let number = self.metas[i as usize];
        match self.forest.meta(number) {
            Some(fields) => (number, fields),
            None => unreachable!(),
        }
    }

    /// The root of the tree of this metadata.
    #[tactic(auto, using(crate::proofs::LinkedLemmas::root_fits, crate::proofs::LinkedLemmas::root_inside))]
    pub fn root(&self, meta: &BtreeMeta) -> Ref<TreeRoot>
        requires { HasMetadata (file_of self.now) (BtreeFields meta.now) }
        ensures number { result ≡ meta.now.root }
        ensures fits { FitsTreeRoot (file_of self.now) result }
        ensures forest { IsForest self.now }
    {
        prove!(meta.root <= self.forest.head().last);
        Ref::at(meta.root)
    }

    /// The first page of a bucket of the table of this metadata.
    #[tactic(auto, using(crate::proofs::LinkedLemmas::bucket_fits, crate::proofs::LinkedLemmas::bucket_few, crate::proofs::LinkedLemmas::bucket_inside))]
    pub fn bucket(&self, meta: &HashMeta, b: u32) -> Ref<Bucket>
        requires meta { HasMetadata (file_of self.now) (HashFields meta.now) }
        requires bucket { b ≤ meta.now.max_bucket }
        ensures number { result ≡ first_page b meta.now.spares }
        ensures fits { FitsBucket (file_of self.now) result }
        ensures forest { IsForest self.now }
    {
        prove!(b <= self.forest.head().last);
        let page = page_of(b, &meta.spares);
        prove!(page <= u64::from(self.forest.head().last));
        Ref::at(page as u32)
    }

    /// The first page of a chain that an item names.
    pub fn chain(&self, head: u32) -> Ref<Chain>
        requires { FitsChain (file_of self.now) head }
        ensures { result ≡ head }
    {
        Ref::at(head)
    }

    /// How many bytes a chain has that an item names. It was counted once, however many items name it.
    pub fn chain_length(&self, head: u32) -> u32
        requires { FitsChain (file_of self.now) head }
        ensures { result ≡ chain_length (file_of self.now) head }
    {
        match self.lengths.get(head as usize) {
            Some(length) => *length,
            None => 0,
        }
    }

    /// How many owners a page above 0 has: the references to it, of all pages. They were counted when the image was linked.
    pub fn owners(&self, page: u32) -> u32
        requires above { 1 ≤ page }
        requires inside { page ≤ (file_of self.now).last }
        ensures { result ≡ length (owners (file_of self.now) page) }
    {
        match self.owned.get(page as usize) {
            Some(count) => *count,
            None => 0,
        }
    }

    /// The root of a tree of duplicates that an item names.
    pub fn dup_root(&self, root: u32) -> Ref<DupRoot>
        requires { FitsDupRoot (file_of self.now) root }
        ensures { result ≡ root }
    {
        Ref::at(root)
    }
}
