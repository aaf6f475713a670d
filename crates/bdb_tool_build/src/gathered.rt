//! Pairs of a database in the making. The value of a chain stands in their run once, however many items name it.
ghost use Rattle.std.specs.Prelude.{◌≡◌, ◌∷◌, ◌++◌, [], IfOk, IfSome, OnOk, true, map};
ghost use Rattle.bdb_file.specs.of_btree.Pairs.{FitsSet, stored_pair};
ghost use Rattle.bdb_file.specs.of_buckets.Told.{listed_told};
ghost use Rattle.bdb_file.specs.of_buckets.Views.{IsPair};
ghost use Rattle.bdb_model.specs.of_format.Terms.{Tree, data_of, file_of, listed_entry, listed_pair, structure_faults, value_of};
ghost use Rattle.bdb_onto.specs.Bases.{text_pair};
ghost use Rattle.bdb_ranks.specs.of_form.Pairs.{pair_seen as view_seen};
ghost use Rattle.bdb_ranks.specs.of_image.Linked.{FitsChain, FitsDupRoot};
ghost use Rattle.bdb_ranks.specs.of_layout.Seen.{hash_content_seen, leaf_item_seen};
ghost use Rattle.bdb_ranks.specs.of_overflow.Datum.{FitsContent};
ghost use Rattle.bdb_ranks.specs.of_overflow.Held.{FitsHeld, chain_value, value_held};
ghost use Rattle.bdb_ranks.specs.of_tree.Entries.{values_of};
ghost use Rattle.bdb_text_format.specs.of_places.Places.{span_in};
ghost use Rattle.bdb_text_format.specs.Terms.{HasChains, IsKeyPlaced, IsPiecePut, IsSpanOf, Keeps};
ghost use Rattle.bdb_onto.specs.Replaced.{IsReplaced};
ghost use Rattle.bdb_text_format.specs.Terms.{slice_seen};
ghost use Rattle.bdb_text_format.specs.declared.pairs.Key.TheVariants.{Bytes};
ghost use Rattle.bdb_tool_build.specs.Gathered.{Adds, AddsEnough, Grows, HasKey, with_key};

use crate::on_leaf::{BesideEntries, OnLeaf};
use bdb_file::{DupBlocks, HashItem, TablePair, bytes_in};
use bdb_model::{KeyRef, TextPairs};
use bdb_onto::Beside;
use bdb_ranks::{Forest, Held, LeafItem, Pair, is_deleted, leaf_held, tree_entries};
use bdb_text_format::{Gathered, PlacedKey, Span};
use std::alloc::{AllocError, Global};
use std::marker::Model;

/// Pairs of a database of an image, in the making.
#[derive(Drop)]
pub(crate) struct Gatherer<'a> {
    forest: Forest<'a>,
    pairs: Gathered,
    room: Vec<u8>,
}

impl<'a> Model for Gatherer<'a> {
    ghost use Rattle.bdb_model.specs.of_format.Terms.{file_of};
    ghost use Rattle.bdb_ranks.specs.of_overflow.Held.{chain_value};
    ghost use Rattle.bdb_text_format.specs.Terms.{HasChains};
    ghost use Rattle.bdb_tool_build.specs.Gathered.{ImageInHand};

    ghost Value = { ImageInHand };

    ghost view = { λ it. record { image = it.forest; gathered = it.pairs } };

    ghost invariant = { λ it. HasChains (chain_value (file_of it.forest)) it.pairs };
}

// Adds the value of the chain with this head, whose pieces are joined in a room.
fn put_chain(
    forest: &Forest<'_>,
    head: u32,
    room: &mut Vec<u8>,
    pairs: &mut Gathered,
) -> Result<Span, AllocError>
    requires { FitsChain (file_of forest.now) head }
    ensures kept { Keeps pairs.old.bytes pairs.new.bytes }
    ensures pairs { pairs.new.pairs ≡ pairs.old.pairs }
    ensures chains { HasChains (chain_value (file_of forest.now)) pairs.old → HasChains (chain_value (file_of forest.now)) pairs.new }
    ensures ok { IfOk result (IsPiecePut pairs.new.bytes (chain_value (file_of forest.now) head)) }
{
    let value = Held::Chained(head).datum(forest);
    let bytes = bytes_in(value, room)?;
    pairs.put_chain(head, bytes)
}

// Whether the datum of an item is a chain. Others are copied even where a section replaces them: together they have no more bytes than their pages.
fn is_chained(item: &LeafItem<'_>) -> bool {
    match item {
        LeafItem::Overflow { .. } => true,
        LeafItem::Inline { .. } | LeafItem::Duplicates { .. } => false,
    }
}

// Whether a section replaces the pairs of a key, whose bytes are joined in a room.
fn is_key_replaced<'a>(
    forest: &Forest<'a>,
    key: Held<'a>,
    room: &mut Vec<u8>,
    beside: &Beside<'_>,
) -> Result<bool, AllocError>
    requires { FitsHeld (file_of forest.now) key }
    ensures { IfOk result (λ is. is ≡ true
        → IsReplaced beside.now.settings (slice_seen beside.now.pairs) (Bytes (value_held (file_of forest.now) key.entry))) }
{
    if beside.is_idle() {
        return Ok(false);
    }
    let value = key.datum(forest);
    let bytes = bytes_in(value, room)?;
    Ok(beside.replaces(KeyRef::Bytes(bytes)))
}

#[tactic(auto, using(crate::proofs::GatheredLemmas::in_hand))]
impl<'a> Gatherer<'a> {
    /// No pairs yet.
    pub(crate) fn new(alloc: Global, forest: Forest<'a>) -> Result<Gatherer<'a>, AllocError>
        ensures image { IfOk result (λ it. it.image ≡ forest.entry) }
        ensures pairs { IfOk result (λ it. it.gathered.pairs ≡ []) }
    {
        Ok(Gatherer {
            forest,
            pairs: Gathered::new(alloc, 0)?,
            room: Vec::new(alloc),
        })
    }

    /// A handle to their image.
    pub(crate) fn forest(&self) -> Forest<'a>
        ensures { result ≡ self.now.image }
    {
        self.forest.again()
    }

    // Where the value of a chain stands.
    fn chain_span(&mut self, head: u32) -> Result<Span, AllocError>
        requires { FitsChain (file_of self.old.image) head }
        ensures grows { Grows self.old self.new }
        ensures ok { IfOk result (IsPiecePut self.new.gathered.bytes (chain_value (file_of self.old.image) head)) }
    {
        if let Some(span) = self.pairs.chain(head) {
            return Ok(span);
        }
        put_chain(&self.forest, head, &mut self.room, &mut self.pairs)
    }

    // Where the bytes of the next item of a leaf stand.
    fn bytes_span(&mut self, bytes: &[u8], leaf: &mut OnLeaf<'_>) -> Result<Span, AllocError>
        ensures grows { Grows self.old self.new }
        ensures ok { IfOk result (IsPiecePut self.new.gathered.bytes bytes.now) }
    {
        let page = leaf.bytes();
        let begin = leaf.begin();
        self.pairs.put_item(bytes, page, begin, &mut leaf.room)
    }

    // Where a value stands, which the next item of a leaf has.
    fn span(&mut self, held: Held<'a>, leaf: &mut OnLeaf<'_>) -> Result<Span, AllocError>
        requires { FitsHeld (file_of self.old.image) held }
        ensures grows { Grows self.old self.new }
        ensures ok { IfOk result (IsPiecePut self.new.gathered.bytes (value_held (file_of self.old.image) held.entry)) }
    {
        match held {
            Held::Inline(bytes) => self.bytes_span(bytes, leaf),
            Held::Chained(head) => self.chain_span(head),
        }
    }

    // Where the value of the next item of a leaf stands.
    fn item_span(&mut self, item: &LeafItem<'a>, leaf: &mut OnLeaf<'_>) -> Result<Span, AllocError>
        requires { FitsContent (file_of self.old.image) (leaf_item_seen item.now).content }
        ensures grows { Grows self.old self.new }
        ensures ok { IfOk result (IsPiecePut self.new.gathered.bytes (value_of (file_of self.old.image) (leaf_item_seen item.now).content)) }
    {
        let held = leaf_held(item);
        self.span(held, leaf)
    }

    // Where a value stands, which is put there by itself or in its chain.
    fn held_span(&mut self, held: Held<'a>) -> Result<Span, AllocError>
        requires { FitsHeld (file_of self.old.image) held }
        ensures grows { Grows self.old self.new }
        ensures ok { IfOk result (IsPiecePut self.new.gathered.bytes (value_held (file_of self.old.image) held.entry)) }
    {
        match held {
            Held::Inline(bytes) => self.pairs.put(bytes),
            Held::Chained(head) => self.chain_span(head),
        }
    }

    // Adds a key with a datum that stands there.
    fn push_span(&mut self, key: PlacedKey, value: Span) -> Result<(), AllocError>
        requires key { IsKeyPlaced self.old.gathered.bytes key }
        requires value { IsSpanOf self.old.gathered.bytes value }
        ensures { OnOk result (Adds self.old self.new key (span_in self.old.gathered.bytes value ∷ [])) }
    {
        self.pairs.push(key, value)
    }

    // Adds a key with the value of the next item of a leaf.
    fn push(
        &mut self,
        key: PlacedKey,
        item: &LeafItem<'a>,
        leaf: &mut OnLeaf<'_>,
    ) -> Result<(), AllocError>
        requires fits { FitsContent (file_of self.old.image) (leaf_item_seen item.now).content }
        requires key { IsKeyPlaced self.old.gathered.bytes key }
        ensures { OnOk result (Adds self.old self.new key (value_of (file_of self.old.image) (leaf_item_seen item.now).content ∷ [])) }
    {
        let value = self.item_span(item, leaf)?;
        self.push_span(key, value)
    }

    // Adds a key with the value of an entry, the next item of a leaf, unless that is deleted.
    fn push_entry(
        &mut self,
        key: PlacedKey,
        entry: &LeafItem<'a>,
        leaf: &mut OnLeaf<'_>,
    ) -> Result<(), AllocError>
        requires fits { FitsContent (file_of self.old.image) (leaf_item_seen entry.now).content }
        requires key { IsKeyPlaced self.old.gathered.bytes key }
        ensures { OnOk result (Adds self.old self.new key (values_of (file_of self.old.image) (leaf_item_seen entry.now ∷ []))) }
    {
        if is_deleted(entry) {
            return Ok(());
        }
        self.push(key, entry, leaf)
    }

    // Adds a key with the data of the set with this root.
    #[tactic(auto, using(crate::proofs::GatheredLemmas::so_far_adds))]
    fn push_set(&mut self, key: PlacedKey, root: u32) -> Result<(), AllocError>
        requires root { FitsDupRoot (file_of self.old.image) root }
        requires stage { structure_faults (file_of self.old.image) ≡ [] }
        requires key { IsKeyPlaced self.old.gathered.bytes key }
        ensures { OnOk result (Adds self.old self.new key (data_of (file_of self.old.image) (Tree root))) }
    {
        let mut beside = BesideEntries::over(&self.forest, root);
        for entry in tree_entries(&self.forest, root) {
            beside.turn();
            self.push_entry(key, &entry, &mut beside.leaf)?;
        }
        Ok(())
    }

    // Adds a key with the data of a data item, the next one of a leaf.
    #[tactic(auto, unfolding(crate::specs::Below::data_of, crate::specs::Below::value_of))]
    fn push_data(
        &mut self,
        key: PlacedKey,
        item: &LeafItem<'a>,
        leaf: &mut OnLeaf<'_>,
    ) -> Result<(), AllocError>
        requires content { FitsContent (file_of self.old.image) (leaf_item_seen item.now).content }
        requires set { FitsSet (file_of self.old.image) (leaf_item_seen item.now).content }
        requires stage { structure_faults (file_of self.old.image) ≡ [] }
        requires key { IsKeyPlaced self.old.gathered.bytes key }
        ensures { OnOk result (Adds self.old self.new key (data_of (file_of self.old.image) (leaf_item_seen item.now).content)) }
    {
        match item {
            LeafItem::Duplicates { root, .. } => self.push_set(key, *root),
            LeafItem::Inline { .. } | LeafItem::Overflow { .. } => self.push(key, item, leaf),
        }
    }

    /// Adds a record with its number, the next item of a leaf, unless it's deleted or a section replaces it.
    pub(crate) fn push_record(
        &mut self,
        number: u32,
        entry: &LeafItem<'a>,
        leaf: &mut OnLeaf<'_>,
        beside: &Beside<'_>,
    ) -> Result<(), AllocError>
        requires { FitsContent (file_of self.old.image) (leaf_item_seen entry.now).content }
        ensures image { OnOk result (self.new.image ≡ self.old.image) }
        ensures pairs { OnOk result (AddsEnough beside.now self.old.gathered.pairs self.new.gathered.pairs
            (map text_pair (listed_entry (file_of self.old.image) (number, leaf_item_seen entry.now)))) }
    {
        if beside.replaces(KeyRef::Number(number)) {
            return Ok(());
        }
        self.push_entry(PlacedKey::Number(number), entry, leaf)?;
        Ok(())
    }

    // Where the key of a pair stands, the next item of a leaf: where that of the pair before does, if they share it.
    fn key_of(
        &mut self,
        last: Option<PlacedKey>,
        pair: &Pair<LeafItem<'a>>,
        leaf: &mut OnLeaf<'_>,
    ) -> Result<PlacedKey, AllocError>
        requires fits { FitsContent (file_of self.old.image) (leaf_item_seen pair.now.key).content }
        requires last { pair.now.shares ≡ true → IfSome last (HasKey self.old (value_of (file_of self.old.image) (leaf_item_seen pair.now.key).content)) }
        ensures grows { Grows self.old self.new }
        ensures ok { IfOk result (HasKey self.new (value_of (file_of self.old.image) (leaf_item_seen pair.now.key).content)) }
    {
        match last {
            Some(key) if pair.shares => Ok(key),
            _ => Ok(PlacedKey::Bytes(self.item_span(&pair.key, leaf)?)),
        }
    }

    // Whether a section replaces the pairs of a key, whose datum may be a chain.
    fn is_replaced(
        &mut self,
        key: Held<'a>,
        is_chained: bool,
        beside: &Beside<'_>,
    ) -> Result<bool, AllocError>
        requires { FitsHeld (file_of self.old.image) key }
        ensures same { self.new ≡ self.old }
        ensures ok { IfOk result (λ is. is ≡ true
            → IsReplaced beside.now.settings (slice_seen beside.now.pairs) (Bytes (value_held (file_of self.old.image) key.entry))) }
    {
        if !is_chained {
            return Ok(false);
        }
        is_key_replaced(&self.forest, key, &mut self.room, beside)
    }

    // Adds a key with the data of a data item, the next one of a leaf, unless a section replaces them.
    fn push_data_beside(
        &mut self,
        key: PlacedKey,
        held: Held<'a>,
        item: &LeafItem<'a>,
        leaf: &mut OnLeaf<'_>,
        beside: &Beside<'_>,
    ) -> Result<(), AllocError>
        requires held { FitsHeld (file_of self.old.image) held }
        requires has { HasKey self.old (value_held (file_of self.old.image) held) key }
        requires content { FitsContent (file_of self.old.image) (leaf_item_seen item.now).content }
        requires set { FitsSet (file_of self.old.image) (leaf_item_seen item.now).content }
        requires stage { structure_faults (file_of self.old.image) ≡ [] }
        ensures image { OnOk result (self.new.image ≡ self.old.image) }
        ensures key { OnOk result (HasKey self.new (value_held (file_of self.old.image) held.entry) key) }
        ensures pairs { OnOk result (AddsEnough beside.now self.old.gathered.pairs self.new.gathered.pairs
            (with_key (Bytes (value_held (file_of self.old.image) held.entry)) (data_of (file_of self.old.image) (leaf_item_seen item.now).content))) }
    {
        let replaced = self.is_replaced(held, is_chained(item), beside)?;
        if replaced {
            return Ok(());
        }
        self.push_data(key, item, leaf)?;
        Ok(())
    }

    /// Adds a stored pair, the next two items of a leaf, of which it passes the first: its key with each of its data, unless a section replaces them. Answers
    /// where the key stands.
    pub(crate) fn push_pair(
        &mut self,
        last: Option<PlacedKey>,
        pair: &Pair<LeafItem<'a>>,
        leaf: &mut OnLeaf<'_>,
        beside: &Beside<'_>,
    ) -> Result<PlacedKey, AllocError>
        requires fits { FitsContent (file_of self.old.image) (leaf_item_seen pair.now.key).content }
        requires content { FitsContent (file_of self.old.image) (leaf_item_seen pair.now.value).content }
        requires set { FitsSet (file_of self.old.image) (leaf_item_seen pair.now.value).content }
        requires stage { structure_faults (file_of self.old.image) ≡ [] }
        requires last { pair.now.shares ≡ true → IfSome last (HasKey self.old (value_of (file_of self.old.image) (leaf_item_seen pair.now.key).content)) }
        ensures image { OnOk result (self.new.image ≡ self.old.image) }
        ensures pairs { OnOk result (AddsEnough beside.now self.old.gathered.pairs self.new.gathered.pairs
            (map text_pair (listed_pair (file_of self.old.image) (stored_pair (file_of self.old.image) 0 (view_seen leaf_item_seen pair.now))))) }
        ensures key { IfOk result (HasKey self.new (value_of (file_of self.old.image) (leaf_item_seen pair.now.key).content)) }
    {
        let key = self.key_of(last, pair, leaf)?;
        leaf.step();
        if is_deleted(&pair.value) {
            return Ok(key);
        }
        let held = leaf_held(&pair.key);
        self.push_data_beside(key, held, &pair.value, leaf, beside)?;
        Ok(key)
    }

    // Adds a key with a datum.
    fn push_held(&mut self, key: PlacedKey, held: Held<'a>) -> Result<(), AllocError>
        requires fits { FitsHeld (file_of self.old.image) held }
        requires key { IsKeyPlaced self.old.gathered.bytes key }
        ensures { OnOk result (Adds self.old self.new key (value_held (file_of self.old.image) held.entry ∷ [])) }
    {
        let value = self.held_span(held)?;
        self.push_span(key, value)
    }

    // Adds a key with the data of a set on its page.
    #[tactic(auto, using(crate::proofs::GatheredLemmas::so_far_adds))]
    fn push_blocks(&mut self, key: PlacedKey, blocks: DupBlocks<'a>) -> Result<(), AllocError>
        requires { IsKeyPlaced self.old.gathered.bytes key }
        ensures { OnOk result (Adds self.old self.new key blocks.entry.blocks) }
    {
        for block in blocks {
            self.push_held(key, Held::Inline(block))?;
        }
        Ok(())
    }

    // Adds a key with the data of a data item of a hash page.
    #[tactic(auto, unfolding(crate::specs::Below::data_of, crate::specs::Below::value_of))]
    fn push_item(&mut self, key: PlacedKey, item: HashItem<'a>) -> Result<(), AllocError>
        requires pair { IsPair self.old.image (hash_content_seen item) }
        requires key { IsKeyPlaced self.old.gathered.bytes key }
        ensures { OnOk result (Adds self.old self.new key (data_of (file_of self.old.image) (hash_content_seen item.entry))) }
    {
        match item {
            HashItem::Inline(bytes) => self.push_held(key, Held::Inline(bytes)),
            HashItem::Overflow { head, .. } => self.push_held(key, Held::Chained(head)),
            HashItem::Set(blocks) => self.push_blocks(key, blocks),
            HashItem::OffPage { root } => self.push_set(key, root),
        }
    }

    // Where a key stands, which is put there if it's in no chain that does.
    fn put_key(&mut self, held: Held<'a>) -> Result<PlacedKey, AllocError>
        requires { FitsHeld (file_of self.old.image) held }
        ensures grows { Grows self.old self.new }
        ensures ok { IfOk result (HasKey self.new (value_held (file_of self.old.image) held.entry)) }
    {
        Ok(PlacedKey::Bytes(self.held_span(held)?))
    }

    // Adds a pair of a hash: its key with each of its data.
    fn push_whole_pair(&mut self, pair: TablePair<'a>) -> Result<(), AllocError>
        requires { pair.image ≡ self.old.image }
        ensures image { OnOk result (self.new.image ≡ self.old.image) }
        ensures pairs { OnOk result (self.new.gathered.pairs ≡ self.old.gathered.pairs ++ map text_pair (listed_told pair.entry)) }
    {
        let held = pair.held_key();
        let key = self.put_key(held)?;
        let item = pair.into_item();
        self.push_item(key, item)?;
        Ok(())
    }

    /// Adds a pair of a hash: its key with each of its data, unless a section replaces them.
    pub(crate) fn push_table_pair(
        &mut self,
        pair: TablePair<'a>,
        beside: &Beside<'_>,
    ) -> Result<(), AllocError>
        requires { pair.image ≡ self.old.image }
        ensures image { OnOk result (self.new.image ≡ self.old.image) }
        ensures pairs { OnOk result (AddsEnough beside.now self.old.gathered.pairs self.new.gathered.pairs (map text_pair (listed_told pair.entry))) }
    {
        let held = pair.held_key();
        let replaced = self.is_replaced(held, true, beside)?;
        if replaced {
            return Ok(());
        }
        self.push_whole_pair(pair)?;
        Ok(())
    }

    /// The pairs.
    pub(crate) fn into_pairs(self) -> TextPairs
        ensures { result ≡ self.entry.gathered.pairs }
    {
        self.pairs.into_pairs()
    }
}
