ghost use Rattle.std.specs.Prelude.{◌≡◌, [], ◌∷◌, IfSome, MatchOption, None};
ghost use Rattle.bdb_tree.specs.of_form.Pairs.{pair_seen};
ghost use Rattle.bdb_tree.specs.of_overflow.Datum.{FitsContent, datum_seen};
ghost use Rattle.bdb_tree.specs.of_overflow.Held.{FitsHeld, value_held};
ghost use Rattle.bdb_buckets.specs.Chained.{IsHead, IsHeldBy, chain_head};
ghost use Rattle.bdb_buckets.specs.Places.{IsAt, IsGiven};
ghost use Rattle.bdb_buckets.specs.Told.{entry_list, has_key, listed_told, told_pair};
ghost use Rattle.bdb_buckets.specs.Views.{IsPair, value_on_page};
ghost use Rattle.bdb_tree.specs.of_layout.Seen.{hash_content_seen, hash_item_seen};
ghost use Rattle.bdb_tree.specs.of_format.Terms.{File, Inline, data_of, file_of, is_duplicate, is_wrong_set, value_of};
ghost use Rattle.bdb_tree.specs.Noted.{set_root};

use crate::Data;
use crate::place::PairPlace;
use bdb_tree::{Datum, Forest, HashItem, Held, is_same, is_wrong_root, prefix};
use std::marker::Model;

/// A pair of a hash page, with its key.
#[derive(Drop)]
pub struct Pair<'a> {
    forest: Forest<'a>,
    page: u32,
    index: u16,
    // The head of the key's chain, if it's one.
    head: Option<u32>,
    key: Datum<'a>,
    item: HashItem<'a>,
}

impl<'a> Model for Pair<'a> {
    ghost use Rattle.bdb_tree.specs.of_overflow.Datum.{datum_seen};
    ghost use Rattle.bdb_buckets.specs.Told.{Told, told_as};
    ghost use Rattle.bdb_buckets.specs.Chained.{IsKeyed};
    ghost use Rattle.bdb_tree.specs.of_layout.Seen.{hash_content_seen};

    ghost Value = { Told };

    ghost view = { λ it. told_as it.forest it.page (datum_seen it.key) (hash_content_seen it.item) };

    ghost invariant = { λ it. IsKeyed it.head it.key it.page it.index (told_as it.forest it.page (datum_seen it.key) (hash_content_seen it.item)) };
}

/// The value of a key, which is never a set.
#[inline(always)]
#[tactic(auto, unfolding(crate::specs::Below::value_of))]
pub(crate) fn key_of<'a>(forest: &Forest<'a>, item: &HashItem<'a>) -> Datum<'a>
    requires { FitsContent (file_of forest.now) (hash_content_seen item.now) }
    ensures value { datum_seen result ≡ value_of (file_of forest.now) (hash_content_seen item.now) }
    ensures held { IsHeldBy (file_of forest.now) (chain_head (hash_content_seen item.now)) result }
{
    match item {
        HashItem::Inline(bytes) => Datum::Inline(bytes),
        HashItem::Overflow { head, .. } => Held::Chained(*head).datum(forest),
        HashItem::Set(_) | HashItem::OffPage { .. } => Datum::Inline(&[]),
    }
}

/// The head of the chain that an item is, if it's one.
fn head_of(item: &HashItem<'_>) -> Option<u32>
    ensures { result ≡ chain_head (hash_content_seen item.now) }
{
    match item {
        HashItem::Overflow { head, .. } => Some(*head),
        HashItem::Inline(_) | HashItem::Set(_) | HashItem::OffPage { .. } => None,
    }
}

impl<'a> Pair<'a> {
    /// A pair as the view of its page gives it.
    #[inline(always)]
    pub fn of(forest: &Forest<'a>, page: u32, pair: bdb_tree::Pair<HashItem<'a>>) -> Pair<'a>
        requires { IsGiven forest.now page (pair_seen hash_item_seen pair) }
        ensures { result ≡ told_pair forest.now page (pair_seen hash_item_seen pair.entry) }
    {
        Pair {
            forest: forest.again(),
            page,
            index: pair.index,
            head: head_of(&pair.key),
            key: key_of(forest, &pair.key),
            item: pair.value,
        }
    }

    /// The page that it stands on.
    pub fn page(&self) -> u32
        ensures { result ≡ self.now.pair.page }
    {
        self.page
    }

    /// Where it stands.
    pub fn place(&self) -> PairPlace
        ensures { IsAt result self.now }
    {
        PairPlace {
            first: prefix(&self.key),
            page: self.page,
            index: self.index,
        }
    }

    /// The head of its key's chain, if the key is one.
    pub fn head(&self) -> Option<u32>
        ensures { IsHead result self.now }
    {
        self.head
    }

    /// Its key as its item holds it: bytes of its page, or the head of its chain.
    pub fn held_key(&self) -> Held<'a>
        ensures value { value_held (file_of self.now.image) result ≡ self.now.pair.key }
        ensures fits { FitsHeld (file_of self.now.image) result }
    {
        match (self.head, &self.key) {
            (Some(head), _) => Held::Chained(head),
            (None, Datum::Inline(bytes)) => Held::Inline(bytes),
            (None, Datum::Chained(_)) => unreachable!(),
        }
    }

    /// Its key.
    pub fn key(&self) -> &Datum<'a>
        ensures { datum_seen result.now ≡ self.now.pair.key }
    {
        &self.key
    }
}

impl<'a> Pair<'a> {
    /// Its data.
    pub fn into_data(self) -> Data<'a>
        ensures { result ≡ data_of (file_of self.entry.image) self.entry.pair.data_item }
    {
        let Pair {
            forest,
            page: _page,
            index: _index,
            head: _head,
            key: _key,
            item,
        } = self;
        Data::of_item(&forest, item)
    }
}

impl<'a> Pair<'a> {
    /// Whether it has this key.
    pub fn has_key(&self, key: &[u8]) -> bool
        ensures { result ≡ has_key key.now self.now }
    {
        is_same(&self.key, &Datum::Inline(key))
    }

    /// Its key, and its data.
    pub fn into_entry(self) -> (Datum<'a>, Data<'a>)
        ensures { entry_list (datum_seen result.0) result.1 ≡ listed_told self.entry }
    {
        let Pair {
            forest,
            page: _page,
            index: _index,
            head: _head,
            key,
            item,
        } = self;
        (key, Data::of_item(&forest, item))
    }

    /// What its data item holds: one datum, or a set, on its page or off it. What that names is there.
    pub fn into_item(self) -> HashItem<'a>
        ensures item { hash_content_seen result ≡ self.entry.pair.data_item }
        ensures pair { IsPair self.entry.image self.entry.pair.data_item }
        ensures listed { listed_told self.entry ≡ entry_list self.entry.pair.key (data_of (file_of self.entry.image) self.entry.pair.data_item) }
    {
        let Pair {
            forest: _forest,
            page: _page,
            index: _index,
            head: _head,
            key: _key,
            item,
        } = self;
        item
    }

    /// Its datum, if it has one and that stands on its page.
    #[inline(always)]
    #[tactic(auto, unfolding(crate::specs::Below::data_of))]
    pub fn value_on_page(&self) -> Option<&'a [u8]>
        ensures value { MatchOption result (value_on_page self.now.pair.data_item ≡ None) (λ bytes. self.now.pair.data_item ≡ Inline bytes.now) }
        ensures listed { IfSome result (λ bytes. listed_told self.now ≡ entry_list self.now.pair.key (bytes.now ∷ [])) }
    {
        match &self.item {
            HashItem::Inline(bytes) => Some(bytes),
            HashItem::Set(_) | HashItem::OffPage { .. } | HashItem::Overflow { .. } => None,
        }
    }

    /// Whether its data are a set.
    pub fn is_duplicate(&self) -> bool
        ensures { result ≡ is_duplicate self.now.pair }
    {
        matches!(self.item, HashItem::Set(_) | HashItem::OffPage { .. })
    }

    /// The root of its data; `None` exactly where they aren't a set off the page.
    pub fn set_root(&self) -> Option<u32>
        ensures set { result ≡ set_root self.now.pair.data_item }
        ensures pair { IsPair self.now.image self.now.pair.data_item }
    {
        match self.item {
            HashItem::OffPage { root } => Some(root),
            _ => None,
        }
    }

    /// Whether its data are a set off the page that isn't of the kind that the table has.
    pub fn is_wrong_set(&self, sorted: bool) -> bool
        ensures { result ≡ is_wrong_set (file_of self.now.image) sorted self.now.pair.data_item }
    {
        match self.item {
            HashItem::OffPage { root } => is_wrong_root(&self.forest.page(root), sorted),
            _ => false,
        }
    }
}
