ghost use Rattle.std.specs.Prelude.{◌≡◌, ◌+◌, ◌*◌, ◌<◌, length};
ghost use Rattle.std.specs.Iterator.{YieldsFirstBy, item_count};
ghost use Rattle.bdb_form.specs.Pairs.{pair_of, pair_seen, pairs_from};

use crate::{IndexedView, ItemKind, PairKind};
use std::marker::Model;

/// A pair of a page, with its items as they are lent from the page.
#[derive(Drop)]
pub struct Pair<I> {
    /// Its place on the page, from 0.
    pub index: u16,
    pub key: I,
    pub value: I,
    /// Whether its key is that of the pair before it.
    pub shares: bool,
}

/// The pairs of a page that are left, in order.
#[derive(Drop)]
pub struct PagePairs<'a, K: PairKind> {
    view: IndexedView<'a, K>,
    next: u16,
}

impl<'a, K: PairKind> Model for PagePairs<'a, K> {
    ghost use Rattle.std.specs.Prelude.{List};
    ghost use Rattle.bdb_form.specs.Pairs.{PairOf, pairs_from};

    ghost Value = { List (PairOf K) };

    ghost view = { λ it. pairs_from K.no_item K.SHARES it.view it.next };
}

impl<'a, K: PairKind> IndexedView<'a, K> {
    /// The pairs, in order, deleted ones too.
    pub fn iter(&self) -> PagePairs<'a, K>
        ensures { result ≡ pairs_from K.no_item K.SHARES self.now 0 }
    {
        PagePairs {
            view: self.again(),
            next: 0,
        }
    }
}

impl<'a, K: PairKind + ItemKind<'a>> IndexedView<'a, K> {
    /// A pair.
    #[inline(always)]
    #[tactic(auto, using(crate::proofs::WalkLemmas::read_item))]
    pub fn pair(&self, i: u16) -> Pair<K::Item>
        requires { 2 * i + 1 < length self.now.items }
        ensures { pair_seen K.item_seen result ≡ pair_of K.no_item K.SHARES self.now i }
    {
        Pair {
            index: i,
            key: self.key(i),
            value: self.value(i),
            shares: self.shares(i),
        }
    }
}

impl<'a, K: PairKind + ItemKind<'a>> Iterator for PagePairs<'a, K> {
    type Item = Pair<K::Item>;

    ghost next_gives = { YieldsFirstBy (pair_seen K.item_seen) (λ left. left) };

    ghost remaining = { item_count (λ left. left) };

    #[inline(always)]
    #[tactic(auto, using(crate::proofs::WalkLemmas::next_pair, crate::proofs::WalkLemmas::no_pair_left))]
    fn next(&mut self) -> Option<Pair<K::Item>> {
        let i = self.next;
        if i >= self.view.pairs() {
            return None;
        }
        self.next = i + 1;
        Some(self.view.pair(i))
    }
}

impl<'a, K: PairKind + ItemKind<'a>> ExactSizeIterator for PagePairs<'a, K> {
    #[tactic(auto, using(crate::proofs::WalkLemmas::pairs_left))]
    fn len(&self) -> usize {
        usize::from(self.view.pairs().saturating_sub(self.next))
    }
}
