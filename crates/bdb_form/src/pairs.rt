ghost use Rattle.std.specs.Prelude.{◌≡◌, ◌+◌, ◌*◌, ◌<◌, ◌%◌, ◌==◌, ◌&&◌, ℕ, length, slice_get, Some};
ghost use Rattle.bdb_layout.specs.of_format.Terms.{is_shared_key, is_wrong_entry_count};

use crate::{IndexedView, ItemKind, PageKind};
use bdb_layout::u16_at;

/// A type of pages whose items stand in pairs of a key and its data.
pub trait PairKind: PageKind {
    ghost stands_in_pairs: { (entries : ℕ) → is_wrong_entry_count Self.page_type entries ≡ (entries % 2 == 1) };
}

#[tactic(auto, using(crate::proofs::Below::length_items, crate::proofs::FormedLemmas::listed_even))]
impl<'a, K: PairKind> IndexedView<'a, K> {
    /// How many pairs there are.
    pub fn pairs(&self) -> u16
        ensures { 2 * result ≡ length self.now.items }
    {
        u16_at(self.page, 20, self.order) / 2
    }

    /// Whether a pair has the key of the pair before it: both entries of the index name one offset.
    #[tactic(auto, using(crate::proofs::FormedLemmas::shared_after))]
    pub fn shares(&self, i: u16) -> bool
        requires { 2 * i < length self.now.items }
        ensures { result ≡ (K.SHARES && is_shared_key self.now.offsets (2 * i)) }
    {
        let i = usize::from(i);
        K::SHARES && i > 0 && self.offset(2 * i) == self.offset(2 * i - 2)
    }
}

impl<'a, K: PairKind + ItemKind<'a>> IndexedView<'a, K> {
    /// The key of a pair.
    pub fn key(&self, i: u16) -> K::Item
        requires { 2 * i < length self.now.items }
        ensures { slice_get self.now.items (2 * i) ≡ Some (K.item_seen result) }
    {
        self.item_at(2 * usize::from(i))
    }

    /// The data of a pair.
    pub fn value(&self, i: u16) -> K::Item
        requires { 2 * i + 1 < length self.now.items }
        ensures { slice_get self.now.items (2 * i + 1) ≡ Some (K.item_seen result) }
    {
        self.item_at(2 * usize::from(i) + 1)
    }
}
