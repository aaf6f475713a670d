ghost use Rattle.std.specs.Prelude.{◌≡◌};
ghost use Rattle.std.specs.Iterator.{YieldsFirstBy, item_count};

use crate::{IndexedView, ItemKind, PageKind};
use std::marker::Model;

/// The items of a page that are left, in the order of the index.
#[derive(Drop)]
pub struct Items<'a, K: PageKind> {
    view: IndexedView<'a, K>,
    at: u16,
}

impl<'a, K: PageKind> Model for Items<'a, K> {
    ghost use Rattle.std.specs.Prelude.{List, drop};

    ghost Value = { List K };

    ghost view = { λ it. drop it.at it.view.items };
}

impl<'a, K: PageKind> IndexedView<'a, K> {
    /// The items, in the order of the index, deleted ones too.
    pub fn items(&self) -> Items<'a, K>
        ensures { result ≡ self.now.items }
    {
        Items {
            view: self.again(),
            at: 0,
        }
    }
}

impl<'a, K: ItemKind<'a>> Iterator for Items<'a, K> {
    type Item = K::Item;

    ghost next_gives = { YieldsFirstBy K.item_seen (λ left. left) };

    ghost remaining = { item_count (λ left. left) };

    #[inline(always)]
    #[tactic(auto, using(crate::proofs::WalkLemmas::next_item, crate::proofs::WalkLemmas::no_item_left))]
    fn next(&mut self) -> Option<K::Item> {
        let at = self.at;
        if at >= self.view.entries() {
            return None;
        }
        self.at = at + 1;
        Some(self.view.item(at))
    }
}
