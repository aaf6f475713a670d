ghost use Rattle.std.specs.Prelude.{◌≡◌, []};
ghost use Rattle.std.specs.Iterator.{YieldsFirstBy, item_count};
ghost use Rattle.bdb_btree.specs.of_image.Linked.{HasMetadata};
ghost use Rattle.bdb_btree.specs.of_format.Terms.{BtreeFields, btree_list, file_of, structure_faults};
ghost use Rattle.bdb_btree.specs.of_overflow.Datum.{datum_seen};
ghost use Rattle.bdb_btree.specs.Pairs.{pair_seen};
ghost use Rattle.bdb_btree.specs.Search.{entry_seen};
ghost use Rattle.bdb_range.specs.Ranges.{in_range, lies_between};
ghost use Rattle.bdb_range.specs.Spans.{Covers};

use crate::Span;
use bdb_btree::{
    BtreeMeta, Datum, Entries, Forest, KeyView, Linked, PagePairs, Pair, Ref, is_less, next_entry,
    next_pair, page_pairs, pair_entries,
};
use bdb_tree::{Leaves, leaves};
use std::marker::Model;

/// The pairs of so many leaves that are left, in order.
#[derive(Drop)]
struct SpanPairs<'a> {
    forest: Forest<'a>,
    here: Option<PagePairs<'a>>,
    leaves: Leaves<'a>,
    left: u32,
}

impl<'a> Model for SpanPairs<'a> {
    ghost use Rattle.std.specs.Prelude.{List, take};
    ghost use Rattle.bdb_btree.specs.of_format.Terms.{StoredPair, file_of};

    ghost Value = { List StoredPair };

    ghost use Rattle.bdb_btree.specs.Pairs.{AreLeaves, pairs_left};

    ghost view = { λ v. pairs_left (file_of v.forest) v.here (take v.left v.leaves) };

    ghost invariant = { λ v. AreLeaves (file_of v.forest) v.leaves };
}

impl<'a> Iterator for SpanPairs<'a> {
    type Item = Pair<'a>;

    ghost next_gives = { YieldsFirstBy pair_seen (λ left. left) };

    ghost remaining = { item_count (λ left. left) };

    #[tactic(auto, using(crate::proofs::LeftLemmas::next_leaf, crate::proofs::LeftLemmas::no_leaves, crate::proofs::LeftLemmas::none_left))]
    fn next(&mut self) -> Option<Pair<'a>> {
        loop {
            if let Some(pair) = next_pair(&mut self.here) {
                return Some(pair);
            }
            if self.left == 0 {
                return None;
            }
            let leaf = self.leaves.next()?;
            self.left -= 1;
            self.here = page_pairs(&self.forest, leaf.number());
        }
    }
}

/// Whether a key isn't less than the first bound, and is less than the second.
fn lies_between(from: &[u8], to: &[u8], key: &Datum<'_>) -> bool
    ensures { result ≡ lies_between from.now to.now (datum_seen key.now) }
{
    !is_less(key, &Datum::Inline(from)) && is_less(key, &Datum::Inline(to))
}

/// The pairs of a range that are left: each key with each of its data.
#[derive(Drop)]
pub struct RangePairs<'a, 'k> {
    forest: Forest<'a>,
    from: &'k [u8],
    to: &'k [u8],
    here: Option<Entries<'a>>,
    pairs: SpanPairs<'a>,
}

impl<'a, 'k> Model for RangePairs<'a, 'k> {
    ghost use Rattle.std.specs.Prelude.{List, ℕ};
    ghost use Rattle.bdb_btree.specs.of_format.Terms.{ListKey, file_of};

    ghost Value = { List (ListKey × List ℕ) };

    ghost use Rattle.bdb_btree.specs.Search.{AreOpen, entries_left};
    ghost use Rattle.bdb_range.specs.InRange.{pairs_between};

    ghost view = { λ v. entries_left (file_of v.forest) v.here (pairs_between v.from.now v.to.now v.pairs) };

    ghost invariant = { λ v. AreOpen (file_of v.forest) v.pairs };
}

impl<'a, 'k> Iterator for RangePairs<'a, 'k> {
    type Item = (KeyView<'a>, Datum<'a>);

    ghost next_gives = { YieldsFirstBy entry_seen (λ left. left) };

    ghost remaining = { item_count (λ left. left) };

    #[tactic(auto, using(crate::proofs::LeftLemmas::next_between, crate::proofs::LeftLemmas::passed_by))]
    fn next(&mut self) -> Option<(KeyView<'a>, Datum<'a>)> {
        loop {
            if let Some(entry) = next_entry(&mut self.here) {
                return Some(entry);
            }
            let pair = self.pairs.next()?;
            if lies_between(self.from, self.to, &pair.key) {
                self.here = pair_entries(&self.forest, pair);
            }
        }
    }
}

/// The pairs of a btree whose keys aren't less than `from` and are less than `to`, in order: those of a span that
/// covers the range. It takes no memory.
pub fn pairs_of<'a, 'k>(
    linked: &Linked<'a>,
    meta: &BtreeMeta,
    span: &Span,
    from: &'k [u8],
    to: &'k [u8],
) -> RangePairs<'a, 'k>
    requires meta { HasMetadata (file_of linked.now) (BtreeFields meta.now) }
    requires stage { structure_faults (file_of linked.now) ≡ [] }
    requires covers { Covers (file_of linked.now) meta.now.root span.now.first span.now.leaves from.now to.now }
    ensures { result ≡ in_range (btree_list (file_of linked.now) meta.now.root) from.now to.now }
{
    prove!(meta.root <= linked.head().last);
    let pairs = SpanPairs {
        forest: linked.forest(),
        here: None,
        leaves: leaves(linked, Ref::at(span.first.number())),
        left: span.leaves,
    };
    RangePairs {
        forest: linked.forest(),
        from,
        to,
        here: None,
        pairs,
    }
}
