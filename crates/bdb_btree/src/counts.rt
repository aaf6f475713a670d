ghost use Rattle.std.specs.Prelude.{◌≡◌, ◌||◌, nat_lt, IfOk, OnOk};
ghost use Rattle.std.specs.List.{fold};
ghost use Rattle.bdb_ranks.specs.of_image.Linked.{FitsLeafPage};
ghost use Rattle.bdb_ranks.specs.of_format.Terms.{file_of, has_wrong_count, inner_pages, page_at, pairs_of, tree_pairs};
ghost use Rattle.bdb_btree.specs.Counts.{IsKeyed, added, count_pair, counts_of};
ghost use Rattle.bdb_btree.specs.Noted.{faults_at};
ghost use Rattle.bdb_ranks.specs.of_format.declared.rows.ContentsRow.TheVariants.{Count};
ghost use Rattle.bdb_faults.specs.Notes.{NotesAll};
ghost use Rattle.bdb_btree.specs.Pairs.{pair_seen};

use crate::inner::inner_view;
use crate::pair::Pair;
use crate::walk::page_pairs;
use bdb_faults::{FaultSink, note_if};
use bdb_ranks::{ContentsRow, Forest, Row};
use std::alloc::AllocError;

/// How many pairs there are, live ones and all, up to the greatest number.
#[derive(Drop)]
pub(crate) struct Counts {
    live: u64,
    all: u64,
}

impl Counts {
    /// One more pair.
    fn see(&mut self, pair: &Pair<'_>)
        ensures { self.new ≡ count_pair self.old (pair_seen pair.now) }
    {
        if pair.live {
            self.live = self.live.saturating_add(1);
        }
        self.all = self.all.saturating_add(1);
    }

    /// More pairs, of which these are the counts.
    fn add(&mut self, more: &Counts)
        ensures { self.new ≡ added self.old more.now }
    {
        self.live = self.live.saturating_add(more.live);
        self.all = self.all.saturating_add(more.all);
    }

    /// Whether a count that is kept isn't between the live and all pairs.
    fn exclude(&self, count: u32) -> bool
        ensures { result ≡ (nat_lt count self.now.live || nat_lt self.now.all count) }
    {
        let count = u64::from(count);
        count < self.live || self.all < count
    }
}

/// The pairs of a leaf.
fn leaf_counts(forest: &Forest<'_>, leaf: u32) -> Counts
    requires { FitsLeafPage (file_of forest.now) leaf }
    ensures { result ≡ counts_of (tree_pairs (file_of forest.now) leaf) }
{
    let mut counts = Counts { live: 0, all: 0 };
    if let Some(pairs) = page_pairs(forest, leaf) {
        for pair in pairs {
            counts.see(&pair);
        }
    }
    counts
}

/// How many pairs are at or below a page of a tree of pairs, while the internal pages there that have a wrong count are noted.
/// Each page is gone over once, from the leaves up, by calls within each other, at most as many as a tree has levels. They take
/// no memory but the sink's.
pub(crate) fn note_counts<F: FaultSink>(
    forest: &Forest<'_>,
    page: u32,
    found: &mut F,
) -> Result<Counts, AllocError>
    requires { IsKeyed (file_of forest.now) page }
    ensures counts { IfOk result (λ counts. counts ≡ counts_of (tree_pairs (file_of forest.now) page)) }
    ensures noted { OnOk result (NotesAll (F.has_noted found.old) (F.has_noted found.new)
        (faults_at Count (λ p. has_wrong_count (file_of forest.now) (page_at (file_of forest.now) p)) (inner_pages (file_of forest.now) page))) }
{
    let Some(view) = inner_view(forest, page) else {
        return Ok(leaf_counts(forest, page));
    };
    let mut counts = Counts { live: 0, all: 0 };
    let mut wrong = false;
    for item in view.items() {
        let below = note_counts(forest, item.child, found)?;
        wrong |= below.exclude(item.count);
        counts.add(&below);
    }
    note_if(found, Row::Contents(ContentsRow::Count), page, wrong)?;
    Ok(counts)
}
