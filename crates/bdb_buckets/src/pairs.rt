ghost use Rattle.std.specs.Prelude.{◌≡◌};
ghost use Rattle.std.specs.Iterator.{YieldsFirstBy, item_count};
ghost use Rattle.bdb_buckets.specs.Places.{AreGiven};
ghost use Rattle.bdb_buckets.specs.Told.{left_on, page_told};
ghost use Rattle.bdb_buckets.specs.Views.{IsOfBucket, IsOnWay, IsTable};
ghost use Rattle.bdb_tree.specs.of_format.Terms.{file_of, next_of};

use crate::Pair;
use bdb_tree::{Forest, HashKind, PageView};
use std::marker::Model;

/// The pairs that are left on a page of a bucket; none where it's a zero page.
#[derive(Drop)]
pub struct PagePairs<'a> {
    forest: Forest<'a>,
    page: u32,
    pairs: Option<bdb_tree::PagePairs<'a, HashKind>>,
}

impl<'a> Model for PagePairs<'a> {
    ghost use Rattle.std.specs.Prelude.{List};
    ghost use Rattle.bdb_buckets.specs.Places.{AreGiven};
    ghost use Rattle.bdb_buckets.specs.Told.{Told, left_on};

    ghost Value = { List Told };

    ghost view = { λ it. left_on it.forest it.page it.pairs };

    ghost invariant = { λ it. AreGiven it.forest it.page it.pairs };
}

impl<'a> PagePairs<'a> {
    /// The pairs of a page, as its view gives them.
    fn over(
        forest: &Forest<'a>,
        page: u32,
        pairs: Option<bdb_tree::PagePairs<'a, HashKind>>,
    ) -> PagePairs<'a>
        requires { AreGiven forest.now page pairs }
        ensures { result ≡ left_on forest.now page pairs.entry }
    {
        PagePairs {
            forest: forest.again(),
            page,
            pairs,
        }
    }
}

/// The pairs of a page of a bucket, and the page after it, 0 for none.
#[tactic(auto, using(crate::proofs::BucketLemmas::after_zero, crate::proofs::BucketLemmas::hash_told, crate::proofs::BucketLemmas::zero_told))]
pub(crate) fn page_pairs<'a>(forest: &Forest<'a>, page: u32) -> (PagePairs<'a>, u32)
    requires table { IsTable forest.now }
    requires bucket { IsOfBucket (file_of forest.now) page }
    ensures pairs { result.0 ≡ page_told forest.now page }
    ensures next { result.1 ≡ next_of (file_of forest.now) page }
    ensures way { IsOnWay forest.now result.1 }
{
    match forest.page(page) {
        PageView::Hash(view) => {
            let next = view.header().next;
            (PagePairs::over(forest, page, Some(view.iter())), next)
        }
        PageView::Zero(_) => (PagePairs::over(forest, page, None), 0),
        _ => unreachable!(),
    }
}

impl<'a> Iterator for PagePairs<'a> {
    type Item = Pair<'a>;

    ghost next_gives = { YieldsFirstBy (λ pair. pair) (λ left. left) };

    ghost remaining = { item_count (λ left. left) };

    #[inline(always)]
    fn next(&mut self) -> Option<Pair<'a>> {
        let pair = self.pairs.as_mut()?.next()?;
        Some(Pair::of(&self.forest, self.page, pair))
    }
}

impl<'a> ExactSizeIterator for PagePairs<'a> {
    fn len(&self) -> usize {
        match &self.pairs {
            Some(pairs) => pairs.len(),
            None => 0,
        }
    }
}
