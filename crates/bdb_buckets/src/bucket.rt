ghost use Rattle.std.specs.Prelude.{◌≡◌, ◌≤◌, [], length, map};
ghost use Rattle.std.specs.Iterator.{YieldsFirstBy, item_count};
ghost use Rattle.bdb_tree.specs.of_image.Linked.{HasMetadata};
ghost use Rattle.bdb_buckets.specs.Told.{page_told};
ghost use Rattle.bdb_tree.specs.of_format.Terms.{HashFields, bucket_pages, file_of, structure_faults};

use crate::PagePairs;
use crate::pairs::page_pairs;
use bdb_tree::{Forest, HashMeta, Linked};
use std::marker::Model;

/// The pages of a bucket that are left, each as its pairs.
#[derive(Drop)]
pub struct BucketPages<'a> {
    forest: Forest<'a>,
    next: u32,
    turns: u32,
}

impl<'a> Model for BucketPages<'a> {
    ghost use Rattle.std.specs.Prelude.{List, map};
    ghost use Rattle.bdb_buckets.specs.Told.{Told, page_told, pages_from};
    ghost use Rattle.bdb_buckets.specs.Views.{IsOnWay};
    ghost use Rattle.bdb_tree.specs.of_format.Terms.{file_of};

    ghost Value = { List (List Told) };

    ghost view = { λ it. map (page_told it.forest) (pages_from it.turns (file_of it.forest) it.next) };

    ghost invariant = { λ it. IsOnWay it.forest it.next };
}

/// The pages of a bucket, in the order of its chain.
#[tactic(auto, using(crate::proofs::BucketLemmas::bucket_on_way, crate::proofs::BucketLemmas::all_pages, crate::proofs::BucketLemmas::few_pages))]
pub fn bucket_pages<'a>(linked: &Linked<'a>, meta: &HashMeta, b: u32) -> BucketPages<'a>
    requires meta { HasMetadata (file_of linked.now) (HashFields meta.now) }
    requires bucket { b ≤ meta.now.max_bucket }
    requires stage { structure_faults (file_of linked.now) ≡ [] }
    ensures pages { result ≡ map (page_told linked.now) (bucket_pages (file_of linked.now) meta.now b) }
    ensures few { length result ≤ (file_of linked.now).count }
{
    BucketPages {
        forest: linked.forest(),
        next: linked.bucket(meta, b).number(),
        turns: linked.head().pages,
    }
}

impl<'a> Iterator for BucketPages<'a> {
    type Item = PagePairs<'a>;

    ghost next_gives = { YieldsFirstBy (λ pairs. pairs) (λ left. left) };

    ghost remaining = { item_count (λ left. left) };

    #[tactic(auto, using(crate::proofs::BucketLemmas::no_page, crate::proofs::BucketLemmas::no_turn, crate::proofs::BucketLemmas::first_page_left))]
    fn next(&mut self) -> Option<PagePairs<'a>> {
        if self.next == 0 || self.turns == 0 {
            return None;
        }
        let (pairs, next) = page_pairs(&self.forest, self.next);
        self.turns -= 1;
        self.next = next;
        Some(pairs)
    }
}
