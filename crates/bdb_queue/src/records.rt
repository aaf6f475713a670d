ghost use Rattle.std.specs.Prelude.{◌≡◌};
ghost use Rattle.std.specs.Iterator.{YieldsFirstBy, item_count};
ghost use Rattle.bdb_overflow.specs.of_image.Linked.{HasMetadata};
ghost use Rattle.bdb_overflow.specs.of_format.Terms.{QueueFields, file_of, queue_list};
ghost use Rattle.bdb_overflow.specs.Datum.{datum_seen, key_view_seen};

use crate::walk::{SlotPlace, first_from};
use bdb_overflow::{Datum, Forest, KeyView, QueueMeta};
use std::marker::Model;

/// The live records of a queue that are left, each under its number.
#[derive(Drop)]
pub struct Scan<'a> {
    forest: Forest<'a>,
    meta: QueueMeta,
    next: SlotPlace,
}

impl<'a> Model for Scan<'a> {
    ghost use Rattle.std.specs.Prelude.{List, ℕ};
    ghost use Rattle.bdb_overflow.specs.of_format.Terms.{ListKey, file_of};
    ghost use Rattle.bdb_queue.specs.Records.{IsPlace, left_from};

    ghost Value = { List (ListKey × List ℕ) };

    ghost view = { λ it. left_from (file_of it.forest) it.meta it.next.page it.next.slot };

    ghost invariant = { λ it. IsPlace (file_of it.forest) it.meta it.next.page };
}

impl<'a> Scan<'a> {
    /// All records of a queue.
    #[tactic(auto, using(crate::proofs::RecordLemmas::whole_queue))]
    pub(crate) fn over(forest: Forest<'a>, meta: QueueMeta) -> Scan<'a>
        requires { HasMetadata (file_of forest) (QueueFields meta) }
        ensures { result ≡ queue_list (file_of forest.entry) meta }
    {
        Scan {
            forest,
            meta,
            next: SlotPlace { page: 1, slot: 0 },
        }
    }
}

impl<'a> Iterator for Scan<'a> {
    type Item = (KeyView<'a>, Datum<'a>);

    ghost next_gives = { YieldsFirstBy (λ item. (key_view_seen item.0, datum_seen item.1)) (λ left. left) };

    ghost remaining = { item_count (λ left. left) };

    fn next(&mut self) -> Option<(KeyView<'a>, Datum<'a>)> {
        let (record, after) = first_from(&self.forest, &self.meta, self.next)?;
        self.next = after;
        Some((KeyView::Number(record.number), Datum::Inline(record.bytes)))
    }
}
