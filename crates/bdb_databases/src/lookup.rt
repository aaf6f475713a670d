ghost use Rattle.std.specs.Prelude.{◌≡◌, ◌+◌, ◌≤◌, [], IsTrue};
ghost use Rattle.std.specs.Iterator.{YieldsFirstBy, item_count};
ghost use Rattle.bdb_recno.specs.of_image.Linked.{HasMetadata};
ghost use Rattle.bdb_recno.specs.of_image.Metas.{meta_seen};
ghost use Rattle.bdb_databases.specs.Lookup.{data_left, most_steps};
ghost use Rattle.bdb_recno.specs.of_format.Terms.{BtreeFields, QueueFields, data_under, database_faults, file_of, is_recno, structure_faults};
ghost use Rattle.bdb_recno.specs.of_overflow.Datum.{datum_seen};

use crate::under::Under;
use bdb_recno::{BtreeMeta, Datum, Linked, Meta, QueueMeta, Steps, number_in};
use std::marker::Model;
use std::sync::ledger::Ledger;

/// What is left of the data of a key, by the kind of the database.
#[derive(Drop)]
pub(crate) enum Data<'a> {
    Btree(bdb_btree::Found<'a>),
    Recno(bdb_recno::Found<'a>),
    Hash(bdb_hash_list::Found<'a>),
    Queue(bdb_queue::Found<'a>),
    Under(Under<'a>),
    Nothing,
}

impl<'a> Data<'a> {
    /// The first datum that is left.
    fn first(&mut self) -> Option<Datum<'a>>
        ensures { YieldsFirstBy datum_seen data_left self.old result self.new }
    {
        match self {
            Data::Btree(found) => found.next(),
            Data::Recno(found) => found.next(),
            Data::Hash(found) => found.next(),
            Data::Queue(found) => found.next(),
            Data::Under(found) => found.first(),
            Data::Nothing => None,
        }
    }
}

/// The data of a key that are left, in order.
#[derive(Drop)]
pub struct Found<'a> {
    data: Data<'a>,
}

impl<'a> Model for Found<'a> {
    ghost use Rattle.std.specs.Prelude.{List, ℕ};
    ghost use Rattle.bdb_databases.specs.Lookup.{data_left};

    ghost Value = { List (List ℕ) };

    ghost view = { λ v. data_left v.«data» };
}

impl<'a> Iterator for Found<'a> {
    type Item = Datum<'a>;

    ghost next_gives = { YieldsFirstBy datum_seen (λ left. left) };

    ghost remaining = { item_count (λ left. left) };

    fn next(&mut self) -> Option<Datum<'a>> {
        self.data.first()
    }
}

impl<'a> Found<'a> {
    /// The data under a key of a list.
    pub(crate) fn under(under: Under<'a>) -> Found<'a>
        ensures { result ≡ under.entry }
    {
        Found {
            data: Data::Under(under),
        }
    }
}

/// What a recno has under the number that a key says. None of its records has a number past 32 bits.
#[tactic(auto, using(crate::proofs::NumberLemmas::no_record_named, crate::proofs::NumberLemmas::record_named, crate::proofs::NumberLemmas::past_records))]
fn record_in<'a, L: Ledger>(
    linked: &Linked<'a>,
    meta: &BtreeMeta,
    key: &[u8],
    steps: &mut Steps<L>,
) -> Data<'a>
    requires meta { HasMetadata (file_of linked.now) (BtreeFields meta.now) }
    requires recno { IsTrue (is_recno meta.now) }
    requires stage { structure_faults (file_of linked.now) ≡ [] }
    requires contents { database_faults (file_of linked.now) (BtreeFields meta.now) ≡ [] }
    ensures found { data_left result ≡ data_under (file_of linked.now) (BtreeFields meta.now) key.now }
    ensures cost { steps.new ≤ steps.old + most_steps (file_of linked.now) (BtreeFields meta.now) }
{
    // What it ensures: the pages are a forest.
    linked.head();
    let Some(number) = number_in(key) else {
        return Data::Nothing;
    };
    match u32::try_from(number) {
        Ok(number) => Data::Recno(bdb_recno::find(linked, meta, number, steps)),
        Err(_) => Data::Nothing,
    }
}

/// What a queue has under the number that a key says. Its records have numbers below the current one.
#[tactic(auto, using(crate::proofs::NumberLemmas::no_number_queued, crate::proofs::NumberLemmas::number_queued, crate::proofs::NumberLemmas::past_queue))]
fn queued_in<'a, L: Ledger>(
    linked: &Linked<'a>,
    meta: &QueueMeta,
    key: &[u8],
    steps: &mut Steps<L>,
) -> Data<'a>
    requires { HasMetadata (file_of linked.now) (QueueFields meta.now) }
    ensures found { data_left result ≡ data_under (file_of linked.now) (QueueFields meta.now) key.now }
    ensures cost { steps.new ≤ steps.old + most_steps (file_of linked.now) (QueueFields meta.now) }
{
    let Some(number) = number_in(key) else {
        return Data::Nothing;
    };
    if number >= u64::from(meta.current) {
        return Data::Nothing;
    }
    Data::Queue(bdb_queue::find(linked, meta, number as u32, steps))
}

/// What a tree has under a key: a btree under its bytes, a recno under the number that they say.
fn tree_data<'a, L: Ledger>(
    linked: &Linked<'a>,
    meta: &BtreeMeta,
    key: &[u8],
    steps: &mut Steps<L>,
) -> Data<'a>
    requires meta { HasMetadata (file_of linked.now) (BtreeFields meta.now) }
    requires stage { structure_faults (file_of linked.now) ≡ [] }
    requires contents { database_faults (file_of linked.now) (BtreeFields meta.now) ≡ [] }
    ensures found { data_left result ≡ data_under (file_of linked.now) (BtreeFields meta.now) key.now }
    ensures cost { steps.new ≤ steps.old + most_steps (file_of linked.now) (BtreeFields meta.now) }
{
    if !meta.is_recno() {
        Data::Btree(bdb_btree::find(linked, meta, key, steps))
    } else {
        record_in(linked, meta, key, steps)
    }
}

/// What a database of a sound file has under a key, in order; none where it isn't there. Of records the key
/// says the number, in one to ten decimal digits. It takes no memory, and a step for each page that it looks
/// into.
pub fn found_in<'a, L: Ledger>(
    linked: &Linked<'a>,
    meta: &Meta,
    key: &[u8],
    steps: &mut Steps<L>,
) -> Found<'a>
    requires meta { HasMetadata (file_of linked.now) (meta_seen meta.now) }
    requires stage { structure_faults (file_of linked.now) ≡ [] }
    requires contents { database_faults (file_of linked.now) (meta_seen meta.now) ≡ [] }
    ensures found { result ≡ data_under (file_of linked.now) (meta_seen meta.now) key.now }
    ensures cost { steps.new ≤ steps.old + most_steps (file_of linked.now) (meta_seen meta.now) }
{
    let data = match meta {
        Meta::Btree(meta) => tree_data(linked, meta, key, steps),
        Meta::Hash(meta) => Data::Hash(bdb_hash_list::find(linked, meta, key, steps)),
        Meta::Queue(meta) => queued_in(linked, meta, key, steps),
    };
    Found { data }
}
