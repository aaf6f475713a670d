ghost use Rattle.std.specs.Prelude.{◌≡◌};
ghost use Rattle.std.specs.Iterator.{YieldsFirstBy, item_count};
ghost use Rattle.bdb_rescue.specs.Entries.{record_read};
ghost use Rattle.bdb_apart.specs.Given.{records_given};
ghost use Rattle.bdb_apart.specs.Kept.{IsKnown, found_of, found_seen};

use crate::Apart;
use crate::holds::holds_of;
use crate::leaf_records::LeafRecords;
use crate::place::Place;
use crate::slots::QueueRecords;
use bdb_homes::Meta;
use bdb_rescue::Datum;
use std::marker::Model;

/// Where records stand: on leaves, or in the slots of a queue.
#[derive(Drop)]
enum Numbered<'t, 's, 'a> {
    Leaves(LeafRecords<'t, 's, 'a>),
    Queue(QueueRecords<'s, 'a>),
}

/// The records of a database that are left, each with its number.
#[derive(Drop)]
pub struct Records<'t, 's, 'a> {
    records: Numbered<'t, 's, 'a>,
}

impl<'t, 's, 'a> Model for Records<'t, 's, 'a> {
    ghost use Rattle.std.specs.Prelude.{List, ℕ};
    ghost use Rattle.bdb_apart.specs.Numbered.{numbered_seen};

    ghost Value = { List (ℕ × List ℕ) };

    ghost view = { λ v. numbered_seen v.records };
}

impl<'t, 's, 'a> Records<'t, 's, 'a> {
    /// All of them.
    pub(crate) fn of(apart: &'t Apart<'s, 'a>, place: &Place<'s>) -> Records<'t, 's, 'a>
        requires { IsKnown apart.now (found_seen place.now) }
        ensures { result ≡ records_given (found_of apart.now place.now) }
    {
        let records = match &place.fields {
            Meta::Queue(meta) => Numbered::Queue(QueueRecords::over(apart.salvaged(), *meta)),
            fields => Numbered::Leaves(LeafRecords::over(
                apart.salvaged(),
                apart.homes(),
                holds_of(fields),
                apart.row(place.meta),
            )),
        };
        Records { records }
    }
}

impl<'t, 's, 'a> Iterator for Records<'t, 's, 'a> {
    type Item = (u32, Datum<'s>);

    ghost next_gives = { YieldsFirstBy record_read (λ left. left) };

    ghost remaining = { item_count (λ left. left) };

    fn next(&mut self) -> Option<(u32, Datum<'s>)> {
        match &mut self.records {
            Numbered::Leaves(records) => records.next(),
            Numbered::Queue(records) => records.next(),
        }
    }
}
