ghost use Rattle.std.specs.Prelude.{◌≡◌, ◌+◌, ◌*◌, IsTrue};
ghost use Rattle.std.specs.Iterator.{YieldsFirstBy};
ghost use Rattle.bdb_survey.specs.of_layout.Seen.{content_seen};
ghost use Rattle.bdb_survey.specs.of_overflow.Datum.{datum_seen};
ghost use Rattle.bdb_rescue.specs.Entries.{data_left, pair_read};
ghost use Rattle.bdb_rescue.specs.Kept.{IsKeptPair, data_at, data_here, file_in, given, is_held, item_of};

use crate::Salvaged;
use crate::kept::{DataPlace, KeptPair};
use crate::values::SalvageValues;
use bdb_survey::{Content, Datum, DupBlocks};
use std::marker::Model;

/// The data of a pair that are left.
#[derive(Drop)]
pub(crate) enum PairData<'s, 'a> {
    None,
    One(Datum<'s>),
    Blocks(DupBlocks<'a>),
    Set(SalvageValues<'s, 'a>),
}

/// The data of a pair that are left, each with the pair's key.
#[derive(Drop)]
pub(crate) struct PairLeft<'s, 'a> {
    key: Datum<'s>,
    values: PairData<'s, 'a>,
}

impl<'s, 'a> Model for PairLeft<'s, 'a> {
    ghost use Rattle.std.specs.Prelude.{List, ℕ};
    ghost use Rattle.bdb_survey.specs.of_overflow.Datum.{datum_seen};
    ghost use Rattle.bdb_rescue.specs.Entries.{data_left};
    ghost use Rattle.bdb_rescue.specs.Kept.{under};

    ghost Value = { List (List ℕ × List ℕ) };

    ghost view = { λ v. under (datum_seen v.key) (data_left v.values) };
}

/// The data in a data item.
fn data_here<'s, 'a>(salvaged: &'s Salvaged<'a>, content: Content<'a>) -> PairData<'s, 'a>
    requires { IsTrue (is_held (file_in salvaged.now) (content_seen content)) }
    ensures { data_left result ≡ data_here (file_in salvaged.now) (content_seen content.entry) }
{
    match content {
        Content::Inline(bytes) => PairData::One(Datum::Inline(bytes)),
        Content::Set(blocks) => PairData::Blocks(blocks),
        Content::Overflow { head, total } => PairData::One(salvaged.chained(head, total)),
        Content::OffPage { .. } => PairData::None,
    }
}

/// The data of a pair.
pub(crate) fn pair_data<'s, 'a>(salvaged: &'s Salvaged<'a>, pair: KeptPair) -> PairData<'s, 'a>
    requires { IsKeptPair (file_in salvaged.now) pair }
    ensures { data_left result ≡ data_at (file_in salvaged.now) (item_of (file_in salvaged.now) pair.page (2 * pair.index + 1)).content pair.place }
{
    match pair.place {
        DataPlace::Here => {
            let index = 2 * u32::from(pair.index) + 1;
            data_here(salvaged, salvaged.pages().content(pair.page, index))
        }
        DataPlace::Set { leaf } => PairData::Set(salvaged.set(leaf)),
    }
}

impl<'s, 'a> PairData<'s, 'a> {
    /// The next datum.
    pub(crate) fn next(&mut self) -> Option<Datum<'s>>
        ensures { YieldsFirstBy datum_seen data_left self.old result self.new }
    {
        match self {
            PairData::None => None,
            PairData::Blocks(blocks) => match blocks.next() {
                Some(bytes) => Some(Datum::Inline(bytes)),
                None => None,
            },
            PairData::Set(values) => values.next(),
            PairData::One(datum) => {
                let datum = datum.again();
                *self = PairData::None;
                Some(datum)
            }
        }
    }
}

impl<'s, 'a> PairLeft<'s, 'a> {
    /// A pair with its data.
    #[tactic(auto, unfolding(crate::specs::Kept::given))]
    pub(crate) fn of(salvaged: &'s Salvaged<'a>, pair: KeptPair) -> PairLeft<'s, 'a>
        requires { IsKeptPair (file_in salvaged.now) pair }
        ensures { result ≡ given (file_in salvaged.now) pair }
    {
        PairLeft {
            key: salvaged.value_on(pair.page, 2 * u32::from(pair.index)),
            values: pair_data(salvaged, pair),
        }
    }

    /// The key with the next datum.
    pub(crate) fn next(&mut self) -> Option<(Datum<'s>, Datum<'s>)>
        ensures { YieldsFirstBy pair_read (λ left. left) self.old result self.new }
    {
        let datum = self.values.next()?;
        Some((self.key.again(), datum))
    }
}
