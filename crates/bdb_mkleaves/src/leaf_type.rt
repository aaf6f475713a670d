ghost use Rattle.std.specs.Prelude.{◌≡◌};
ghost use Rattle.bdb_mkleaves.specs.Laid.{inner_of};
ghost use Rattle.bdb_mkleaves.specs.LeafEntries.{count_of, type_number};

use bdb_law_levels::InnerType;
use bdb_places::PageType;

/// The types of leaves of trees.
#[derive(Clone, Copy, Debug, PartialEq, Eq)]
pub enum LeafType {
    /// Keys with their data.
    Pairs,
    /// Records, or the data of a key in the order in which they came.
    Records,
    /// The data of a key, sorted.
    SortedData,
}

impl LeafType {
    /// The type byte of such a page.
    pub(crate) fn number(self) -> u8
        ensures { result ≡ type_number self }
    {
        match self {
            LeafType::Pairs => PageType::LEAF,
            LeafType::Records => PageType::RECNO_LEAF,
            LeafType::SortedData => PageType::DUP_LEAF,
        }
    }

    /// How many pairs or entries such a page has, by the entries of its index.
    pub(crate) fn count(self, entries: u32) -> u32
        ensures { result ≡ count_of self entries }
    {
        match self {
            LeafType::Pairs => entries / 2,
            LeafType::Records | LeafType::SortedData => entries,
        }
    }

    /// The type of the internal pages over such leaves.
    pub(crate) fn inner(self) -> InnerType
        ensures { result ≡ inner_of self }
    {
        match self {
            LeafType::Pairs | LeafType::SortedData => InnerType::Keyed,
            LeafType::Records => InnerType::Numbered,
        }
    }
}
