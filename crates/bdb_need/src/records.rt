ghost use Rattle.std.specs.Prelude.{◌≡◌, ◌<◌, ◌^◌, Bool, IsTrue};
ghost use Rattle.std.specs.List.{All};
ghost use Rattle.bdb_mkhash.specs.of_format.Terms.{is_page_size};
ghost use Rattle.bdb_mkhash.specs.of_mkleaves.Runs.{IsShort};
ghost use Rattle.bdb_mkhash.specs.of_mkleaves.Spread.{tree_size};
ghost use Rattle.bdb_mkhash.specs.of_mkleaves.declared.leaf_type.LeafType.TheVariants.{Records};
ghost use Rattle.bdb_mkhash.specs.of_text_format.Terms.{AscendFrom, slice_seen};
ghost use Rattle.bdb_mkhash.specs.of_mktree.Lists.{record_units};
ghost use Rattle.bdb_need.specs.Counting.{values_in};
ghost use Rattle.bdb_need.specs.TreePages.{unlined_pairs};
ghost use Rattle.bdb_settle.specs.Loaded.{filled_pairs};

use crate::open_page::OpenPage;
use bdb_mkhash::{PairSlice, Settings, length_chain, number_of, page_room, record_cost};
use bdb_settle::filled_len;

/// The pages of a recno with these records, once they are filled up. Those that are missing before one are counted at once.
pub(crate) fn record_pages(size: usize, settings: &Settings, pairs: PairSlice<'_>) -> u128
    requires legal { IsTrue (is_page_size size) }
    requires ascend { AscendFrom 1 (unlined_pairs (filled_pairs settings.now (slice_seen pairs))) }
    requires short { All IsShort (values_in (filled_pairs settings.now (slice_seen pairs))) }
    ensures pages { (sorted : Bool) → result ≡ tree_size Records size sorted
        (record_units 1 (unlined_pairs (filled_pairs settings.now (slice_seen pairs.entry)))) }
    ensures few { result < 2 ^ 100 }
{
    let missing = record_cost(size, 0);
    let mut open = OpenPage::new(page_room(size));
    let mut chains: u128 = 0;
    let mut next: u64 = 1;
    for i in 0..pairs.len() {
        let pair = pairs.at(i);
        let number = u64::from(number_of(pair.key));
        let len = filled_len(settings, pair.value);
        open.put_many(number - next, missing);
        open.put(record_cost(size, len));
        chains += length_chain(size, len);
        next = number + 1;
    }
    chains + open.tree_pages()
}
