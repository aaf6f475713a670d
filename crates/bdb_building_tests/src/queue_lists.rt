//! Whether a queue can be built of a list, found by one pass from its end.

ghost use Rattle.std.specs.Prelude.{◌≡◌, IsTrue};
ghost use Rattle.bdb_need.specs.of_text_format.Terms.{pairs_of};
ghost use Rattle.bdb_need.specs.of_mkqueue.Lists.{IsQueueList};

use bdb_mktree::number_of;
use bdb_need::{PairSlice, Settings};

/// Whether a queue can be built of a list with these settings.
pub fn is_list_for(settings: &Settings, list: PairSlice<'_>) -> bool
    ensures { IsTrue result → IsQueueList settings.now (pairs_of list.entry) }
{
    let mut beyond = u32::MAX;
    let mut i = list.len();
    while i > 0 {
        i -= 1;
        let pair = list.at(i);
        let number = number_of(pair.key);
        if number >= beyond || pair.value.len() as u64 != u64::from(settings.re_len) {
            return false;
        }
        beyond = number;
    }
    beyond >= 1
}
