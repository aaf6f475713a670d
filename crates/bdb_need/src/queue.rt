ghost use Rattle.std.specs.Prelude.{◌≡◌, ◌+◌, ◌-◌, ◌≤◌, ◌<◌, ◌^◌, IsTrue};
ghost use Rattle.bdb_mkhash.specs.of_format.Terms.{is_page_size, pad4, records_per_page};
ghost use Rattle.bdb_mkqueue.specs.Layout.{queue_size};
ghost use Rattle.bdb_mkhash.specs.of_text_format.Terms.{AscendFrom};
ghost use Rattle.bdb_need.specs.TreePages.{unlined_pairs};

use bdb_mkhash::{Settings, TextPairs, number_of, records_per_page};
use bdb_mkqueue::page_of_record;

/// How many pages the queue of a list has, its metadata not counted: those up to the page of its greatest record.
pub fn queue_pages(settings: &Settings, list: &TextPairs) -> u32
    requires legal { IsTrue (is_page_size settings.now.page_size) }
    requires room { pad4 (settings.now.re_len + 1) ≤ settings.now.page_size - 28 }
    requires ascend { AscendFrom 1 (unlined_pairs list.now) }
    ensures pages { result ≡ queue_size (records_per_page settings.now.page_size settings.now.re_len) (unlined_pairs list.now) }
    ensures few { result ≤ 2 ^ 32 }
{
    match list.as_slice().last() {
        Some(pair) => {
            let per_page = records_per_page(settings.page_size, settings.re_len);
            page_of_record(per_page, number_of(pair.key))
        }
        None => 0,
    }
}
