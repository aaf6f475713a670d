ghost use Rattle.std.specs.Prelude.{◌≡◌, ◌≤◌, ◌+◌, ◌*◌, length, drop, slice_index, slice_range};
ghost use Rattle.bdb_layout.specs.of_format.Terms.{four_at, has_bit, header_of, pad4};

use bdb_layout::{Header, PageBytes, slot_size};
use std::marker::Model;

/// A page of a queue: records of one length.
#[derive(Drop)]
pub struct QueueView<'a> {
    page: PageBytes<'a>,
}

impl<'a> Model for QueueView<'a> {
    ghost use Rattle.std.specs.Prelude.{drop};
    ghost use Rattle.bdb_form.specs.Formed.{HasHeader, QueuePage};
    ghost use Rattle.bdb_layout.specs.of_format.Terms.{four_at, header_of};

    ghost Value = { QueuePage };

    ghost view = { λ v. record {
      header = header_of v.page.order v.page.bytes.now;
      number = four_at v.page.order v.page.bytes.now 8;
      bytes = drop 28
          v.page.bytes.now;
    } };

    ghost invariant = { λ v. HasHeader v.page.bytes.now };
}

impl<'a> QueueView<'a> {
    pub(crate) fn over(page: PageBytes<'a>) -> QueueView<'a>
        requires header { 26 ≤ length page.bytes.now }
        requires size { length page.bytes.now ≤ 32768 }
        ensures { result ≡ record {
          header = header_of page.entry.order page.entry.bytes.now;
          number = four_at page.entry.order page.entry.bytes.now 8;
          bytes = drop 28 page.entry.bytes.now;
        } }
    {
        QueueView { page }
    }

    /// Bytes 0 to 25 read as a header.
    pub fn header(&self) -> Header
        ensures { result ≡ self.now.header }
    {
        self.page.header()
    }

    /// How many bytes the page has for its slots.
    pub fn room(&self) -> usize
        ensures { result ≡ length self.now.bytes }
    {
        self.page.bytes.len().saturating_sub(28)
    }

    /// The record in a slot, of `re_len` bytes, and whether it's valid. The slots begin at byte 28 of the
    /// page; each is a byte that says so, the record, and what pads the two to a multiple of 4.
    pub fn slot(&self, i: u32, re_len: u32) -> (bool, &'a [u8])
        requires { (i + 1) * pad4 (re_len + 1) ≤ length self.now.bytes }
        ensures valid { result.0 ≡ has_bit (slice_index self.now.bytes (i * pad4 (re_len + 1))) 1 }
        ensures record_bytes { result.1.now ≡ slice_range self.now.bytes (i * pad4 (re_len + 1) + 1) (i * pad4 (re_len + 1) + 1 + re_len) }
    {
        let page = self.page.bytes;
        let start = 28 + i as usize * slot_size(re_len);
        let end = start + 1 + re_len as usize;
        (page[start] & 1 != 0, &page[start + 1..end])
    }
}
