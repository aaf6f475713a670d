ghost use Rattle.std.specs.Prelude.{◌≡◌, ◌≤◌, length};
ghost use Rattle.bdb_form.specs.Formed.{fields_as};
ghost use Rattle.bdb_layout.specs.of_format.Terms.{byte_at, header_of, page_type};

use bdb_layout::{Header, Order, PageBytes};
use std::marker::Model;

/// A metadata page. Its fields are read by `bdb_meta`.
#[derive(Drop)]
pub struct MetaView<'a> {
    page: PageBytes<'a>,
}

impl<'a> Model for MetaView<'a> {
    ghost use Rattle.bdb_form.specs.Formed.{HasHeader, MetaPage, fields_as};
    ghost use Rattle.bdb_layout.specs.of_format.Terms.{byte_at, header_of, page_type};

    ghost Value = { MetaPage };

    ghost view = { λ v. record {
      header = header_of v.page.order v.page.bytes.now;
      fields = fields_as v.page.order v.page.bytes.now
          (page_type (byte_at v.page.bytes.now 25));
    } };

    ghost invariant = { λ v. HasHeader v.page.bytes.now };
}

impl<'a> MetaView<'a> {
    /// The view of a page that is known to be metadata, as page 0 is: `form` answers it for those above 0.
    pub fn over(page: &'a [u8], order: Order) -> MetaView<'a>
        requires header { 26 ≤ length page.now }
        requires size { length page.now ≤ 32768 }
        ensures { result ≡ record { header = header_of order page.now; fields = fields_as order page.now (page_type (byte_at page.now 25)) } }
    {
        MetaView {
            page: PageBytes { bytes: page, order },
        }
    }

    /// Bytes 0 to 25 read as a header.
    pub fn header(&self) -> Header
        ensures { result ≡ self.now.header }
    {
        self.page.header()
    }
}
