ghost use Rattle.std.specs.Prelude.{◌≡◌, ◌≤◌, length};
ghost use Rattle.bdb_form.specs.Formed.{HoldsData, overflow_data, unless};
ghost use Rattle.bdb_layout.specs.of_format.Terms.{body_code, header_of};
ghost use Rattle.bdb_layout.specs.of_format.declared.pages.PageType.TheVariants.{Overflow as OverflowPage};

use bdb_layout::{Header, PageBytes};
use std::marker::Model;

/// A page of a chain: a piece of a value.
#[derive(Drop)]
pub struct OverflowView<'a> {
    page: PageBytes<'a>,
}

impl<'a> Model for OverflowView<'a> {
    ghost use Rattle.bdb_form.specs.Formed.{HoldsData, OverflowPage, overflow_data};
    ghost use Rattle.bdb_layout.specs.of_format.Terms.{header_of};

    ghost Value = { OverflowPage };

    ghost view = { λ v. record { header = header_of v.page.order v.page.bytes.now; bytes = overflow_data v.page.order v.page.bytes.now } };

    ghost invariant = { λ v. HoldsData v.page.order v.page.bytes.now };
}

impl<'a> OverflowView<'a> {
    // The view of a page of this type whose data lie on it.
    pub(crate) fn over(page: PageBytes<'a>) -> OverflowView<'a>
        requires { HoldsData page.order page.bytes.now }
        ensures { result ≡ record { header = header_of page.entry.order page.entry.bytes.now; bytes = overflow_data page.entry.order page.entry.bytes.now } }
    {
        OverflowView { page }
    }

    /// The fields of the page's header: its entries are the references to the chain that it heads.
    pub fn header(&self) -> Header
        ensures { result ≡ self.now.header }
    {
        self.page.header()
    }

    /// The page after it, 0 for none.
    pub fn next(&self) -> u32
        ensures { result ≡ self.now.header.next }
    {
        self.page.u32_at(16)
    }

    /// The data on the page.
    pub fn bytes(&self) -> &'a [u8]
        ensures { result.now ≡ self.now.bytes }
    {
        let length = usize::from(self.page.u16_at(22));
        &self.page.bytes[26..26 + length]
    }
}
