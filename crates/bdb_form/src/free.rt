ghost use Rattle.std.specs.Prelude.{◌≡◌, ◌≤◌, length};
ghost use Rattle.bdb_layout.specs.of_format.Terms.{header_of};

use bdb_layout::{Header, PageBytes};
use std::marker::Model;

/// A free page: its header, whose next names the next free page.
#[derive(Drop)]
pub struct FreeView<'a> {
    page: PageBytes<'a>,
}

impl<'a> Model for FreeView<'a> {
    ghost use Rattle.bdb_form.specs.Formed.{HasHeader};
    ghost use Rattle.bdb_layout.specs.of_format.Terms.{header_of};
    ghost use Rattle.bdb_layout.specs.of_format.declared.pages.Header.{Header};

    ghost Value = { Header };

    ghost view = { λ v. header_of v.page.order v.page.bytes.now };

    ghost invariant = { λ v. HasHeader v.page.bytes.now };
}

impl<'a> FreeView<'a> {
    pub(crate) fn over(page: PageBytes<'a>) -> FreeView<'a>
        requires header { 26 ≤ length page.bytes.now }
        requires size { length page.bytes.now ≤ 32768 }
        ensures { result ≡ header_of page.entry.order page.entry.bytes.now }
    {
        FreeView { page }
    }

    /// The fields of the page's header.
    pub fn header(&self) -> Header
        ensures { result ≡ self.now }
    {
        self.page.header()
    }

    /// The page after it, 0 for none.
    pub fn next(&self) -> u32
        ensures { result ≡ self.now.next }
    {
        self.page.u32_at(16)
    }
}
