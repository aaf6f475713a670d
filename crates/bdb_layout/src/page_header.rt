ghost use Rattle.std.specs.Prelude.{◌≡◌, ◌≤◌, length};
ghost use Rattle.bdb_format.specs.Terms.{byte_at, header_of, page_type};

use crate::{u16_at, u32_at};
use bdb_format::{Header, Order, PageType};

/// The header of a page.
pub fn header(page: &[u8], order: Order) -> Header
    requires { 26 ≤ length page.now }
    ensures { result ≡ header_of order page.now }
{
    Header {
        number: u32_at(page, 8, order),
        previous: u32_at(page, 12, order),
        next: u32_at(page, 16, order),
        entries: u16_at(page, 20, order),
        high_free: u16_at(page, 22, order),
        level: page[24],
        page_type: page[25],
    }
}

/// The type of a page.
pub fn page_type(page: &[u8]) -> PageType
    requires { 26 ≤ length page.now }
    ensures { result ≡ page_type (byte_at page.now 25) }
{
    PageType::of(page[25])
}
