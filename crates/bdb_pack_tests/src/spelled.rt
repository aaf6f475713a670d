//! Pages of 512 bytes, spelled byte by byte.

ghost use Rattle.std.specs.Prelude.{◌≡◌};

use bdb_form::{Header, Order};

/// A page in an order: the bytes at its front and at its end. All between them are 0.
#[derive(Clone, Copy)]
pub struct Spelled {
    pub order: Order,
    pub front: &'static [u8],
    pub back: &'static [u8],
}

impl Spelled {
    /// Whether a page is spelled so.
    pub fn is(&self, page: &[u8]) -> bool {
        if page.len() < 512 || self.front.len() > 256 || self.back.len() > 256 {
            return false;
        }
        let (front, rest) = page.split_at(self.front.len());
        let (gap, back) = rest.split_at(rest.len() - self.back.len());
        front == self.front && back == self.back && gap.iter().all(|byte| *byte == 0)
    }
}

/// The bytes of the longest items.
pub const FILLING: [u8; 512] = [0x66; 512];

/// A header: page 1, with a page before it and after it. Its entries and its high free offset aren't those of a page that begins.
pub fn header(page_type: u8, level: u8) -> Header
    ensures { result.page_type ≡ page_type }
{
    Header {
        number: 1,
        previous: 0x0102,
        next: 0x03040506,
        entries: 7,
        high_free: 7,
        level,
        page_type,
    }
}
