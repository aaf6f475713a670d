ghost use Rattle.std.specs.Prelude.{◌≡◌, ◌+◌, ◌≤◌, length};
ghost use Rattle.bdb_format.specs.Terms.{four_at, header_of, two_at};

use crate::{header, u16_at, u32_at};
use bdb_format::{Header, Order};

/// Bytes of a page, and the order in which its numbers are spelled.
#[derive(Clone, Copy)]
pub struct PageBytes<'a> {
    pub bytes: &'a [u8],
    pub order: Order,
}

impl PageBytes<'_> {
    /// The header of the page.
    #[inline(always)]
    pub fn header(self) -> Header
        requires { 26 ≤ length self.bytes.now }
        ensures { result ≡ header_of self.entry.order self.entry.bytes.now }
    {
        header(self.bytes, self.order)
    }

    /// The number in the two bytes at a place.
    #[inline(always)]
    pub fn u16_at(self, at: usize) -> u16
        requires { at + 2 ≤ length self.bytes.now }
        ensures { result ≡ two_at self.entry.order self.entry.bytes.now at }
    {
        u16_at(self.bytes, at, self.order)
    }

    /// The number in the four bytes at a place.
    #[inline(always)]
    pub fn u32_at(self, at: usize) -> u32
        requires { at + 4 ≤ length self.bytes.now }
        ensures { result ≡ four_at self.entry.order self.entry.bytes.now at }
    {
        u32_at(self.bytes, at, self.order)
    }
}
