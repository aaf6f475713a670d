ghost use Rattle.std.specs.Prelude.{◌≡◌, ◌<◌, ◌≤◌, IfOk, IsTrue, length, replicate};
ghost use Rattle.bdb_places.specs.of_format.Terms.{is_page_size};
ghost use Rattle.bdb_pack.specs.Built.{AreWhole, bytes_of, with_page};
ghost use Rattle.bdb_mkleaves.specs.LeafEntries.{with_field};
ghost use Rattle.bdb_mkleaves.specs.Leaves.{AreSomeLeaves};
ghost use Rattle.bdb_mkleaves.specs.Moved.{IsFirstMoved, IsMoved, first_leaf, second_leaf};

use crate::entries::set_previous;
use crate::leaves::Leaves;
use bdb_pack::{Pages, put_u32};
use std::alloc::AllocError;

/// Writes four bytes of the header of a page: at 8 its number, at 12 that of the page before. The root of a counted tree is alone on its level, so
/// it has at 12 how many entries the tree has.
pub(crate) fn set_field(pages: &mut Pages, page: u32, at: usize, number: u32)
    requires page { page < length pages.old.pages }
    requires header { at ≤ 16 }
    requires legal { IsTrue (is_page_size pages.old.size) }
    requires whole { AreWhole pages.old }
    ensures { pages.new ≡ with_page pages.old page (with_field pages.old.order (bytes_of pages.old page) at number) }
{
    let order = pages.order();
    put_u32(pages.page_mut(page), at, order, number);
}

// Makes a page one of zeros.
fn blank(pages: &mut Pages, page: u32)
    requires page { page < length pages.old.pages }
    requires whole { AreWhole pages.old }
    ensures { pages.new ≡ with_page pages.old page (replicate pages.old.size 0) }
{
    pages.page_mut(page).fill(0);
}

/// Moves a leaf behind all pages, and answers its new number: zeros stand in its place. It is refused where there are 2^21 pages.
pub(crate) fn move_leaf(pages: &mut Pages, from: u32) -> Result<u32, AllocError>
    requires legal { IsTrue (is_page_size pages.old.size) }
    requires whole { AreWhole pages.old }
    requires from { from < length pages.old.pages }
    ensures { IfOk result (λ number. IsMoved from number pages.old pages.new) }
{
    if pages.count() >= Pages::MAX {
        return Err(AllocError);
    }
    let number = pages.add_copy(from)?;
    set_field(pages, number, 8, number);
    blank(pages, from);
    Ok(number)
}

impl Leaves {
    // The number of the second leaf.
    fn second(&self) -> u32
        ensures { result ≡ second_leaf self.now }
    {
        match self.closed.get(1) {
            Some(second) => *second,
            None => self.last,
        }
    }

    /// Moves the first of several leaves behind all pages, and answers the number that it had: zeros stand there. It is refused
    /// where there are 2^21 pages.
    pub(crate) fn move_first(&mut self, pages: &mut Pages) -> Result<u32, AllocError>
        requires legal { IsTrue (is_page_size pages.old.size) }
        requires whole { AreWhole pages.old }
        requires leaves { AreSomeLeaves self.old pages.old }
        requires several { 1 ≤ length self.old.closed.items }
        ensures root { IfOk result (λ root. root ≡ first_leaf self.old) }
        ensures moved { IfOk result (λ _. IsFirstMoved self.old self.new pages.old pages.new) }
    {
        let first = self.closed[0];
        let number = move_leaf(pages, first)?;
        set_previous(pages, self.second(), number);
        self.closed[0] = number;
        Ok(first)
    }
}
