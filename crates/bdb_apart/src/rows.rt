ghost use Rattle.std.specs.Prelude.{◌≡◌, ◌<◌, ◌≤◌, ◌+◌, ◌^◌, IfOk, List, None, Option, Some, get_or, length, ℕ};
ghost use Rattle.std.specs.Iterator.{YieldsFirst};
ghost use Rattle.bdb_apart.specs.Rows.{AreBelow, AreRows, first_from, row_from};

use std::alloc::{AllocError, Global};
use std::marker::Model;

/// Puts a page before those of its row.
fn put(first: &mut [Option<u32>], next: &mut [Option<u32>], above: u32, page: u32)
    requires above { above < length first.old }
    requires page { page < length next.old }
    ensures rows { (aboves : List (Option ℕ)) → get_or aboves page None ≡ Some above → AreRows aboves first.old next.old (page + 1)
        → AreRows aboves first.new next.new page }
    ensures first_len { length first.new ≡ length first.old }
    ensures next_len { length next.new ≡ length next.old }
{
    next[page as usize] = first[above as usize];
    first[above as usize] = Some(page);
}

/// Puts a page before those of its row, if it's below another.
#[tactic(auto, using(crate::proofs::RowLemmas::put_nowhere, crate::proofs::RowLemmas::below_there))]
fn put_below(first: &mut [Option<u32>], next: &mut [Option<u32>], above: &[Option<u32>], page: u32)
    requires page { page < length above.now }
    requires within { AreBelow above.now }
    requires rows { AreRows above.now first.old next.old (page + 1) }
    ensures { AreRows above.now first.new next.new page }
{
    match above[page as usize] {
        Some(meta) => put(first, next, meta, page),
        None => {}
    }
}

/// Rows of pages: the page that each is below, if it's below one, the first page below each, and for each page the next one below the same.
#[derive(Drop)]
pub(crate) struct Rows {
    above: Vec<Option<u32>>,
    first: Vec<Option<u32>>,
    next: Vec<Option<u32>>,
}

impl Model for Rows {
    ghost use Rattle.std.specs.Prelude.{List, Option, ℕ, zero};
    ghost use Rattle.bdb_apart.specs.Rows.{IsRows};

    ghost Value = { List (Option ℕ) };

    ghost view = { λ v. v.above.items };

    ghost invariant = { λ v. IsRows v.above.items v.first.items v.next.items };
}

impl Rows {
    /// The rows of pages that are below these, put from behind.
    pub(crate) fn of(alloc: Global, above: Vec<Option<u32>>) -> Result<Rows, AllocError>
        requires few { length above.items < 2 ^ 32 }
        requires within { AreBelow above.items }
        ensures { IfOk result (λ rows. rows ≡ above.items) }
    {
        let count = above.len() as u32;
        let mut first = vec![in alloc; None; count as usize]?;
        let mut next = vec![in alloc; None; count as usize]?;
        let mut left = count;
        'pages: while left > 0 {
            left -= 1;
            put_below(&mut first, &mut next, &above, left);
        }
        Ok(Rows { above, first, next })
    }

    /// The page that a page is below.
    pub(crate) fn above(&self, page: u32) -> Option<u32>
        requires { page < length self.now }
        ensures { result ≡ get_or self.now page None }
    {
        self.above[page as usize]
    }

    /// The first page below one.
    fn first(&self, meta: u32) -> Option<u32>
        ensures { result ≡ first_from self.now meta 0 }
    {
        if (meta as usize) < self.first.len() {
            self.first[meta as usize]
        } else {
            None
        }
    }

    /// The pages below one, in their order.
    pub(crate) fn row(&self, meta: u32) -> Pages<'_>
        ensures { result ≡ row_from self.now meta 0 }
    {
        Pages {
            above: &self.above,
            next: &self.next,
            meta,
            at: self.first(meta),
        }
    }
}

/// The pages of a row that are left.
#[derive(Drop)]
pub struct Pages<'t> {
    above: &'t [Option<u32>],
    next: &'t [Option<u32>],
    meta: u32,
    at: Option<u32>,
}

impl<'t> Model for Pages<'t> {
    ghost use Rattle.std.specs.Prelude.{List, ℕ};
    ghost use Rattle.bdb_apart.specs.Rows.{IsAt, row_left};

    ghost Value = { List ℕ };

    ghost view = { λ v. row_left v.above.now v.meta v.at };

    ghost invariant = { λ v. IsAt v.above.now v.next.now v.meta v.at };
}

impl<'t> Iterator for Pages<'t> {
    type Item = u32;

    ghost next_gives = { YieldsFirst (λ left. left) };

    ghost remaining = { Rattle.std.specs.Iterator.item_count (λ left. left) };

    #[tactic(auto, using(crate::proofs::RowLemmas::at_next, crate::proofs::RowLemmas::row_next))]
    fn next(&mut self) -> Option<u32> {
        let page = self.at?;
        self.at = self.next[page as usize];
        Some(page)
    }
}
