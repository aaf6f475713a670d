ghost use Rattle.std.specs.Prelude.{◌≡◌, ◌+◌, ◌/◌, ◌^◌, ◌<◌, ◌≤◌, ◌∷◌, ◌==◌, [], ℕ, List, IsTrue, length, take, drop};
ghost use Rattle.std.specs.Iterator.{YieldsFirstBy, item_count};
ghost use Rattle.bdb_graph.specs.of_format.Terms.{file_as, is_page_size, joined, pieces_of, two_at};
ghost use Rattle.bdb_overflow.specs.Taken.{ArePassedBy, ArePassedIfAny, IsOnWay, full_pieces, taken_pieces};
ghost use Rattle.bdb_overflow.specs.Whole.{IsLeft, IsWholeChain, bytes_of, pieces_from};

use crate::taken::Taken;
use bdb_graph::{Blanks, Order, page_slice, u16_at, u32_at};
use std::marker::Model;

/// The bytes of a page that an image has whole, by the size of a page.
#[tactic(auto, using(crate::proofs::WholeLemmas::page_room))]
pub fn page_bytes<'a>(image: &'a [u8], size: u32, number: u32) -> &'a [u8]
    requires some { 1 ≤ size }
    requires there { number < length image.now / size }
    ensures bytes { result.now ≡ bytes_of size image.now number }
    ensures whole { length result.now ≡ size }
{
    page_slice(image, size, number)
}

/// The data on a page of a chain.
fn data_of<'a>(page: &'a [u8], order: Order) -> &'a [u8]
    requires header { 26 ≤ length page.now }
    requires room { 26 + two_at order page.now 22 ≤ length page.now }
    ensures { result.now ≡ take (two_at order page.now 22) (drop 26 page.now) }
{
    let length = usize::from(u16_at(page, 22, order));
    &page[26..26 + length]
}

/// The first piece of a whole chain, and the page after it, 0 for none.
#[tactic(auto, using(crate::proofs::WholeLemmas::whole_link, crate::proofs::WholeLemmas::pieces_from_cons, crate::proofs::WholeLemmas::after_left))]
fn first_piece<'a>(image: &'a [u8], order: Order, size: u32, head: u32) -> (&'a [u8], u32)
    requires size { IsTrue (is_page_size size) }
    requires whole { IsWholeChain order size image.now head }
    ensures pieces { pieces_from order size image.now head ≡ result.0.now ∷ pieces_from order size image.now result.1 }
    ensures rest { IsLeft order size image.now result.1 }
{
    let page = page_bytes(image, size, head);
    (data_of(page, order), u32_at(page, 16, order))
}

/// The first page with data from one on, or 0 where there is none. Those that are passed over aren't looked at.
#[tactic(auto, using(crate::proofs::WholeLemmas::left_whole, crate::proofs::WholeLemmas::at_end))]
fn with_data(image: &[u8], order: Order, size: u32, taken: &Taken, from: u32) -> u32
    requires size { IsTrue (is_page_size size) }
    requires left { IsLeft order size image.now from }
    requires passed { ArePassedBy order size image.now taken.now }
    ensures left { IsLeft order size image.now result }
    ensures same { full_pieces (pieces_from order size image.now result) ≡ full_pieces (pieces_from order size image.now from) }
    ensures first { (piece : List ℕ) (rest : List (List ℕ)) → pieces_from order size image.now result ≡ piece ∷ rest
        → full_pieces (piece ∷ rest) ≡ piece ∷ full_pieces rest }
{
    let mut at = taken.past(from);
    while at != 0 {
        let (piece, next) = first_piece(image, order, size, at);
        if !piece.is_empty() {
            return at;
        }
        at = taken.past(next);
    }
    0
}

/// The page of the first piece from a page on, or 0 where there is none.
fn first_taken(image: &[u8], order: Order, size: u32, taken: &Taken, from: u32) -> u32
    requires size { IsTrue (is_page_size size) }
    requires left { IsLeft order size image.now from }
    requires passed { ArePassedBy order size image.now taken.now }
    ensures left { IsLeft order size image.now result }
    ensures same { taken_pieces taken.now (pieces_from order size image.now result) ≡ taken_pieces taken.now (pieces_from order size image.now from) }
    ensures first { (piece : List ℕ) (rest : List (List ℕ)) → pieces_from order size image.now result ≡ piece ∷ rest
        → taken_pieces taken.now (piece ∷ rest) ≡ piece ∷ taken_pieces taken.now rest }
{
    match taken {
        Taken::Each => from,
        Taken::WithData(_) => with_data(image, order, size, taken, from),
    }
}

/// The pieces of a value that are left, slices of the image: one for each page of its chain, or for each that has data.
pub struct Pieces<'a> {
    image: &'a [u8],
    order: Order,
    size: u32,
    next: u32,
    taken: Taken,
}

impl Drop for Pieces<'_> {
    #[inline(always)]
    fn drop(self) {
        let Pieces {
            image: _image,
            order: _order,
            size: _size,
            next: _next,
            taken: _taken,
        } = self;
    }
}

impl<'a> Model for Pieces<'a> {
    ghost use Rattle.std.specs.Prelude.{List, ℕ};
    ghost use Rattle.bdb_overflow.specs.Taken.{IsOnWay, taken_pieces};
    ghost use Rattle.bdb_overflow.specs.Whole.{pieces_from};

    ghost Value = { List (List ℕ) };

    ghost view = { λ it. taken_pieces it.taken (pieces_from it.order it.size it.image.now it.next) };

    ghost invariant = { λ it. IsOnWay it.order it.size it.image.now it.next it.taken };
}

#[tactic(auto, using(crate::proofs::WholeLemmas::none_left, crate::proofs::WholeLemmas::at_end))]
impl<'a> Pieces<'a> {
    // The pieces of what is left of a chain, from a page on.
    fn over(image: &'a [u8], order: Order, size: u32, next: u32, taken: Taken) -> Pieces<'a>
        requires left { IsLeft order size image.now next }
        requires passed { ArePassedBy order size image.now taken }
        ensures { result ≡ taken_pieces taken (pieces_from order size image.entry.now next) }
    {
        Pieces {
            image,
            order,
            size,
            next,
            taken,
        }
    }

    /// No pieces.
    pub(crate) fn none() -> Pieces<'a>
        ensures { result ≡ [] }
    {
        Pieces {
            image: &[],
            order: Order::Big,
            size: 512,
            next: 0,
            taken: Taken::Each,
        }
    }

    /// The same pieces once more.
    pub fn again(&self) -> Pieces<'a>
        ensures { result ≡ self.now }
    {
        Pieces {
            image: self.image,
            order: self.order,
            size: self.size,
            next: self.next,
            taken: self.taken.again(),
        }
    }

    /// How many bytes the pieces have together.
    #[tactic(auto, using(crate::proofs::TakenLemmas::taken_short))]
    pub(crate) fn length(&self) -> u64
        ensures { result ≡ length (joined self.now) }
    {
        // What holds of the pieces is known where a field of them is looked at.
        let _ = &self.image;
        length_of(self.again())
    }

    /// Whether the pieces have this many bytes together.
    pub(crate) fn has_length(&self, len: u64) -> bool
        ensures { result ≡ (length (joined self.now) == len) }
    {
        // What holds of the pieces is known where a field of them is looked at.
        let _ = &self.image;
        have_length(self.again(), len)
    }
}

/// Whether pieces have this many bytes together.
fn have_length(pieces: Pieces<'_>, len: u64) -> bool
    ensures { result ≡ (length (joined pieces.entry) == len) }
{
    let mut left = len;
    for piece in pieces {
        let here = piece.len() as u64;
        if here > left {
            return false;
        }
        left -= here;
    }
    left == 0
}

/// How many bytes pieces have together.
fn length_of(pieces: Pieces<'_>) -> u64
    requires { length (joined pieces) < 2 ^ 64 }
    ensures { result ≡ length (joined pieces.entry) }
{
    let mut total = 0;
    for piece in pieces {
        total += piece.len() as u64;
    }
    total
}

/// The pieces of the chain with this head on an image, by its order and page size.
#[tactic(auto, using(crate::proofs::WholeLemmas::all_left, crate::proofs::WholeLemmas::pieces_from_all, crate::proofs::WholeLemmas::pieces_few_as))]
pub fn pieces_at<'a>(image: &'a [u8], order: Order, page_size: u32, head: u32) -> Pieces<'a>
    requires size { IsTrue (is_page_size page_size) }
    requires whole { IsWholeChain order page_size image.now head }
    ensures pieces { result ≡ pieces_of (file_as order page_size image.now) head }
    ensures few { length result ≤ length image.now / page_size }
{
    Pieces::over(image, order, page_size, head, Taken::Each)
}

/// The pieces of such a chain that have data. Pages that are known to have none are passed over.
#[tactic(auto, using(crate::proofs::WholeLemmas::all_left, crate::proofs::TakenLemmas::full_from_all, crate::proofs::TakenLemmas::full_few_as))]
pub(crate) fn full_pieces_at<'a>(
    image: &'a [u8],
    order: Order,
    page_size: u32,
    head: u32,
    blanks: Option<Blanks>,
) -> Pieces<'a>
    requires size { IsTrue (is_page_size page_size) }
    requires whole { IsWholeChain order page_size image.now head }
    requires passed { ArePassedIfAny order page_size image.now blanks }
    ensures pieces { result ≡ full_pieces (pieces_of (file_as order page_size image.now) head) }
    ensures few { length result ≤ length image.now / page_size }
{
    Pieces::over(image, order, page_size, head, Taken::WithData(blanks))
}

impl<'a> Iterator for Pieces<'a> {
    type Item = &'a [u8];

    ghost next_gives = { YieldsFirstBy (λ piece. piece.now) (λ left. left) };

    ghost remaining = { item_count (λ left. left) };

    #[tactic(auto, using(crate::proofs::WholeLemmas::at_end, crate::proofs::WholeLemmas::left_whole))]
    fn next(&mut self) -> Option<&'a [u8]> {
        self.next = first_taken(self.image, self.order, self.size, &self.taken, self.next);
        if self.next == 0 {
            return None;
        }
        let (piece, next) = first_piece(self.image, self.order, self.size, self.next);
        self.next = next;
        Some(piece)
    }
}
