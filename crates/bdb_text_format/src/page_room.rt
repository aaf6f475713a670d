//! Items of pages in a run. They may overlap, so together they may have many more bytes than their page: where they do, the page is put there once, and what is
//! left of them is found in it.
ghost use Rattle.std.specs.Prelude.{◌≡◌, ℕ, List, IfOk};
ghost use Rattle.bdb_text_format.specs.Gathered.{HasChains};
ghost use Rattle.bdb_text_format.specs.Placed.{IsPiecePut, Keeps};

use crate::Gathered;
use bdb_places::Span;
use std::alloc::AllocError;

/// How many bytes the items of a page may still have by themselves in a run, and where the whole page begins there, if it does.
#[derive(Clone, Copy, Debug)]
pub struct PageRoom {
    left: usize,
    copy: Option<u32>,
}

impl PageRoom {
    /// The room of a page of so many bytes, of which no item is put yet.
    pub fn new(size: usize) -> PageRoom {
        PageRoom {
            left: size,
            copy: None,
        }
    }

    // Whether so many bytes more are put by themselves.
    fn takes(&mut self, bytes: usize) -> bool {
        if self.left < bytes {
            return false;
        }
        self.left -= bytes;
        true
    }
}

#[tactic(auto, using(crate::proofs::PlacedLemmas::kept_on, crate::proofs::PlacedLemmas::kept_all))]
impl Gathered {
    // Where a page begins in the run, which is put there if it isn't yet.
    fn page_start(&mut self, page: &[u8], room: &mut PageRoom) -> Result<u32, AllocError>
        ensures kept { Keeps self.old.bytes self.new.bytes }
        ensures pairs { self.new.pairs ≡ self.old.pairs }
        ensures chains { (value : ℕ → List ℕ) → HasChains value self.old → HasChains value self.new }
    {
        if let Some(start) = room.copy {
            return Ok(start);
        }
        let span = self.put(page)?;
        room.copy = Some(span.start);
        Ok(span.start)
    }

    // Where bytes stand that are put at the end of the run, unless they stand at this place.
    fn find_or_put(&mut self, from: usize, piece: &[u8]) -> Result<Span, AllocError>
        ensures kept { Keeps self.old.bytes self.new.bytes }
        ensures pairs { self.new.pairs ≡ self.old.pairs }
        ensures chains { (value : ℕ → List ℕ) → HasChains value self.old → HasChains value self.new }
        ensures ok { IfOk result (IsPiecePut self.new.bytes piece.now) }
    {
        match self.find(from, piece) {
            Some(span) => Ok(span),
            None => self.put(piece),
        }
    }

    /// Adds bytes of an item that begin at a place of its page, unless the page has no room for them: then they are
    /// found in the whole page, which is added once. Answers where they stand. The errors are those of `put`.
    pub fn put_item(
        &mut self,
        item: &[u8],
        page: &[u8],
        at: usize,
        room: &mut PageRoom,
    ) -> Result<Span, AllocError>
        ensures kept { Keeps self.old.bytes self.new.bytes }
        ensures pairs { self.new.pairs ≡ self.old.pairs }
        ensures chains { (value : ℕ → List ℕ) → HasChains value self.old → HasChains value self.new }
        ensures ok { IfOk result (IsPiecePut self.new.bytes item.now) }
    {
        if room.takes(item.len()) {
            return self.put(item);
        }
        let start = self.page_start(page, room)?;
        self.find_or_put((start as usize).saturating_add(at), item)
    }
}
