ghost use Rattle.std.specs.Prelude.{◌≡◌, ◌++◌, IfOk, List};
ghost use Rattle.std.specs.Iterator.{YieldsFirstBy, item_count};
ghost use Rattle.std.specs.Vec.Iter.{into_iter_items};
ghost use Rattle.bdb_buckets.specs.declared.place.PairPlace.{PairPlace as PlaceOf};

use bdb_buckets::{Forest, Head, Order, PairPlace, u16_at};
use std::alloc::{AllocError, Global};
use std::collections::VecDeque;
use std::marker::Model;
use std::vec::IntoIter;

/// How many places are taken at once.
const NEAR: usize = 32;

/// Places in the order of their keys, which lie apart from each other. A few are taken at once, and what is first read of their pairs is read then: so
/// the processor waits for several pages at once, and not for each by itself.
#[derive(Drop)]
pub(crate) struct Near<'a> {
    image: &'a [u8],
    head: Head,
    near: VecDeque<PairPlace>,
    rest: IntoIter<PairPlace>,
    // What was read. Nothing asks for it.
    seen: u8,
}

impl<'a> Model for Near<'a> {
    ghost use Rattle.std.specs.Prelude.{◌++◌, List};
    ghost use Rattle.std.specs.Vec.Iter.{into_iter_items};
    ghost use Rattle.bdb_buckets.specs.declared.place.PairPlace.{PairPlace};

    ghost Value = { List PairPlace };

    ghost view = { λ it. it.near.items ++ into_iter_items it.rest };
}

impl<'a> Near<'a> {
    /// These places of a file. It takes room for the few that are taken at once; an error means that memory ran out.
    pub(crate) fn over(
        alloc: Global,
        forest: &Forest<'a>,
        places: Vec<PairPlace>,
    ) -> Result<Near<'a>, AllocError>
        ensures { IfOk result (λ near. near ≡ places.items) }
    {
        Ok(Near {
            image: forest.image(),
            head: forest.head(),
            near: VecDeque::with_capacity(alloc, NEAR)?,
            rest: places.into_iter(),
            seen: 0,
        })
    }
}

/// The byte of a page to which an entry of its index points, if there is one.
fn byte_by(page: &[u8], order: Order, entry: usize) -> Option<u8> {
    if page.len() < 2 || entry > page.len() - 2 {
        return None;
    }
    let at = u16_at(page, entry, order);
    page.get(usize::from(at)).copied()
}

/// The sum of the page's type and of the first bytes of the key and the datum of the pair at a place.
fn first_bytes(image: &[u8], head: &Head, place: &PairPlace) -> Option<u8> {
    let size = head.page_size as usize;
    let first = (place.page as usize).saturating_mul(size);
    let page = image.get(first..first.saturating_add(size))?;
    let kind = page.get(25).copied()?;
    let entry = 26 + 4 * usize::from(place.index);
    let key = byte_by(page, head.order, entry)?;
    let datum = byte_by(page, head.order, entry + 2)?;
    Some(kind.wrapping_add(key).wrapping_add(datum))
}

/// Takes places as far as there is room for them, and answers what was read there.
fn take_near(
    near: &mut VecDeque<PairPlace>,
    rest: &mut IntoIter<PairPlace>,
    image: &[u8],
    head: &Head,
) -> u8
    ensures { near.new.items ++ into_iter_items rest.new ≡ near.old.items ++ into_iter_items rest.old }
{
    let mut seen: u8 = 0;
    for _ in 0..NEAR {
        if near.len() >= near.capacity() {
            return seen;
        }
        let Some(place) = rest.next() else {
            return seen;
        };
        seen = seen.wrapping_add(first_bytes(image, head, &place).unwrap_or(0));
        near.push_back_reserved(place);
    }
    seen
}

impl<'a> Iterator for Near<'a> {
    type Item = PairPlace;

    ghost next_gives = { YieldsFirstBy (λ (place : PlaceOf). place) (λ left. left) };

    ghost remaining = { item_count (λ left. left) };

    fn next(&mut self) -> Option<PairPlace> {
        if self.near.is_empty() {
            let seen = take_near(&mut self.near, &mut self.rest, self.image, &self.head);
            self.seen = self.seen.wrapping_add(seen);
        }
        match self.near.pop_front() {
            Some(place) => Some(place),
            None => self.rest.next(),
        }
    }
}
