ghost use Rattle.std.specs.Prelude.{◌≡◌, ◌≤◌, IfOk, true, map};
ghost use Rattle.std.specs.Iterator.{YieldsFirstBy, item_count};
ghost use Rattle.bdb_buckets.specs.Places.{ArePlaces, has_pair, told_at, told_on};
ghost use Rattle.bdb_buckets.specs.Views.{IsTable};
ghost use Rattle.bdb_buckets.specs.of_format.Terms.{file_of, page_at};

use crate::near::Near;
use bdb_buckets::{Forest, PageView, Pair, PairPlace};
use std::alloc::{AllocError, Global};
use std::marker::Model;

/// The pairs of a table that are left, in the order of their keys, each read where it stands.
#[derive(Drop)]
pub struct Ranked<'a> {
    forest: Forest<'a>,
    rest: Near<'a>,
}

impl<'a> Model for Ranked<'a> {
    ghost use Rattle.std.specs.Prelude.{List, map};
    ghost use Rattle.bdb_buckets.specs.Places.{ArePlaces, told_at};
    ghost use Rattle.bdb_buckets.specs.Told.{Told};

    ghost Value = { List Told };

    ghost view = { λ it. map (told_at it.forest) it.rest };

    ghost invariant = { λ it. ArePlaces it.forest it.rest };
}

impl<'a> Ranked<'a> {
    /// The pairs at these places. An error means that memory ran out.
    pub(crate) fn over(
        alloc: Global,
        forest: &Forest<'a>,
        places: Vec<PairPlace>,
    ) -> Result<Ranked<'a>, AllocError>
        requires { ArePlaces forest.now places.items }
        ensures { IfOk result (λ pairs. pairs ≡ map (told_at forest.now) places.items) }
    {
        Ok(Ranked {
            forest: forest.again(),
            rest: Near::over(alloc, forest, places)?,
        })
    }
}

/// The pair with this index of a hash page.
fn read_at<'a>(forest: &Forest<'a>, page: u32, index: u16) -> Pair<'a>
    requires table { IsTable forest.now }
    requires inside { page ≤ (file_of forest.now).last }
    requires there { has_pair (page_at (file_of forest.now) page) index ≡ true }
    ensures { result ≡ told_on forest.now page index }
{
    match forest.page(page) {
        PageView::Hash(view) => Pair::of(forest, page, view.pair(index)),
        _ => unreachable!(),
    }
}

impl<'a> Iterator for Ranked<'a> {
    type Item = Pair<'a>;

    ghost next_gives = { YieldsFirstBy (λ pair. pair) (λ left. left) };

    ghost remaining = { item_count (λ left. left) };

    fn next(&mut self) -> Option<Pair<'a>> {
        let place = self.rest.next()?;
        Some(read_at(&self.forest, place.page, place.index))
    }
}
