ghost use Rattle.std.specs.Prelude.{◌≡◌, ◌<◌, if◌then◌else◌, []};
ghost use Rattle.std.specs.Iterator.{YieldsFirstBy, item_count};
ghost use Rattle.std.specs.List.{All, flat_map};
ghost use Rattle.bdb_rescue.specs.Entries.{pair_read};
ghost use Rattle.bdb_rescue.specs.Kept.{file_in, left_of};
ghost use Rattle.bdb_apart.specs.Left.{IsThere, pairs_on};

use crate::holds::{Holds, holds_pairs, kind_of};
use crate::rows::Pages;
use bdb_rescue::{Datum, SalvagePairs, Salvaged};
use std::marker::Model;

/// The pairs of a database that are left.
#[derive(Drop)]
pub struct Pairs<'t, 's, 'a> {
    salvaged: &'s Salvaged<'a>,
    holds: Holds,
    here: Option<SalvagePairs<'s, 'a>>,
    pages: Pages<'t>,
}

impl<'t, 's, 'a> Model for Pairs<'t, 's, 'a> {
    ghost use Rattle.std.specs.Prelude.{List, ℕ, ◌++◌};
    ghost use Rattle.std.specs.List.{All, flat_map};
    ghost use Rattle.bdb_rescue.specs.Kept.{file_in, left_of};
    ghost use Rattle.bdb_apart.specs.Left.{IsThere, pairs_on};

    ghost Value = { List (List ℕ × List ℕ) };

    ghost view = { λ v. left_of v.here ++ flat_map (pairs_on (file_in v.salvaged.now) v.holds) v.pages };

    ghost invariant = { λ v. All (IsThere (file_in v.salvaged.now)) v.pages };
}

impl<'t, 's, 'a> Pairs<'t, 's, 'a> {
    /// Those on some pages.
    pub(crate) fn over(
        salvaged: &'s Salvaged<'a>,
        holds: Holds,
        pages: Pages<'t>,
    ) -> Pairs<'t, 's, 'a>
        requires { All (IsThere (file_in salvaged.now)) pages }
        ensures { result ≡ flat_map (pairs_on (file_in salvaged.now) holds) pages.entry }
    {
        Pairs {
            salvaged,
            holds,
            here: None,
            pages,
        }
    }
}

/// The pairs of a page, where it holds some of a database.
fn pairs_of<'s, 'a>(
    salvaged: &'s Salvaged<'a>,
    holds: Holds,
    page: u32,
) -> Option<SalvagePairs<'s, 'a>>
    requires { page < (file_in salvaged.now).count }
    ensures { left_of result ≡ pairs_on (file_in salvaged.now) holds page }
{
    if holds_pairs(holds, kind_of(&salvaged.pages().page(page))) {
        Some(salvaged.pairs_on(page))
    } else {
        None
    }
}

/// The next pair of a page, if there is one.
fn next_here<'s>(here: &mut Option<SalvagePairs<'s, '_>>) -> Option<(Datum<'s>, Datum<'s>)>
    ensures { YieldsFirstBy pair_read left_of here.old result here.new }
{
    match here {
        Some(pairs) => pairs.next(),
        None => None,
    }
}

impl<'t, 's, 'a> Iterator for Pairs<'t, 's, 'a> {
    type Item = (Datum<'s>, Datum<'s>);

    ghost next_gives = { YieldsFirstBy pair_read (λ left. left) };

    ghost remaining = { item_count (λ left. left) };

    #[tactic(auto, using(crate::proofs::LeftLemmas::pages_rest, crate::proofs::LeftLemmas::first_page))]
    fn next(&mut self) -> Option<(Datum<'s>, Datum<'s>)> {
        'walk: loop {
            match next_here(&mut self.here) {
                Some(pair) => return Some(pair),
                None => {}
            }
            let page = self.pages.next()?;
            self.here = pairs_of(self.salvaged, self.holds, page);
        }
    }
}
