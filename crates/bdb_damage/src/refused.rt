ghost use Rattle.std.specs.Prelude.{◌≡◌};
ghost use Rattle.std.specs.Iterator.{YieldsFirstBy, item_count};
ghost use Rattle.bdb_apart.specs.of_format.Terms.{fault_seen, form_row_code};
ghost use Rattle.bdb_damage.specs.Pages.{refused_pages};

use crate::rows::row_at;
use crate::unjudged::Unjudged;
use bdb_apart::Apart;
use bdb_format::{FormRow, Named, Row};
use std::marker::Model;

/// The refused pages that are left.
#[derive(Drop)]
pub struct RefusedPages<'s, 'a> {
    pages: Unjudged<'s, 'a>,
}

impl<'s, 'a> Model for RefusedPages<'s, 'a> {
    ghost use Rattle.std.specs.Prelude.{◌≡◌, List};
    ghost use Rattle.bdb_apart.specs.of_format.declared.kinds.Fault.{Fault};
    ghost use Rattle.bdb_damage.specs.Pages.{is_queue_file};
    ghost use Rattle.bdb_damage.specs.Walks.{refused_from};

    ghost Value = { List Fault };

    ghost view = { λ v. refused_from v.pages.salvaged.now v.pages.page };

    ghost invariant = { λ v. v.pages.queue ≡ is_queue_file v.pages.salvaged.now };
}

/// The pages on which a row of stage 2 holds, in order, each with the first such row. A page is judged as if it stood at the number that it carries,
/// with the last whole page as the last one: so PageNumber never holds.
pub fn refused_pages<'s, 'a>(apart: &Apart<'s, 'a>) -> RefusedPages<'s, 'a>
    ensures { result ≡ refused_pages apart.now }
{
    RefusedPages {
        pages: Unjudged::of(apart.salvaged()),
    }
}

/// A row of form at a page.
fn form_at(row: FormRow, page: u32) -> Named
    ensures { fault_seen result ≡ record { stage = 2; page = page; code = form_row_code row } }
{
    Row::Form(row).at(page)
}

impl<'s, 'a> Iterator for RefusedPages<'s, 'a> {
    type Item = Named;

    ghost next_gives = { YieldsFirstBy fault_seen (λ left. left) };

    ghost remaining = { item_count (λ left. left) };

    #[tactic(auto, using(crate::proofs::WalkLemmas::refused_none, crate::proofs::WalkLemmas::refused_some, crate::proofs::WalkLemmas::refused_end))]
    fn next(&mut self) -> Option<Named> {
        'walk: loop {
            let page = self.pages.next_page()?;
            match row_at(self.pages.salvaged, self.pages.queue, page) {
                Some(row) => return Some(form_at(row, page)),
                None => {}
            }
        }
    }
}
