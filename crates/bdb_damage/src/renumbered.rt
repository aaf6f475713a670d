ghost use Rattle.std.specs.Prelude.{◌≡◌, ◌<◌, ℕ};
ghost use Rattle.std.specs.Iterator.{YieldsFirst, item_count};
ghost use Rattle.bdb_apart.specs.of_rescue.Kept.{file_in};
ghost use Rattle.bdb_apart.specs.Queues.{bytes_at};
ghost use Rattle.bdb_damage.specs.Pages.{is_queue_file, is_renumbered, number_on, renumbered_pages};

use crate::pages::is_zero_at;
use crate::rows::row_at;
use crate::unjudged::Unjudged;
use bdb_apart::{Apart, Salvaged, u32_at};
use std::marker::Model;

/// The pages with another number that are left.
#[derive(Drop)]
pub struct RenumberedPages<'s, 'a> {
    pages: Unjudged<'s, 'a>,
}

impl<'s, 'a> Model for RenumberedPages<'s, 'a> {
    ghost use Rattle.std.specs.Prelude.{◌≡◌, List, ℕ};
    ghost use Rattle.bdb_damage.specs.Pages.{is_queue_file};
    ghost use Rattle.bdb_damage.specs.Walks.{renumbered_from};

    ghost Value = { List (ℕ × ℕ) };

    ghost view = { λ v. renumbered_from v.pages.salvaged.now v.pages.page };

    ghost invariant = { λ v. v.pages.queue ≡ is_queue_file v.pages.salvaged.now };
}

/// The number that a page carries.
fn number_on(salvaged: &Salvaged<'_>, page: u32) -> u32
    requires { page < (file_in salvaged.now).count }
    ensures { result ≡ number_on salvaged.now.guess.order (bytes_at salvaged.now page) }
{
    u32_at(salvaged.bytes_at(page), 8, salvaged.guess().order)
}

/// Whether a page carries another number than its own, where it isn't refused or zero.
fn is_renumbered(salvaged: &Salvaged<'_>, queue: bool, page: u32) -> bool
    requires there { page < (file_in salvaged.now).count }
    requires queue { queue ≡ is_queue_file salvaged.now }
    ensures { result ≡ is_renumbered salvaged.now page }
{
    if number_on(salvaged, page) == page {
        return false;
    }
    if is_zero_at(salvaged, page) {
        return false;
    }
    row_at(salvaged, queue, page).is_none()
}

/// The pages that carry another number than their own, in order, each with that number. Refused pages and zero pages aren't among them.
pub fn renumbered_pages<'s, 'a>(apart: &Apart<'s, 'a>) -> RenumberedPages<'s, 'a>
    ensures { result ≡ renumbered_pages apart.now }
{
    RenumberedPages {
        pages: Unjudged::of(apart.salvaged()),
    }
}

impl<'s, 'a> Iterator for RenumberedPages<'s, 'a> {
    type Item = (u32, u32);

    ghost next_gives = { YieldsFirst (λ left. left) };

    ghost remaining = { item_count (λ left. left) };

    #[tactic(auto, using(crate::proofs::WalkLemmas::renumbered_none, crate::proofs::WalkLemmas::renumbered_some, crate::proofs::WalkLemmas::renumbered_end))]
    fn next(&mut self) -> Option<(u32, u32)> {
        'walk: loop {
            let page = self.pages.next_page()?;
            if is_renumbered(self.pages.salvaged, self.pages.queue, page) {
                return Some((page, number_on(self.pages.salvaged, page)));
            }
        }
    }
}
