ghost use Rattle.std.specs.Prelude.{◌≡◌, ◌<◌, ◌≤◌, ◌+◌, ◌^◌, ℕ, length, get_or, IfOk, None};
ghost use Rattle.bdb_survey.specs.of_format.Terms.{File};
ghost use Rattle.bdb_homes.specs.Faces.{AreFaces};
ghost use Rattle.bdb_homes.specs.Homes.{home, own_home};
ghost use Rattle.bdb_homes.specs.Ups.{AreUpsOf};

use crate::claims::ups_of;
use crate::climb::own_home;
use crate::face::Face;
use crate::faces::faces_of;
use crate::home::Home;
use crate::rows::{Side, spread};
use crate::up::Up;
use bdb_graph::Steps;
use bdb_survey::WholePages;
use std::alloc::{AllocError, Global};
use std::marker::Model;
use std::sync::ledger::Ledger;

/// The homes that pages have by claims.
fn own_homes(alloc: Global, ups: &[Up], pages: u32) -> Result<Vec<Option<Home>>, AllocError>
    ensures len { IfOk result (λ homes. length homes.items ≡ pages) }
    ensures own { IfOk result (λ homes. (file : File) (p : ℕ) → AreUpsOf file ups.now → p < pages → get_or homes.items p None ≡ own_home file p) }
{
    let mut homes = Vec::with_capacity(alloc, pages as usize)?;
    for page in 0..pages {
        homes.push(own_home(ups, page))?;
    }
    Ok(homes)
}

/// Gives homes to the pages that have none by claims: from before, and then from after.
fn spread_both(faces: &[Face], homes: &mut [Option<Home>])
    requires len { length homes.old ≡ length faces.now }
    requires few { length faces.now < 2 ^ 31 }
    ensures { (file : File) → AreFaces file faces.now → ((p : ℕ) → p < length faces.now → get_or homes.old p None ≡ own_home file p)
        → (p : ℕ) → p < length faces.now → get_or homes.new p None ≡ home file p }
{
    spread(faces, homes, Side::Before);
    spread(faces, homes, Side::After);
}

/// The homes of all pages, 12 bytes for each.
pub(crate) fn homes_by(
    alloc: Global,
    faces: &[Face],
    ups: &[Up],
) -> Result<Vec<Option<Home>>, AllocError>
    requires few { length faces.now < 2 ^ 31 }
    ensures len { IfOk result (λ homes. length homes.items ≡ length faces.now) }
    ensures homes { IfOk result (λ homes. (file : File) (p : ℕ) → AreFaces file faces.now → AreUpsOf file ups.now → p < length faces.now
        → get_or homes.items p None ≡ home file p) }
{
    let mut homes = own_homes(alloc, ups, faces.len() as u32)?;
    spread_both(faces, &mut homes);
    Ok(homes)
}

/// The pages of an image, and the home of each.
#[derive(Drop)]
pub struct PageHomes<'a> {
    pages: WholePages<'a>,
    homes: Vec<Option<Home>>,
}

impl<'a> Model for PageHomes<'a> {
    ghost use Rattle.bdb_survey.specs.of_format.Terms.{File};
    ghost use Rattle.bdb_homes.specs.Kept.{AreHomes};

    ghost Value = { File };

    ghost view = { λ v. v.pages };

    ghost invariant = { λ v. AreHomes v.pages v.homes.items };
}

impl<'a> PageHomes<'a> {
    /// Finds the home of each page: its claims are read once, in one step, and what is kept of each page is looked at some times more, up to 255
    /// of them on the way up to metadata. It takes 60 bytes for each page while it runs, and keeps 12. An error means
    /// that memory ran out.
    pub fn of<L: Ledger>(
        alloc: Global,
        pages: WholePages<'a>,
        steps: &mut Steps<L>,
    ) -> Result<PageHomes<'a>, AllocError>
        ensures homes { IfOk result (λ homes. homes ≡ pages.entry) }
        ensures cost { steps.new ≤ steps.old + pages.entry.count }
    {
        let faces = faces_of(alloc, &pages)?;
        let ups = ups_of(alloc, &pages, &faces, steps)?;
        let homes = homes_by(alloc, &faces, &ups)?;
        Ok(PageHomes { pages, homes })
    }

    /// The home of a page, if it has one.
    pub fn home(&self, page: u32) -> Option<Home>
        requires { page < self.now.count }
        ensures { result ≡ home self.now page }
    {
        self.homes[page as usize]
    }
}
