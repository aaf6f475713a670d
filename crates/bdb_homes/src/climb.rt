ghost use Rattle.std.specs.Prelude.{◌≡◌, ◌<◌, ◌≤◌, ℕ, length, get_or};
ghost use Rattle.bdb_survey.specs.of_format.Terms.{File};
ghost use Rattle.bdb_homes.specs.Homes.{own_home};
ghost use Rattle.bdb_homes.specs.Ups.{AreUpsOf};
ghost use Rattle.bdb_homes.specs.declared.up.Up.TheVariants.{Nowhere};

use crate::home::Home;
use crate::up::Up;

fn up_at(ups: &[Up], page: u32) -> Up
    ensures { result ≡ get_or ups.now page Nowhere }
{
    if page as usize >= ups.len() {
        return Up::Nowhere;
    }
    ups[page as usize]
}

/// The home that a page has by claims: at most 255 looks at what is kept, and none at a page.
pub(crate) fn own_home(ups: &[Up], page: u32) -> Option<Home>
    ensures { (file : File) → AreUpsOf file ups.now → result ≡ own_home file page }
{
    let mut start: u64 = 0;
    let mut at = page;
    for _turn in 0..255u8 {
        match up_at(ups, at) {
            Up::Nowhere => return None,
            Up::Metadata(meta) => {
                return Some(Home {
                    meta,
                    start: start as u32,
                });
            }
            Up::Holder { page, before } => {
                start = start.saturating_add(before);
                if start > 0xffff_ffff {
                    return None;
                }
                at = page;
            }
        }
    }
    None
}
