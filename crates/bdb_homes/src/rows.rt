ghost use Rattle.std.specs.Prelude.{◌≡◌, IfSome, true, ◌<◌, ◌≤◌, ◌^◌, ◌-◌, ℕ, Option, None, Some, if◌then◌else◌, nat_le, length, get_or};
ghost use Rattle.bdb_survey.specs.of_format.Terms.{File};
ghost use Rattle.bdb_homes.specs.Faces.{AreFaces};
ghost use Rattle.bdb_homes.specs.Homes.{adjoins, later, numbered, spread};
ghost use Rattle.bdb_homes.specs.Spreading.{IsSpreading, home_at, moved_by, opposite, side_of};

use crate::face::Face;
use crate::home::Home;

/// A side of a page in its row.
#[derive(Clone, Copy, Debug)]
pub(crate) enum Side {
    Before,
    After,
}

impl Side {
    fn opposite(self) -> Side
        ensures { result ≡ opposite self }
    {
        match self {
            Side::Before => Side::After,
            Side::After => Side::Before,
        }
    }
}

/// Whether a page stands right before another.
#[tactic(auto, using(crate::proofs::RowLemmas::adjoins_seen))]
fn adjoins(faces: &[Face], page: u32, other: u32) -> bool
    requires page { page < length faces.now }
    requires other { other < length faces.now }
    ensures { (file : File) → AreFaces file faces.now → result ≡ adjoins file page other }
{
    let one = faces[page as usize];
    let two = faces[other as usize];
    page != 0 && other != 0 && one.row.is_same(two.row) && one.next == other && two.previous == page
}

/// A page, if there is one and it stands right before another.
fn if_before(faces: &[Face], page: u32, other: u32) -> bool
    requires { other < length faces.now }
    ensures there { result ≡ true → page < length faces.now }
    ensures is { (file : File) → AreFaces file faces.now → result ≡ adjoins file page other }
{
    (page as usize) < faces.len() && adjoins(faces, page, other)
}

/// The same, if it stands right after another.
fn if_after(faces: &[Face], page: u32, other: u32) -> bool
    requires { page < length faces.now }
    ensures there { result ≡ true → other < length faces.now }
    ensures is { (file : File) → AreFaces file faces.now → result ≡ adjoins file page other }
{
    (other as usize) < faces.len() && adjoins(faces, page, other)
}

/// The page on a side of a page: each names the other.
fn beside(faces: &[Face], side: Side, page: u32) -> Option<u32>
    requires { page < length faces.now }
    ensures there { IfSome result (λ other. other < length faces.now) }
    ensures side { (file : File) → AreFaces file faces.now → result ≡ side_of side file page }
{
    let face = faces[page as usize];
    match side {
        Side::Before => {
            if if_before(faces, face.previous, page) {
                Some(face.previous)
            } else {
                None
            }
        }
        Side::After => {
            if if_after(faces, page, face.next) {
                Some(face.next)
            } else {
                None
            }
        }
    }
}

/// The home behind a page with this home and so many records.
fn behind(records: u16, home: Home) -> Option<Home>
    ensures { result ≡ numbered (later records home) }
{
    let start = home.start.checked_add(u32::from(records))?;
    Some(Home {
        meta: home.meta,
        start,
    })
}

/// The home of a page with so many records before one with this home.
fn ahead(records: u16, home: Home) -> Option<Home>
    ensures { result ≡ if nat_le records home.start then Some (record { meta = home.meta; start = home.start - records }) else None }
{
    let start = home.start.checked_sub(u32::from(records))?;
    Some(Home {
        meta: home.meta,
        start,
    })
}

/// The home of a page by that of the page on a side.
fn moved(faces: &[Face], from: Side, page: u32, other: u32, home: Home) -> Option<Home>
    requires page { page < length faces.now }
    requires other { other < length faces.now }
    ensures { (file : File) → AreFaces file faces.now → result ≡ moved_by from file page other home }
{
    match from {
        Side::Before => behind(faces[other as usize].records, home),
        Side::After => ahead(faces[page as usize].records, home),
    }
}

/// Gives the home of a page to the pages behind it in its row that have none.
fn spread_from(faces: &[Face], homes: &mut [Option<Home>], from: Side, page: u32)
    requires len { length homes.old ≡ length faces.now }
    requires page { page < length faces.now }
    ensures { (file : File) (had : ℕ → Option Home) → AreFaces file faces.now
        → IsSpreading had (side_of from file) (moved_by from file) homes.old (λ p. page ≤ p) file.count
        → IsSpreading had (side_of from file) (moved_by from file) homes.new (λ p. page < p) file.count }
{
    let mut at = page;
    'row: loop {
        let Some(home) = homes[at as usize] else {
            return;
        };
        let Some(next) = beside(faces, from.opposite(), at) else {
            return;
        };
        if homes[next as usize].is_some() {
            return;
        }
        let Some(given) = moved(faces, from, next, at, home) else {
            return;
        };
        homes[next as usize] = Some(given);
        at = next;
    }
}

/// Gives each page without a home that of the nearest page on a side that has one. A page is given a home once, and each is looked at
/// once more for whether its own may be given on.
pub(crate) fn spread(faces: &[Face], homes: &mut [Option<Home>], from: Side)
    requires len { length homes.old ≡ length faces.now }
    requires few { length faces.now < 2 ^ 31 }
    ensures { (file : File) (p : ℕ) → AreFaces file faces.now → p < length faces.now
        → get_or homes.new p None ≡ spread (home_at homes.old) (side_of from file) (moved_by from file) file.count p }
{
    for page in 0..faces.len() as u32 {
        spread_from(faces, homes, from, page);
    }
}
