ghost use Rattle.std.specs.Prelude.{◌≡◌, ◌<◌, ◌≤◌, ◌+◌, ◌^◌, ◌++◌, ◌∷◌, [], ℕ, List, length, true};
ghost use Rattle.bdb_survey.specs.of_format.Terms.{File, is_meta, page_at};
ghost use Rattle.bdb_homes.specs.Claims.{Claim};
ghost use Rattle.bdb_homes.specs.Faces.{AreFaces};
ghost use Rattle.bdb_homes.specs.Leaps.{HasLeaps};
ghost use Rattle.bdb_homes.specs.Runs.{bucket_claim, run_claims};
ghost use Rattle.bdb_homes.specs.Ups.{AreUps};

use crate::asked::Asked;
use crate::face::Face;
use crate::up::{Up, note};
use bdb_graph::first_open;

/// Notes that a table claims a page as the first of a bucket, if it fits and nobody claims it yet. From then on a leap goes over it.
fn note_bucket(faces: &[Face], ups: &mut [Up], leaps: &mut [u32], holder: u32, page: u32)
    requires leaps { HasLeaps faces.now ups.old leaps.old }
    requires there { page < length ups.old }
    ensures leaps { HasLeaps faces.now ups.new leaps.new }
    ensures ups { (file : File) (claims : List Claim) → AreFaces file faces.now → is_meta (page_at file holder) ≡ true → AreUps file ups.old claims
        → AreUps file ups.new (claims ++ bucket_claim holder page ∷ []) }
{
    let fits = Asked::bucket().fits(faces, page);
    note(ups, page, fits, Up::Metadata(holder));
    leaps[page as usize] = page + 1;
}

/// Notes that a table claims so many pages from one on. Pages that are claimed or don't fit are leapt over, so each page is noted
/// once, however many tables name it.
pub(crate) fn note_run(
    faces: &[Face],
    ups: &mut [Up],
    leaps: &mut [u32],
    holder: u32,
    first: u64,
    len: u32,
)
    requires { HasLeaps faces.now ups.old leaps.old }
    ensures leaps { HasLeaps faces.now ups.new leaps.new }
    ensures ups { (file : File) (claims : List Claim) → AreFaces file faces.now → is_meta (page_at file holder) ≡ true → AreUps file ups.old claims
        → AreUps file ups.new (claims ++ run_claims holder first len) }
{
    let end = first.saturating_add(u64::from(len)).min(ups.len() as u64) as u32;
    if first >= u64::from(end) {
        return;
    }
    let mut at = first_open(leaps, first as u32);
    'pages: while at < end {
        note_bucket(faces, ups, leaps, holder, at);
        at = first_open(leaps, at + 1);
    }
}
