ghost use Rattle.std.specs.Prelude.{◌≡◌, ◌<◌, ◌+◌, ◌^◌, ◌++◌, ℕ, List, true};
ghost use Rattle.bdb_survey.specs.of_format.Terms.{File, is_meta, page_at};
ghost use Rattle.bdb_homes.specs.Claims.{Claim};
ghost use Rattle.bdb_homes.specs.Faces.{AreFaces};
ghost use Rattle.bdb_homes.specs.Leaps.{HasLeaps};
ghost use Rattle.bdb_homes.specs.Tables.{table_claims};
ghost use Rattle.bdb_homes.specs.Ups.{AreUps};

use crate::face::Face;
use crate::runs::note_run;
use crate::up::Up;
use bdb_graph::Buckets;

/// Notes the claims of a table to all its buckets, run by run: 32 runs at most.
pub(crate) fn note_table(
    faces: &[Face],
    ups: &mut [Up],
    leaps: &mut [u32],
    holder: u32,
    buckets: &Buckets,
)
    requires leaps { HasLeaps faces.now ups.old leaps.old }
    requires few { buckets.now.max_bucket < 2 ^ 31 }
    ensures leaps { HasLeaps faces.now ups.new leaps.new }
    ensures ups { (file : File) (claims : List Claim) → AreFaces file faces.now → is_meta (page_at file holder) ≡ true → AreUps file ups.old claims
        → AreUps file ups.new (claims ++ table_claims holder buckets.now.spares 0 (buckets.now.max_bucket + 1)) }
{
    let mut bucket = 0;
    'groups: while bucket <= buckets.max_bucket {
        let run = buckets.run_from(bucket);
        note_run(faces, ups, leaps, holder, run.first, run.len);
        bucket += run.len;
    }
}
