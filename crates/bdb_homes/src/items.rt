ghost use Rattle.std.specs.Prelude.{◌≡◌, ◌-◌, ◌∷◌, ◌++◌, [], ℕ, List, Some, None, false, true, map, get_or};
ghost use Rattle.bdb_survey.specs.of_format.Terms.{File, Internal, RecnoInternal, page_at};
ghost use Rattle.bdb_homes.specs.Claims.{Claim, below_in, claim};
ghost use Rattle.bdb_homes.specs.Faces.{AreFaces};
ghost use Rattle.bdb_homes.specs.Ups.{AreUps, is_claimed};
ghost use Rattle.bdb_homes.specs.declared.up.Up.TheVariants.{Nowhere};

use crate::asked::Asked;
use crate::face::Face;
use crate::up::{Up, note};
use bdb_graph::{InternalView, RecnoInternalView, keyed_types, record_types};

/// What an internal page of this level asks of its children.
fn child_of(types: &'static [u8], level: u8) -> Asked
    ensures { result ≡ record { types = types.now; or_zero = false; level = Some (level - 1); previous = None } }
{
    Asked {
        types,
        or_zero: false,
        level: Some(level.saturating_sub(1)),
        previous: None,
    }
}

/// Notes the claims of an internal page to its children.
pub(crate) fn note_keyed(faces: &[Face], ups: &mut [Up], holder: u32, view: &InternalView<'_>)
    ensures ups { (file : File) (claims : List Claim) → AreFaces file faces.now → page_at file holder ≡ Internal view.now → AreUps file ups.old claims
        → AreUps file ups.new (claims ++ map (claim holder) (below_in (Internal view.now))) }
    ensures claimed { (p : ℕ) → is_claimed (get_or ups.old p Nowhere) ≡ true → is_claimed (get_or ups.new p Nowhere) ≡ true }
{
    let level = view.header().level;
    let asked = child_of(keyed_types(level), level);
    for index in 0..view.entries() {
        let child = view.item(index).child;
        let fits = asked.fits(faces, child);
        note(
            ups,
            child,
            fits,
            Up::Holder {
                page: holder,
                before: 0,
            },
        );
    }
}

/// The same in a tree of records, with the records before each.
pub(crate) fn note_counted(
    faces: &[Face],
    ups: &mut [Up],
    holder: u32,
    view: &RecnoInternalView<'_>,
)
    ensures ups { (file : File) (claims : List Claim) → AreFaces file faces.now → page_at file holder ≡ RecnoInternal view.now → AreUps file ups.old claims
        → AreUps file ups.new (claims ++ map (claim holder) (below_in (RecnoInternal view.now))) }
    ensures claimed { (p : ℕ) → is_claimed (get_or ups.old p Nowhere) ≡ true → is_claimed (get_or ups.new p Nowhere) ≡ true }
{
    let level = view.header().level;
    let asked = child_of(record_types(level), level);
    let mut before: u64 = 0;
    for index in 0..view.entries() {
        let item = view.item(index);
        let fits = asked.fits(faces, item.child);
        note(
            ups,
            item.child,
            fits,
            Up::Holder {
                page: holder,
                before,
            },
        );
        before += u64::from(item.count);
    }
}
