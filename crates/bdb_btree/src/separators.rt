ghost use Rattle.std.specs.Prelude.{◌≡◌, IfOk, OnOk, if◌then◌else◌};
ghost use Rattle.std.specs.Option.{option_map};
ghost use Rattle.bdb_ranks.specs.of_format.Terms.{File, file_of, has_wrong_separator, inner_pages, page_at, tree_pairs, value_of};
ghost use Rattle.bdb_ranks.specs.of_overflow.Datum.{FitsContent};
ghost use Rattle.bdb_ranks.specs.of_overflow.Held.{FitsAny, FitsHeld, value_held};
ghost use Rattle.bdb_ranks.specs.of_layout.Seen.{internal_item_seen, key_seen};
ghost use Rattle.bdb_btree.specs.Bounds.{OrderedIf, beyond, ends_of, is_below, joined, no_bounds, no_ends, under_ends};
ghost use Rattle.bdb_btree.specs.Counts.{IsKeyed};
ghost use Rattle.bdb_btree.specs.Held.{FitsBounds, FitsEnds, bounds_seen, ends_seen};
ghost use Rattle.bdb_btree.specs.Noted.{faults_at};
ghost use Rattle.bdb_ranks.specs.of_format.declared.rows.ContentsRow.TheVariants.{Separator};
ghost use Rattle.bdb_faults.specs.Notes.{NotesAll};

use crate::ends::{Ends, leaf_ends};
use crate::inner::inner_view;
use bdb_faults::{FaultSink, note_if};
use bdb_ranks::{ContentsRow, Held, InternalItem, Row, Values, key_held};
use std::alloc::AllocError;

/// Whether a value is below a bound, where there is one. An error means that memory ran out, for chains that are shared.
fn is_below(
    known: &mut Values<'_>,
    bound: Option<Held<'_>>,
    value: Held<'_>,
) -> Result<bool, AllocError>
    requires bound { FitsAny (file_of known.old) bound }
    requires value { FitsHeld (file_of known.old) value }
    ensures below { IfOk result (λ is. is ≡ is_below (option_map (value_held (file_of known.old)) bound.entry) (value_held (file_of known.old) value.entry)) }
    ensures same { known.new ≡ known.old }
{
    match bound {
        Some(bound) => known.is_less(value, bound),
        None => Ok(false),
    }
}

/// What is kept of an internal page while its items are gone through: the key of the last item above index 0,
/// the least and the greatest of the keys below the items so far, and whether a condition on separators failed.
#[derive(Drop)]
struct Bounds<'a> {
    separator: Option<Held<'a>>,
    ends: Ends<'a>,
    wrong: bool,
}

impl<'a> Bounds<'a> {
    /// No item yet.
    fn new() -> Bounds<'a>
        ensures none { (file : File) → bounds_seen file result ≡ no_bounds }
        ensures ends { (file : File) → ends_seen file result.ends ≡ no_ends }
        ensures fits { (file : File) → FitsBounds file result }
    {
        Bounds {
            separator: None,
            ends: Ends::new(),
            wrong: false,
        }
    }

    /// The key of the next item. An error means that memory ran out.
    fn see_separator(&mut self, known: &mut Values<'_>, key: Held<'a>) -> Result<(), AllocError>
        requires bounds { FitsBounds (file_of known.old) self.old }
        requires key { FitsHeld (file_of known.old) key }
        ensures bounds { OnOk result (bounds_seen (file_of known.old) self.new
            ≡ beyond (bounds_seen (file_of known.old) self.old) (value_held (file_of known.old) key.entry)) }
        ensures ends { OnOk result (self.new.ends ≡ self.old.ends) }
        ensures fits { OnOk result (FitsBounds (file_of known.old) self.new) }
        ensures same { known.new ≡ known.old }
    {
        if known.is_not_above(self.separator, key)?
            || known.is_not_above(self.ends.greatest, key)?
        {
            self.wrong = true;
        }
        self.separator = Some(key);
        Ok(())
    }

    /// The keys below the last item, by their ends. An error means that memory ran out.
    fn see_below(&mut self, known: &mut Values<'a>, below: Ends<'a>) -> Result<(), AllocError>
        requires bounds { FitsBounds (file_of known.old) self.old }
        requires below { FitsEnds (file_of known.old) below }
        ensures bounds { OnOk result (bounds_seen (file_of known.old) self.new
            ≡ under_ends (bounds_seen (file_of known.old) self.old) (ends_seen (file_of known.old) below.entry)) }
        ensures ends { OnOk result (ends_seen (file_of known.old) self.new.ends
            ≡ joined (ends_seen (file_of known.old) self.old.ends) (ends_seen (file_of known.old) below.entry)) }
        ensures fits { OnOk result (FitsBounds (file_of known.old) self.new) }
        ensures same { known.new ≡ known.old }
    {
        if let Some(least) = below.least {
            if is_below(known, self.separator, least)? {
                self.wrong = true;
            }
        }
        self.ends.join(known, below)
    }

    /// An item of an internal page by its place, and the keys below it. The key of the first isn't compared.
    fn see_item(
        &mut self,
        known: &mut Values<'a>,
        item: &InternalItem<'a>,
        first: bool,
        below: Ends<'a>,
    ) -> Result<(), AllocError>
        requires bounds { FitsBounds (file_of known.old) self.old }
        requires key { FitsContent (file_of known.old) (key_seen item.now.key) }
        requires below { FitsEnds (file_of known.old) below }
        ensures bounds { OnOk result (bounds_seen (file_of known.old) self.new
            ≡ under_ends (if first then bounds_seen (file_of known.old) self.old
            else beyond (bounds_seen (file_of known.old) self.old) (value_of (file_of known.old) (internal_item_seen item.now).key))
            (ends_seen (file_of known.old) below.entry)) }
        ensures ends { OnOk result (ends_seen (file_of known.old) self.new.ends
            ≡ joined (ends_seen (file_of known.old) self.old.ends) (ends_seen (file_of known.old) below.entry)) }
        ensures fits { OnOk result (FitsBounds (file_of known.old) self.new) }
        ensures same { known.new ≡ known.old }
    {
        if !first {
            self.see_separator(known, key_held(&item.key))?;
        }
        self.see_below(known, below)
    }
}

/// The least and the greatest key at or below a page of a tree of pairs, while the internal pages there that have a wrong
/// separator are noted. Each page is gone over once, from the leaves up, by calls within each other, at most as many as a tree
/// has levels. Where the keys are told not to fall, two of each leaf are read. An error means that memory ran out: the sink's, and that
/// for chains that are shared.
pub(crate) fn note_separators<'a, F: FaultSink>(
    known: &mut Values<'a>,
    page: u32,
    ordered: bool,
    found: &mut F,
) -> Result<Ends<'a>, AllocError>
    requires keyed { IsKeyed (file_of known.old) page }
    requires order { OrderedIf ordered (file_of known.old) page }
    ensures ends { IfOk result (λ ends. ends_seen (file_of known.old) ends ≡ ends_of (tree_pairs (file_of known.old) page)) }
    ensures fits { IfOk result (FitsEnds (file_of known.old)) }
    ensures noted { OnOk result (NotesAll (F.has_noted found.old) (F.has_noted found.new)
        (faults_at Separator (λ p. has_wrong_separator (file_of known.old) (page_at (file_of known.old) p)) (inner_pages (file_of known.old) page))) }
    ensures same { known.new ≡ known.old }
{
    let Some(view) = inner_view(&known.forest(), page) else {
        let ends = leaf_ends(known, page, ordered)?;
        return Ok(ends);
    };
    let mut bounds = Bounds::new();
    for i in 0..view.entries() {
        let item = view.item(i);
        let below = note_separators(known, item.child, ordered, found)?;
        bounds.see_item(known, &item, i == 0, below)?;
    }
    note_if(
        found,
        Row::Contents(ContentsRow::Separator),
        page,
        bounds.wrong,
    )?;
    Ok(bounds.ends)
}
