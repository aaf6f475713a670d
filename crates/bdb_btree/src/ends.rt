ghost use Rattle.std.specs.Prelude.{◌≡◌, IfOk, OnOk, Some};
ghost use Rattle.std.specs.Option.{option_map};
ghost use Rattle.bdb_ranks.specs.of_format.Terms.{File, file_of, tree_pairs};
ghost use Rattle.bdb_ranks.specs.of_image.Linked.{FitsLeafPage};
ghost use Rattle.bdb_ranks.specs.of_overflow.Held.{FitsAny, FitsHeld, value_held};
ghost use Rattle.bdb_btree.specs.Bounds.{DontFall, OrderedIf, ends_of, joined, no_ends, one_key};
ghost use Rattle.bdb_btree.specs.Held.{FitsEnds, end_of, ends_seen};

use crate::held::page_items;
use crate::pair::key_at;
use bdb_ranks::{Forest, Held, PageView, Values, leaf_held};
use std::alloc::AllocError;

/// An end of some values: the least of them, or the greatest.
#[derive(Clone, Copy)]
enum End {
    Least,
    Greatest,
}

/// The lesser of two values, or the greater one, as the end is. The first may be missing. An error means that memory ran out, for chains that
/// are shared.
fn end_of<'a>(
    known: &mut Values<'a>,
    end: End,
    bound: Option<Held<'a>>,
    value: Held<'a>,
) -> Result<Held<'a>, AllocError>
    requires bound { FitsAny (file_of known.old) bound }
    requires value { FitsHeld (file_of known.old) value }
    ensures end { IfOk result (λ found. Some (value_held (file_of known.old) found)
        ≡ end_of end (option_map (value_held (file_of known.old)) bound.entry) (value_held (file_of known.old) value.entry)) }
    ensures fits { IfOk result (FitsHeld (file_of known.old)) }
    ensures same { known.new ≡ known.old }
{
    let Some(bound) = bound else {
        return Ok(value);
    };
    let is_past = match end {
        End::Least => known.is_less(value, bound)?,
        End::Greatest => known.is_less(bound, value)?,
    };
    Ok(if is_past { value } else { bound })
}

/// The least and the greatest of some keys, if there are any.
#[derive(Clone, Copy)]
pub(crate) struct Ends<'a> {
    pub(crate) least: Option<Held<'a>>,
    pub(crate) greatest: Option<Held<'a>>,
}

impl<'a> Ends<'a> {
    /// Those of no keys.
    pub(crate) fn new() -> Ends<'a>
        ensures none { (file : File) → ends_seen file result ≡ no_ends }
        ensures fits { (file : File) → FitsEnds file result }
    {
        Ends {
            least: None,
            greatest: None,
        }
    }

    /// Those of one key.
    fn of(key: Held<'a>) -> Ends<'a>
        ensures one { (file : File) → ends_seen file result ≡ one_key (value_held file key.entry) }
        ensures fits { (file : File) → FitsHeld file key.entry → FitsEnds file result }
    {
        Ends {
            least: Some(key),
            greatest: Some(key),
        }
    }

    /// More keys, by their ends. An error means that memory ran out.
    pub(crate) fn join(&mut self, known: &mut Values<'a>, more: Ends<'a>) -> Result<(), AllocError>
        requires ends { FitsEnds (file_of known.old) self.old }
        requires more { FitsEnds (file_of known.old) more }
        ensures ends { OnOk result (ends_seen (file_of known.old) self.new
            ≡ joined (ends_seen (file_of known.old) self.old) (ends_seen (file_of known.old) more.entry)) }
        ensures fits { OnOk result (FitsEnds (file_of known.old) self.new) }
        ensures same { known.new ≡ known.old }
    {
        if let Some(least) = more.least {
            self.least = Some(end_of(known, End::Least, self.least, least)?);
        }
        if let Some(greatest) = more.greatest {
            self.greatest = Some(end_of(known, End::Greatest, self.greatest, greatest)?);
        }
        Ok(())
    }
}

/// Those of the keys of a leaf that don't fall: the first and the last.
#[tactic(auto, using(crate::proofs::Below::leaf_inside))]
fn ordered_ends<'a>(forest: &Forest<'a>, leaf: u32) -> Ends<'a>
    requires leaf { FitsLeafPage (file_of forest.now) leaf }
    requires order { DontFall (tree_pairs (file_of forest.now) leaf) }
    ensures ends { ends_seen (file_of forest.now) result ≡ ends_of (tree_pairs (file_of forest.now) leaf) }
    ensures fits { FitsEnds (file_of forest.now) result }
{
    let PageView::Leaf(view) = forest.page(leaf) else {
        return Ends::new();
    };
    let pairs = view.pairs();
    if pairs == 0 {
        return Ends::new();
    }
    Ends {
        least: Some(key_at(forest, leaf, &view, 0)),
        greatest: Some(key_at(forest, leaf, &view, pairs - 1)),
    }
}

/// Those of all keys of a leaf, each of which is compared. An error means that memory ran out.
fn compared_ends<'a>(known: &mut Values<'a>, leaf: u32) -> Result<Ends<'a>, AllocError>
    requires leaf { FitsLeafPage (file_of known.old) leaf }
    ensures ends { IfOk result (λ ends. ends_seen (file_of known.old) ends ≡ ends_of (tree_pairs (file_of known.old) leaf)) }
    ensures fits { IfOk result (FitsEnds (file_of known.old)) }
    ensures same { known.new ≡ known.old }
{
    let items = {
        let forest = known.forest();
        page_items(&forest, leaf)
    };
    let Some(pairs) = items else {
        return Ok(Ends::new());
    };
    let mut ends = Ends::new();
    for pair in pairs {
        ends.join(known, Ends::of(leaf_held(&pair.key)))?;
    }
    Ok(ends)
}

/// The least and the greatest key of a leaf. Where its keys are told not to fall, two of them are read. An error means that memory ran out.
pub(crate) fn leaf_ends<'a>(
    known: &mut Values<'a>,
    leaf: u32,
    ordered: bool,
) -> Result<Ends<'a>, AllocError>
    requires leaf { FitsLeafPage (file_of known.old) leaf }
    requires order { OrderedIf ordered (file_of known.old) leaf }
    ensures ends { IfOk result (λ ends. ends_seen (file_of known.old) ends ≡ ends_of (tree_pairs (file_of known.old) leaf)) }
    ensures fits { IfOk result (FitsEnds (file_of known.old)) }
    ensures same { known.new ≡ known.old }
{
    if ordered {
        Ok(ordered_ends(&known.forest(), leaf))
    } else {
        compared_ends(known, leaf)
    }
}
