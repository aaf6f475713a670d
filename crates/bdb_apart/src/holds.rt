ghost use Rattle.std.specs.Prelude.{◌≡◌, map};
ghost use Rattle.std.specs.Option.{option_to_list};
ghost use Rattle.bdb_rescue.specs.Kept.{file_in};
ghost use Rattle.bdb_rescue.specs.of_format.Terms.{page_at};
ghost use Rattle.bdb_rescue.specs.of_image.Metas.{meta_seen};
ghost use Rattle.bdb_rescue.specs.of_overflow.Datum.{datum_seen};
ghost use Rattle.bdb_rescue.specs.of_survey.Links.{view_page};
ghost use Rattle.bdb_apart.specs.Found.{tree_fields};
ghost use Rattle.bdb_apart.specs.Kept.{fits_in, holds_of, is_pair_kind, kind_in, pairs_in};

use bdb_homes::{Meta, PageView};
use bdb_rescue::{Datum, Salvaged};

/// The fields of a page, if it's metadata of a btree or a hash.
pub(crate) fn tree_meta(salvaged: &Salvaged<'_>, page: u32) -> Option<Meta>
    ensures { map meta_seen (option_to_list result) ≡ tree_fields (page_at (file_in salvaged.now) page) }
{
    match salvaged.pages().meta(page) {
        Some(Meta::Queue(_)) => None,
        meta => meta,
    }
}

/// What the pages of a database hold.
#[derive(Clone, Copy, Debug, PartialEq, Eq)]
pub enum Holds {
    /// Pairs, on leaves.
    Leaves,
    /// Pairs, in buckets.
    Buckets,
    /// Records on leaves; `length` is their fixed length in bytes, or 0 where they have none.
    Records { length: u32 },
    /// Records in the slots of a queue.
    Slots,
}

/// What the pages of a database with this metadata hold.
pub(crate) fn holds_of(meta: &Meta) -> Holds
    ensures { result ≡ holds_of (meta_seen meta.now) }
{
    match meta {
        Meta::Btree(meta) => {
            if !meta.is_recno() {
                return Holds::Leaves;
            }
            let length = if meta.is_fixed() { meta.re_len } else { 0 };
            Holds::Records { length }
        }
        Meta::Hash(_) => Holds::Buckets,
        Meta::Queue(_) => Holds::Slots,
    }
}

/// The kind of a page that holds pairs or records.
#[derive(Clone, Copy, Debug, PartialEq, Eq)]
pub enum PageKind {
    Leaf,
    Bucket,
    Records,
    Other,
}

pub(crate) fn kind_of(view: &Option<PageView<'_>>) -> PageKind
    ensures { result ≡ kind_in (view_page view.now) }
{
    match view {
        Some(PageView::Leaf(_)) => PageKind::Leaf,
        Some(PageView::Hash(_)) => PageKind::Bucket,
        Some(PageView::RecnoLeaf(_)) => PageKind::Records,
        _ => PageKind::Other,
    }
}

/// Whether pages of a kind hold pairs.
pub(crate) fn is_pair_kind(kind: PageKind) -> bool
    ensures { result ≡ is_pair_kind kind }
{
    match kind {
        PageKind::Leaf | PageKind::Bucket => true,
        PageKind::Records | PageKind::Other => false,
    }
}

/// Whether a page of a kind holds pairs of a database: a leaf of one that has them on leaves, a page of a bucket of one that has them in buckets.
pub fn holds_pairs(holds: Holds, kind: PageKind) -> bool
    ensures { result ≡ pairs_in holds kind }
{
    match (holds, kind) {
        (Holds::Leaves, PageKind::Leaf) => true,
        (Holds::Buckets, PageKind::Bucket) => true,
        _ => false,
    }
}

/// Whether a record has a number, and the length that is fixed.
pub(crate) fn fits_record(holds: Holds, number: u64, value: &Datum<'_>) -> bool
    ensures { result ≡ fits_in holds (number, datum_seen value.now) }
{
    match holds {
        Holds::Records { length } => {
            number < 4294967296 && (length == 0 || value.has_len(u64::from(length)))
        }
        _ => false,
    }
}
