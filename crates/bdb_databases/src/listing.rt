ghost use Rattle.std.specs.Prelude.{◌≡◌, [], IfOk};
ghost use Rattle.std.specs.Iterator.{YieldsFirstBy, item_count};
ghost use Rattle.bdb_recno.specs.of_image.Linked.{HasMetadata};
ghost use Rattle.bdb_recno.specs.of_image.Metas.{meta_seen};
ghost use Rattle.bdb_databases.specs.Listing.{HasNewKeys, entries_left, entry_seen};
ghost use Rattle.bdb_recno.specs.of_format.Terms.{BtreeFields, file_of, list_of, structure_faults};

use bdb_recno::{BtreeMeta, Datum, KeyView, Linked, Meta};
use std::alloc::{AllocError, Global};
use std::marker::Model;

/// What is left of the list of a database, by its kind.
#[derive(Drop)]
pub(crate) enum Entries<'a> {
    Btree(bdb_btree::Scan<'a>),
    Recno(bdb_recno::Scan<'a>),
    Hash(bdb_hash_list::Scan<'a>),
    Queue(bdb_queue::Scan<'a>),
}

impl<'a> Entries<'a> {
    /// The first entry that is left.
    #[inline(always)]
    fn first(&mut self) -> Option<(KeyView<'a>, Datum<'a>)>
        ensures { YieldsFirstBy entry_seen entries_left self.old result self.new }
    {
        match self {
            Entries::Btree(scan) => scan.next(),
            Entries::Recno(scan) => scan.next(),
            Entries::Hash(scan) => scan.next(),
            Entries::Queue(scan) => scan.next(),
        }
    }
}

/// The list of a database that is left, in its order: each key with each of its data.
#[derive(Drop)]
pub struct Scan<'a> {
    entries: Entries<'a>,
}

impl<'a> Model for Scan<'a> {
    ghost use Rattle.std.specs.Prelude.{List, ℕ};
    ghost use Rattle.bdb_recno.specs.of_format.Terms.{ListKey};
    ghost use Rattle.bdb_databases.specs.Listing.{entries_left};

    ghost Value = { List (ListKey × List ℕ) };

    ghost view = { λ v. entries_left v.entries };
}

impl<'a> Iterator for Scan<'a> {
    type Item = (KeyView<'a>, Datum<'a>);

    ghost next_gives = { YieldsFirstBy entry_seen (λ left. left) };

    ghost remaining = { item_count (λ left. left) };

    #[inline(always)]
    fn next(&mut self) -> Option<(KeyView<'a>, Datum<'a>)> {
        self.entries.first()
    }
}

/// The list of a tree, of pairs or of records.
fn tree_entries<'a>(linked: &Linked<'a>, meta: &BtreeMeta) -> Entries<'a>
    requires meta { HasMetadata (file_of linked.now) (BtreeFields meta.now) }
    requires stage { structure_faults (file_of linked.now) ≡ [] }
    ensures { entries_left result ≡ list_of (file_of linked.now) (BtreeFields meta.now) }
{
    if !meta.is_recno() {
        Entries::Btree(bdb_btree::scan(linked, meta))
    } else {
        Entries::Recno(bdb_recno::scan(linked, meta))
    }
}

/// The list of a database, in which no key comes twice if it's a hash. Of a hash it takes memory for each
/// pair, of other kinds none. An error means that memory ran out.
pub(crate) fn scan_of<'a>(
    alloc: Global,
    linked: &Linked<'a>,
    meta: &Meta,
) -> Result<Scan<'a>, AllocError>
    requires meta { HasMetadata (file_of linked.now) (meta_seen meta.now) }
    requires stage { structure_faults (file_of linked.now) ≡ [] }
    requires keys { HasNewKeys (file_of linked.now) (meta_seen meta.now) }
    ensures { IfOk result (λ scan. scan ≡ list_of (file_of linked.now) (meta_seen meta.now)) }
{
    let entries = match meta {
        Meta::Btree(meta) => tree_entries(linked, meta),
        Meta::Hash(meta) => Entries::Hash(bdb_hash_list::scan(alloc, linked, meta)?),
        Meta::Queue(meta) => Entries::Queue(bdb_queue::scan(linked, meta)),
    };
    Ok(Scan { entries })
}
