//! Where the items of pages lie.
ghost use Rattle.std.specs.Prelude.{◌≡◌, ◌+◌, ◌<◌, ℕ, None};
ghost use Rattle.bdb_graph.specs.of_form.Ends.{ArePlaced, internal_item_end, leaf_item_end};
ghost use Rattle.bdb_graph.specs.of_format.Terms.{entries_of, listed_code, offset_of};

use bdb_graph::{
    EndKind, Entries, EntryLeafKind, InternalKind, LeafKind, Order, RecnoInternalKind,
};

/// A type of pages whose items end where what they hold says.
pub trait LaidKind: EndKind {
    // Where an item that begins at a place ends, by what it holds.
    ghost item_end: { ℕ → Self → ℕ };

    /// The law of such a type: where no row of form holds for a page, its items lie on it, and end so.
    fn are_laid(page: &[u8], order: Order)
        requires { listed_code order page.now Self.page_type ≡ None }
        ensures placed { ArePlaced order page.now Self.least (Self.end order page.now) }
        ensures ends { (i : ℕ) → i < entries_of order page.now
            → item_end (offset_of order page.now i) (Self.item_at order page.now i) ≡ Self.end order page.now (offset_of order page.now i) };
}

impl LaidKind for LeafKind {
    ghost item_end = { λ at item. leaf_item_end at item.content };

    fn are_laid(_page: &[u8], _order: Order) {}
}

impl<E: Entries> LaidKind for EntryLeafKind<E> {
    ghost item_end = { λ at item. leaf_item_end at item.content };

    fn are_laid(_page: &[u8], _order: Order) {}
}

impl LaidKind for InternalKind {
    ghost item_end = { λ at item. internal_item_end at item.key };

    fn are_laid(_page: &[u8], _order: Order) {}
}

impl LaidKind for RecnoInternalKind {
    ghost item_end = { λ at item. at + 8 };

    fn are_laid(_page: &[u8], _order: Order) {}
}
