ghost use Rattle.std.specs.Prelude.{◌≡◌};
ghost use Rattle.bdb_layout.specs.of_format.Terms.{Content as AnyContent};
ghost use Rattle.bdb_layout.specs.Seen.{content_seen};

use crate::ItemKind;
use bdb_layout::Content;

/// A type of pages whose items hold bytes, or name where they are: keys, data and records.
pub trait ContentKind<'a>: ItemKind<'a> {
    ghost content_of: { Self → AnyContent };

    /// What an item holds.
    fn content(item: &Self::Item) -> Content<'a>
        ensures { content_seen result ≡ content_of (Self.item_seen item.now) };
}
