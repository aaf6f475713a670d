//! What settings must say for anything to be built by them.

ghost use Rattle.std.specs.Prelude.{◌≡◌, IsTrue};
ghost use Rattle.bdb_need.specs.of_format.Terms.{is_page_size};
ghost use Rattle.bdb_mktree.specs.Units.{IsTreeKind};

use bdb_need::Kind;

pub fn is_page_size(size: u32) -> bool
    ensures { result ≡ is_page_size size }
{
    matches!(size, 512 | 1024 | 2048 | 4096 | 8192 | 16384 | 32768)
}

pub fn is_tree_kind(kind: Kind) -> bool
    ensures { IsTrue result → IsTreeKind kind }
{
    match kind {
        Kind::Btree | Kind::Recno => true,
        Kind::Hash | Kind::Queue => false,
    }
}
