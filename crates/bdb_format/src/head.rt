//! What page 0 of a file may say.
ghost use Rattle.std.specs.Prelude.{◌≡◌, ◌≤◌, IsTrue};
ghost use Rattle.bdb_format.specs.HeadOf.{is_page_size};
ghost use Rattle.bdb_format.specs.Rows.{magic_of};

use crate::FileKind;

/// The magic number of a kind of file.
pub fn magic_of(kind: FileKind) -> u32
    ensures { result ≡ magic_of kind }
{
    match kind {
        FileKind::Btree => 0x053162,
        FileKind::Hash => 0x061561,
        FileKind::Queue => 0x042253,
    }
}

/// Whether a page may have this many bytes.
pub fn is_page_size(size: u32) -> bool
    ensures legal { result ≡ is_page_size size }
    ensures least { IsTrue result → 512 ≤ size }
{
    matches!(size, 512 | 1024 | 2048 | 4096 | 8192 | 16384 | 32768)
}
