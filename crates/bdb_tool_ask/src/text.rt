ghost use Rattle.std.specs.Prelude.{◌≡◌, IfOk, string_bytes};
ghost use Rattle.bdb_tool_ask.specs.FileAnswers.{overlap_line, sound_line};

use std::alloc::{AllocError, Global};

/// The line of a sound file with this many whole pages.
pub(crate) fn sound_line(alloc: Global, pages: u32) -> Result<String, AllocError>
    ensures { IfOk result (λ text. string_bytes text ≡ sound_line pages) }
{
    format!(in alloc; "sound, {pages} pages\n")
}

/// The line of a page on which items overlap.
pub(crate) fn overlap_line(alloc: Global, page: u32) -> Result<String, AllocError>
    ensures { IfOk result (λ text. string_bytes text ≡ overlap_line page) }
{
    format!(in alloc; "items overlap, page {page}\n")
}
