ghost use Rattle.std.specs.Prelude.{◌≡◌, IfOk, string_bytes};
ghost use Rattle.bdb_tool.specs.Parts.{too_long_line};

use std::alloc::{AllocError, Global};

/// The line of an input that is longer than this many bytes, or of a base that is.
pub(crate) fn too_long_line(alloc: Global, is_base: bool, limit: u32) -> Result<String, AllocError>
    ensures { IfOk result (λ text. string_bytes text ≡ too_long_line is_base limit) }
{
    if is_base {
        return format!(in alloc; "base longer than {limit} bytes\n");
    }
    format!(in alloc; "input longer than {limit} bytes\n")
}
