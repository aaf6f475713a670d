ghost use Rattle.std.specs.Prelude.{◌≡◌, ◌++◌, IfOk};
ghost use Rattle.check_images.specs.Lines.{lines_on, unreadable};
ghost use Rattle.bdb_tool.specs.of_text_format.Terms.{line};

use bdb_tool::Bytes;
use std::alloc::{AllocError, Global};

/// The lines on an image: its name, and what is told of it by all rows and in any order.
pub fn lines_on(
    alloc: Global,
    name: &str,
    told: &[u8],
    in_any_order: &[u8],
) -> Result<Bytes, AllocError>
    ensures { IfOk result (λ lines. lines ≡ lines_on name.now told.now in_any_order.now) }
{
    let mut lines = Bytes::new(alloc);
    lines.push_all(name.as_bytes())?;
    lines.push_all(b"\n")?;
    lines.push_all(told)?;
    lines.push_all(b"in any order\n")?;
    lines.push_all(in_any_order)?;
    Ok(lines)
}

/// The lines on a file that can't be read: its name, and that it can't.
pub fn unreadable(alloc: Global, name: &str) -> Result<Bytes, AllocError>
    ensures { IfOk result (λ lines. lines ≡ line name.now ++ unreadable) }
{
    let mut lines = Bytes::new(alloc);
    lines.push_all(name.as_bytes())?;
    lines.push_all(b"\ncan't be read\n")?;
    Ok(lines)
}
