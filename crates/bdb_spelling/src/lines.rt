ghost use Rattle.std.specs.Prelude.{◌≡◌, ◌++◌, IfOk, OnOk, OnErr};
ghost use Rattle.bdb_text_format.specs.Terms.{spelling};
ghost use Rattle.bdb_spelling.specs.Spellings.{AddsPart};

use crate::bytevalue::push_digits;
use crate::printed::push_printed;
use bdb_text_format::Bytes;
use std::alloc::{AllocError, Global};

/// The spelling of bytes, without a space before it or a line feed behind: printed, or two hexadecimal digits a byte.
/// An error means that memory ran out.
pub fn line_text(alloc: Global, bytes: &[u8], print: bool) -> Result<Bytes, AllocError>
    ensures { IfOk result (λ text. text ≡ spelling print bytes.now) }
{
    let mut text = Bytes::new(alloc);
    push_line_text(&mut text, bytes, print)?;
    Ok(text)
}

/// Adds the spelling of bytes to a text: printed with `print`, else two hexadecimal digits a byte. An error means that memory ran out; the text has the
/// spelling of a first part of them then.
pub fn push_line_text(text: &mut Bytes, bytes: &[u8], print: bool) -> Result<(), AllocError>
    ensures ok { OnOk result (text.new ≡ text.old ++ spelling print bytes.now) }
    ensures part { OnErr result (AddsPart (spelling print) bytes.now text.old text.new) }
{
    if print {
        push_printed(text, bytes)
    } else {
        push_digits(text, bytes)
    }
}
