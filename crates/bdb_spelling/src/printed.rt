// Bytes as they are printed: a byte from space to tilde stands for itself, a backslash is doubled, and another byte is a
// backslash and its two digits.
ghost use Rattle.std.specs.Prelude.{◌≡◌, ◌++◌, OnOk, OnErr, true};
ghost use Rattle.bdb_text_format.specs.Terms.{escaped_unit, printed, printed_unit, spelling};
ghost use Rattle.bdb_spelling.specs.Spellings.{AddsPart, first_seen};

use crate::bytevalue::{first_of_digits, two_digits};
use crate::spellings::First;
use bdb_text_format::Bytes;
use std::alloc::AllocError;

/// Adds bytes as they are printed; a first part of them where memory runs out.
pub fn push_printed(text: &mut Bytes, bytes: &[u8]) -> Result<(), AllocError>
    ensures ok { OnOk result (text.new ≡ text.old ++ spelling true bytes.now) }
    ensures part { OnErr result (AddsPart (spelling true) bytes.now text.old text.new) }
{
    for byte in bytes {
        push_byte(text, *byte)?;
    }
    Ok(())
}

// Adds a byte as it is printed, or nothing.
fn push_byte(text: &mut Bytes, byte: u8) -> Result<(), AllocError>
    ensures ok { OnOk result (text.new ≡ text.old ++ printed byte) }
    ensures err { OnErr result (text.new ≡ text.old) }
{
    match byte {
        b'\\' => text.push_all(b"\\\\"),
        b' '..=b'~' => text.push_all(&[byte]),
        _ => {
            let [high, low] = two_digits(byte);
            text.push_all(&[b'\\', high, low])
        }
    }
}

/// The first byte that a printed text spells, and the text behind it.
pub fn first_printed(text: &[u8]) -> Option<First<'_>>
    ensures { first_seen result ≡ printed_unit text.now }
{
    let (&byte, rest) = text.split_first()?;
    if byte == b'\\' {
        first_escaped(rest)
    } else {
        Some(First { byte, rest })
    }
}

// The byte that a backslash and what follows it spell, and the text behind them.
fn first_escaped(text: &[u8]) -> Option<First<'_>>
    ensures { first_seen result ≡ escaped_unit text.now }
{
    let (&byte, rest) = text.split_first()?;
    if byte == b'\\' {
        Some(First { byte, rest })
    } else {
        first_of_digits(text)
    }
}
