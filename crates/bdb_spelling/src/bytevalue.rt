// Bytes as two hexadecimal digits each.
ghost use Rattle.std.specs.Prelude.{◌≡◌, ◌≤◌, ◌+◌, ◌*◌, ◌++◌, length, OnOk, OnErr, take, true, false};
ghost use Rattle.bdb_text_format.specs.Terms.{data_line, digits_unit, line, spelling, two_digits};
ghost use Rattle.bdb_spelling.specs.Spellings.{AddsPart, first_seen};

use crate::digit_tables::byte_of;
use crate::spellings::First;
use bdb_text_format::Bytes;
use std::alloc::AllocError;

/// How many bytes are spelled at once.
const PIECE: usize = 128;

/// The digits of so many bytes.
const DIGITS: usize = 256;

/// The longest value whose data line is added at once.
pub const SHORT_VALUE: usize = 127;

/// The two digits of a byte, in lower case.
pub fn two_digits(byte: u8) -> [u8; 2]
    ensures { result ≡ two_digits byte }
{
    let mut digits = [0u8; 2];
    hex::encode_to_slice([byte], &mut digits).unwrap();
    digits
}

/// Adds two digits for each byte; for a first part of the bytes where memory runs out.
pub fn push_digits(text: &mut Bytes, bytes: &[u8]) -> Result<(), AllocError>
    ensures ok { OnOk result (text.new ≡ text.old ++ spelling false bytes.now) }
    ensures part { OnErr result (AddsPart (spelling false) bytes.now text.old text.new) }
{
    let mut done = 0;
    while done < bytes.len() {
        let end = bytes.len().min(done + PIECE);
        push_piece(text, &bytes[done..end])?;
        done = end;
    }
    Ok(())
}

// Adds two digits for each byte of a short piece, or nothing.
fn push_piece(text: &mut Bytes, piece: &[u8]) -> Result<(), AllocError>
    requires { length piece.now ≤ PIECE }
    ensures ok { OnOk result (text.new ≡ text.old ++ spelling false piece.now) }
    ensures err { OnErr result (text.new ≡ text.old) }
{
    let mut room = [0u8; DIGITS];
    let digits = &mut room[..2 * piece.len()];
    hex::encode_to_slice(piece, digits).unwrap();
    text.push_all(digits)
}

/// Fills a room with the data line of a value.
fn fill_line(room: &mut [u8], value: &[u8])
    requires { length room.old ≡ 2 * length value.now + 2 }
    ensures { room.new ≡ line (data_line false value.now) }
{
    let Some((space, rest)) = room.split_first_mut() else {
        return;
    };
    let Some((feed, digits)) = rest.split_last_mut() else {
        return;
    };
    *space = b' ';
    hex::encode_to_slice(value, digits).unwrap();
    *feed = b'\n';
}

/// Adds the data line of a short value: a space, two digits for each byte, and a line feed. Where memory runs out, nothing is added.
pub fn push_short_line(text: &mut Bytes, value: &[u8]) -> Result<(), AllocError>
    requires { length value.now ≤ SHORT_VALUE }
    ensures ok { OnOk result (text.new ≡ text.old ++ line (data_line false value.now)) }
    ensures err { OnErr result (text.new ≡ text.old) }
{
    let mut room = [0u8; DIGITS];
    let whole = &mut room[..2 * value.len() + 2];
    fill_line(whole, value);
    text.push_all(whole)
}

/// The first byte that a text of digits spells, and the text behind it.
pub fn first_of_digits(text: &[u8]) -> Option<First<'_>>
    ensures { first_seen result ≡ digits_unit text.now }
{
    let (&high, rest) = text.split_first()?;
    let (&low, rest) = rest.split_first()?;
    let byte = byte_of(high, low)?;
    Some(First { byte, rest })
}
