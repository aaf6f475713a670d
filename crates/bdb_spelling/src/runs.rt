// A spelling is read a run at a time: a thousand digits, the bytes before a backslash, or what a backslash begins.
ghost use Rattle.bdb_text_format.specs.Terms.{bytes_spelled};
ghost use Rattle.bdb_spelling.specs.Runs.{by_run, has_backslash, joined};
ghost use Rattle.bdb_spelling.specs.SpellErrors.{IsSpellError};
ghost use Rattle.std.specs.Prelude.{◌≡◌, ◌≢◌, ◌≤◌, ◌<◌, ◌/◌, if◌then◌else◌, None, IfErr, IfSome, OnOk, Some, false, length, take, true};

use crate::digit_tables::byte_of;
use crate::printed::first_printed;
use crate::spellings::SpellError;
use memchr::memchr;

/// How many digits are read at once.
const RUN: usize = 1024;

/// How many bytes they spell.
pub const BYTES: usize = 512;

/// The bytes that the first run of a text spells, and the text behind it.
#[derive(Clone, Copy)]
pub struct Run<'t, 'p> {
    pub bytes: &'p [u8],
    pub rest: &'t [u8],
}

/// Adds the bytes that a text spells, printed or by two digits each, to the end of a list. `Bad` comes only where the text is no spelling, and `Ok` only where
/// it is one. `Memory` means that memory ran out.
pub fn read_run(text: &[u8], print: bool, bytes: &mut Vec<u8>) -> Result<(), SpellError>
    ensures ok { OnOk result (joined bytes.old.items (bytes_spelled print text.now) ≡ Some bytes.new.items) }
    ensures err { IfErr result (IsSpellError print text.now) }
{
    if print {
        read_printed(text, bytes)
    } else {
        read_digits(text, bytes)
    }
}

// Adds the bytes of a printed text.
fn read_printed(text: &[u8], bytes: &mut Vec<u8>) -> Result<(), SpellError>
    ensures ok { OnOk result (joined bytes.old.items (bytes_spelled true text.now) ≡ Some bytes.new.items) }
    ensures err { IfErr result (IsSpellError true text.now) }
{
    let mut unit = [0u8; 1];
    let mut rest = text;
    while !rest.is_empty() {
        let Some(run) = printed_run(rest, &mut unit) else {
            return Err(SpellError::Bad);
        };
        bytes.extend_from_slice(run.bytes)?;
        rest = run.rest;
    }
    Ok(())
}

// Adds the bytes of digits, in room that is taken at once.
fn read_digits(text: &[u8], bytes: &mut Vec<u8>) -> Result<(), SpellError>
    ensures ok { OnOk result (joined bytes.old.items (bytes_spelled false text.now) ≡ Some bytes.new.items) }
    ensures err { IfErr result (IsSpellError false text.now) }
{
    let start = bytes.len();
    bytes.resize(start + text.len() / 2, 0)?;
    if is_decoded(text, &mut bytes[start..]) {
        Ok(())
    } else {
        Err(SpellError::Bad)
    }
}

/// The first run of a text. Its bytes lie in the text where they stand for themselves, and else in the piece.
pub fn next_run<'t: 'p, 'p>(
    text: &'t [u8],
    print: bool,
    piece: &'p mut [u8; BYTES],
) -> Option<Run<'t, 'p>>
    requires some { length text.now ≢ 0 }
    ensures value { bytes_spelled print text.now ≡ by_run print result }
    ensures shorter { IfSome result (λ run. length run.rest.now < length text.now) }
{
    if print {
        printed_run(text, piece)
    } else {
        digits_run(text, piece)
    }
}

// The first run of a text of digits.
fn digits_run<'t: 'p, 'p>(text: &'t [u8], piece: &'p mut [u8; BYTES]) -> Option<Run<'t, 'p>>
    requires some { length text.now ≢ 0 }
    ensures value { bytes_spelled false text.now ≡ by_run false result }
    ensures shorter { IfSome result (λ run. length run.rest.now < length text.now) }
{
    let digits = text.len().min(RUN);
    let bytes = &mut piece[..digits / 2];
    if !is_decoded(&text[..digits], bytes) {
        return None;
    }
    Some(Run {
        bytes,
        rest: &text[digits..],
    })
}

// Puts the bytes that digits spell in their place, where they spell some.
fn is_decoded(run: &[u8], bytes: &mut [u8]) -> bool
    requires { length bytes.old ≡ length run.now / 2 }
    ensures { bytes_spelled false run.now ≡ (if result then Some bytes.new else None) }
{
    if run.len() % 2 != 0 {
        return false;
    }
    for i in 0..bytes.len() {
        let Some(byte) = byte_of(run[2 * i], run[2 * i + 1]) else {
            return false;
        };
        bytes[i] = byte;
    }
    true
}

// The first run of a printed text.
fn printed_run<'t: 'p, 'p>(text: &'t [u8], piece: &'p mut [u8]) -> Option<Run<'t, 'p>>
    requires room { 0 < length piece.old }
    requires some { length text.now ≢ 0 }
    ensures value { bytes_spelled true text.now ≡ by_run true result }
    ensures shorter { IfSome result (λ run. length run.rest.now < length text.now) }
{
    let plain = plain_len(text);
    if plain > 0 {
        return Some(Run {
            bytes: &text[..plain],
            rest: &text[plain..],
        });
    }
    let first = first_printed(text)?;
    piece[0] = first.byte;
    Some(Run {
        bytes: &piece[..1],
        rest: first.rest,
    })
}

// How many bytes stand before the first backslash.
fn plain_len(text: &[u8]) -> usize
    ensures within { result ≤ length text.now }
    ensures plain { has_backslash (take result text.now) ≡ false }
{
    match memchr(b'\\', text) {
        Some(end) => end,
        None => text.len(),
    }
}
