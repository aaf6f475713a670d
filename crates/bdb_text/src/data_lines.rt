// The lines behind a header: a space and a spelling. What they spell is added to the run that the pairs of the section stand in.
ghost use Rattle.bdb_spelling.specs.of_text_format.declared.faults.TextReason.TheVariants.{BadDigit, BadEscape};
ghost use Rattle.bdb_spelling.specs.of_text_format.Terms.{data_read, key_read};
ghost use Rattle.bdb_text.specs.DataLines.{IsDataAdded, IsKeyAdded, IsLineError, record_number};
ghost use Rattle.bdb_text.specs.declared.data_lines.LineError.TheVariants.{Memory};
ghost use Rattle.std.specs.Prelude.{◌≡◌, ◌≤◌, if◌then◌else◌, Bool, IfOk, IfErr, length};

use bdb_spelling::{PlacedKey, Span, SpellError, TextReason, number_in, read_run};

/// Why a data line isn't read.
#[derive(Clone, Copy, Debug, PartialEq, Eq)]
pub enum LineError {
    /// The first of its reasons.
    Reason(TextReason),
    /// Memory ran out.
    Memory,
}

// Where the bytes of a run from `start` on stand.
fn span_from(start: usize, bytes: &[u8]) -> Result<Span, LineError>
    requires { start ≤ length bytes.now }
    ensures ok { IfOk result (λ span. (span.start ≡ start) × (span.end ≡ length bytes.now)) }
    ensures err { IfErr result (λ error. error ≡ Memory) }
{
    let Ok(end) = u32::try_from(bytes.len()) else {
        return Err(LineError::Memory);
    };
    Ok(Span {
        start: start as u32,
        end,
    })
}

/// Adds the bytes that a data line spells to a run, and answers where they stand.
pub fn read_data(line: &[u8], print: bool, bytes: &mut Vec<u8>) -> Result<Span, LineError>
    ensures ok { IfOk result (λ span. IsDataAdded bytes.old.items bytes.new.items (data_read print line.now) span) }
    ensures err { (numbered : Bool) → IfErr result (IsLineError print numbered line.now) }
{
    let Some((&first, text)) = line.split_first() else {
        return Err(LineError::Reason(TextReason::NoSpace));
    };
    if first != b' ' {
        return Err(LineError::Reason(TextReason::NoSpace));
    }
    let start = bytes.len();
    match read_run(text, print, bytes) {
        Ok(()) => span_from(start, bytes.as_slice()),
        Err(SpellError::Memory) => Err(LineError::Memory),
        Err(SpellError::Bad) => Err(LineError::Reason(bad_spelling(print))),
    }
}

// The reason of a line that is no spelling.
fn bad_spelling(print: bool) -> TextReason
    ensures { result ≡ (if print then BadEscape else BadDigit) }
{
    if print {
        TextReason::BadEscape
    } else {
        TextReason::BadDigit
    }
}

/// The key that a data line says: bytes, which are added to a run, or the number of a record.
pub fn read_key(
    line: &[u8],
    print: bool,
    numbered: bool,
    bytes: &mut Vec<u8>,
) -> Result<PlacedKey, LineError>
    ensures ok { IfOk result (λ key. IsKeyAdded bytes.old.items bytes.new.items (key_read numbered (data_read print line.now)) key) }
    ensures err { IfErr result (IsLineError print numbered line.now) }
{
    let span = read_data(line, print, bytes)?;
    if !numbered {
        return Ok(PlacedKey::Bytes(span));
    }
    match record_number(&bytes[span.start as usize..]) {
        Some(number) => {
            bytes.truncate(span.start as usize);
            Ok(PlacedKey::Number(number))
        }
        None => Err(LineError::Reason(TextReason::BadNumber)),
    }
}

// The number of a record that bytes say.
fn record_number(bytes: &[u8]) -> Option<u32>
    ensures { result ≡ record_number bytes.now }
{
    match number_in(bytes) {
        Some(number) => u32::try_from(number).ok(),
        None => None,
    }
}
