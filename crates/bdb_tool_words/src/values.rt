//! What the words of values and operands mean.
ghost use Rattle.std.specs.Prelude.{◌≡◌, ◌≤◌, ◌^◌, IfSome, is_some, option_copied};
ghost use Rattle.bdb_tool_words.specs.Commands.{asked_name, kind_named, limit_of, number_to, rows_by};

use crate::named::named;
use bdb_any_order::Rows;
use bdb_model::{Kind, number_in};
use bdb_spelling::is_spelling;

/// The longest input that any command takes, in bytes.
const LONGEST: u32 = 1 << 30;

/// The longest input by the value of its option: a number from 1 to 2^30.
pub(crate) fn limit_of(text: Option<&[u8]>) -> Option<u32>
    ensures seen { result ≡ limit_of (option_copied text.entry) }
    ensures limit { IfSome result (λ limit. limit ≤ 2 ^ 30) }
{
    let Some(text) = text else {
        return Some(LONGEST);
    };
    let limit = u32::try_from(number_in(text)?).ok()?;
    if limit < 1 || limit > LONGEST {
        return None;
    }
    Some(limit)
}

/// Whether the value of the option for a name spells one, where it is given.
pub(crate) fn is_name(text: Option<&[u8]>) -> bool
    ensures { result ≡ is_some (asked_name (option_copied text.entry)) }
{
    match text {
        Some(text) => is_spelling(text, true),
        None => true,
    }
}
/// The rows that count, by whether the option for any order is given.
pub(crate) fn rows_by(any_order: bool) -> Rows
    ensures { result ≡ rows_by any_order }
{
    if any_order { Rows::AnyOrder } else { Rows::All }
}

/// The kind that a word names.
pub(crate) fn kind_named(word: &[u8]) -> Option<Kind>
    ensures { result ≡ kind_named word.now }
{
    named!(word;
        b"btree" => Kind::Btree,
        b"hash" => Kind::Hash,
        b"recno" => Kind::Recno,
        b"queue" => Kind::Queue)
}

/// The number that a word of digits says, if it is at most another.
pub(crate) fn number_to(most: u32, word: &[u8]) -> Option<u32>
    ensures seen { result ≡ number_to most word.now }
    ensures within { IfSome result (λ number. number ≤ most) }
{
    let number = u32::try_from(number_in(word)?).ok()?;
    if number > most {
        return None;
    }
    Some(number)
}
