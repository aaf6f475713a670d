// The keywords of a header, and which values they take.
ghost use Rattle.bdb_spelling.specs.of_text_format.Terms.{a_spelling, any_number, entry_of, entry_reason, find_named, is_order, keyword_named, later_keywords};
ghost use Rattle.bdb_spelling.specs.of_text_format.Terms.{legal_size, number_that, on_or_off, one_of, one_of_but};
ghost use Rattle.bdb_text.specs.Fields.{entries_in, entry_in, judged_by};
ghost use Rattle.std.specs.Prelude.{◌≡◌, ◌==◌, ◌∷◌, [], codes, false, not, IfOk, IfErr, Some, None};

use crate::fields::{Field, field_of, is_given};
use bdb_spelling::{Judged, TextReason, is_spelling, number_read};

/// Whether a value is `0` or `1`.
fn on_or_off(value: &[u8]) -> Judged
    ensures { result ≡ on_or_off value.now }
{
    if value == b"0".as_slice() || value == b"1".as_slice() {
        Judged::Fits
    } else {
        Judged::Bad
    }
}

fn format(value: &[u8]) -> Judged
    ensures { result ≡ one_of (codes "bytevalue" ∷ codes "print" ∷ []) value.now }
{
    if value == b"bytevalue".as_slice() || value == b"print".as_slice() {
        Judged::Fits
    } else {
        Judged::Bad
    }
}

fn any_number(value: &[u8]) -> Judged
    ensures { result ≡ any_number value.now }
{
    match number_read(value) {
        Some(_) => Judged::Fits,
        None => Judged::Bad,
    }
}

fn page_size(value: &[u8]) -> Judged
    ensures { result ≡ number_that legal_size (λ n. n == 65536) value.now }
{
    match number_read(value) {
        Some(65536) => Judged::LeftOut,
        Some(512 | 1024 | 2048 | 4096 | 8192 | 16384 | 32768) => Judged::Fits,
        _ => Judged::Bad,
    }
}

fn byte_order(value: &[u8]) -> Judged
    ensures { result ≡ number_that is_order (λ n. false) value.now }
{
    match number_read(value) {
        Some(1234 | 4321) => Judged::Fits,
        _ => Judged::Bad,
    }
}

fn extent_size(value: &[u8]) -> Judged
    ensures { result ≡ number_that (λ n. n == 0) (λ n. not (n == 0)) value.now }
{
    match number_read(value) {
        Some(0) => Judged::Fits,
        Some(_) => Judged::LeftOut,
        None => Judged::Bad,
    }
}

fn kind(value: &[u8]) -> Judged
    ensures { result ≡ one_of_but (codes "btree" ∷ codes "hash" ∷ codes "recno" ∷ codes "queue" ∷ []) (codes "heap") value.now }
{
    if value == b"heap".as_slice() {
        Judged::LeftOut
    } else if value == b"btree".as_slice()
        || value == b"hash".as_slice()
        || value == b"recno".as_slice()
        || value == b"queue".as_slice()
    {
        Judged::Fits
    } else {
        Judged::Bad
    }
}

fn checksum(value: &[u8]) -> Judged
    ensures { result ≡ one_of_but (codes "0" ∷ []) (codes "1") value.now }
{
    if value == b"1".as_slice() {
        Judged::LeftOut
    } else if value == b"0".as_slice() {
        Judged::Fits
    } else {
        Judged::Bad
    }
}

fn spelled(value: &[u8]) -> Judged
    ensures { result ≡ a_spelling value.now }
{
    if is_spelling(value, true) {
        Judged::Fits
    } else {
        Judged::Bad
    }
}

// What a value is to the keyword that has one of these names; else what the last row says.
macro_rules! judge_by_name {
    ($name:expr; $($($keyword:literal)|+ => $judged:expr,)+ _ => $other:expr) => {{
        $(if $($name == $keyword.as_slice())||+ {
            return Some($judged);
        })+
        $other
    }};
}

/// What a value is to the keyword of this name.
pub fn judge_value(name: &[u8], value: &[u8]) -> Option<Judged>
    ensures { result ≡ judged_by value.now (keyword_named name.now) }
{
    judge_by_name!(name;
        b"format" => format(value),
        b"database" => spelled(value),
        b"type" => kind(value),
        b"duplicates" | b"dupsort" | b"recnum" | b"renumber" | b"keys" => on_or_off(value),
        _ => judge_setting(name, value))
}

// The same of the keywords from `chksum` on.
fn judge_setting(name: &[u8], value: &[u8]) -> Option<Judged>
    ensures { result ≡ judged_by value.now (find_named name.now later_keywords) }
{
    judge_by_name!(name;
        b"chksum" => checksum(value),
        b"db_pagesize" => page_size(value),
        b"db_lorder" => byte_order(value),
        b"extentsize" => extent_size(value),
        b"bt_minkey" | b"h_ffactor" | b"h_nelem" | b"re_len" | b"re_pad" => any_number(value),
        _ => None)
}

/// The keyword and value of a line, or its first reason.
pub fn judge<'a>(fields: &[Field<'a>], line: &'a [u8]) -> Result<Field<'a>, TextReason>
    ensures ok { IfOk result (λ field. entry_of line.now ≡ Some (entry_in field)) }
    ensures none { IfOk result (λ field. entry_reason (entries_in fields.now) (entry_of line.now) ≡ None) }
    ensures err { IfErr result (λ reason. entry_reason (entries_in fields.now) (entry_of line.now) ≡ Some reason) }
{
    match field_of(line) {
        None => Err(TextReason::UnknownKeyword),
        Some(field) => match judge_value(field.name, field.value) {
            None => Err(TextReason::UnknownKeyword),
            Some(judged) => {
                if is_given(fields, field.name) {
                    return Err(TextReason::RepeatedKeyword);
                }
                match judged {
                    Judged::LeftOut => Err(TextReason::Unsupported),
                    Judged::Bad => Err(TextReason::BadValue),
                    Judged::Fits => Ok(field),
                }
            }
        },
    }
}
