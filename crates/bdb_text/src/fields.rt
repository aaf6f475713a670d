// The lines of a header at their first equals sign.
ghost use Rattle.bdb_spelling.specs.of_text_format.Terms.{entry_of, given, gives, number_or};
ghost use Rattle.bdb_text.specs.Fields.{entries_in, entry_seen, values_in};
ghost use Rattle.std.specs.Prelude.{◌≡◌, is_some, option_copied};

use bdb_spelling::number_read;
use memchr::memchr;

/// The keyword and the value of a header line.
#[derive(Clone, Copy)]
pub struct Field<'a> {
    pub name: &'a [u8],
    pub value: &'a [u8],
}

/// A header line at its first equals sign, if it has one.
pub fn field_of(line: &[u8]) -> Option<Field<'_>>
    ensures { entry_seen result ≡ entry_of line.now }
{
    match memchr(b'=', line) {
        Some(end) => Some(Field {
            name: &line[..end],
            value: &line[end + 1..],
        }),
        None => None,
    }
}

/// The value that a header gives a keyword.
pub fn value_of<'a>(fields: &[Field<'a>], name: &[u8]) -> Option<&'a [u8]>
    ensures { option_copied result ≡ given name.now (entries_in fields.now) }
{
    for field in fields {
        if field.name == name {
            return Some(field.value);
        }
    }
    None
}

/// Whether a header gives a keyword a value.
pub fn is_given(fields: &[Field<'_>], name: &[u8]) -> bool
    ensures { result ≡ is_some (given name.now (entries_in fields.now)) }
{
    value_of(fields, name).is_some()
}

/// Whether a header gives a keyword this value.
pub fn gives(fields: &[Field<'_>], name: &[u8], value: &[u8]) -> bool
    ensures { result ≡ gives name.now value.now (values_in fields.now) }
{
    match value_of(fields, name) {
        Some(given) => given == value,
        None => false,
    }
}

/// The number that a header gives a keyword, or the usual one where it gives none.
pub fn number_or(fields: &[Field<'_>], name: &[u8], usual: u32) -> u32
    ensures { result ≡ number_or usual (values_in fields.now name.now) }
{
    match value_of(fields, name) {
        Some(value) => number_read(value).unwrap_or(0),
        None => usual,
    }
}
