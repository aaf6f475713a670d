// What a header says in all: its type, its conflicts and its settings.
ghost use Rattle.bdb_spelling.specs.of_text_format.Terms.{conflicts, has_keys, has_record_type, has_type, is_on, number_or, order_in, plain_in, prints};
ghost use Rattle.bdb_spelling.specs.of_text_format.Terms.{kind_text, repeats, settings_in};
ghost use Rattle.bdb_text.specs.Fields.{values_in};
ghost use Rattle.std.specs.Prelude.{◌≡◌, codes};

use crate::fields::{Field, gives, number_or};
use crate::header::kind_word;
use bdb_spelling::{Kind, Order, Settings, plain_settings};

const TYPE: [u8; 4] = *b"type";

const ON: [u8; 1] = *b"1";

/// Whether a header has the word of this kind as its type.
fn has_kind(fields: &[Field<'_>], kind: Kind) -> bool
    ensures { result ≡ has_type (kind_text kind) (values_in fields.now) }
{
    gives(fields, TYPE.as_slice(), kind_word(kind))
}

/// Whether a header switches this keyword on.
fn is_on(fields: &[Field<'_>], name: &[u8]) -> bool
    ensures { result ≡ is_on name.now (values_in fields.now) }
{
    gives(fields, name, ON.as_slice())
}

/// Whether a key may have several data, sorted or not.
fn repeats(fields: &[Field<'_>]) -> bool
    ensures { result ≡ repeats (values_in fields.now) }
{
    is_on(fields, b"duplicates".as_slice()) | is_on(fields, b"dupsort".as_slice())
}

/// Whether a header is one of numbered records.
pub fn has_record_type(fields: &[Field<'_>]) -> bool
    ensures { result ≡ has_record_type (values_in fields.now) }
{
    has_kind(fields, Kind::Recno) | has_kind(fields, Kind::Queue)
}

/// Whether the data lines of a section are keys and data in turn.
pub fn has_keys(fields: &[Field<'_>]) -> bool
    ensures { result ≡ has_keys (values_in fields.now) }
{
    !has_record_type(fields) | is_on(fields, b"keys".as_slice())
}

/// Whether the data lines of a section are printed.
pub fn prints(fields: &[Field<'_>]) -> bool
    ensures { result ≡ prints (values_in fields.now) }
{
    gives(fields, b"format".as_slice(), b"print".as_slice())
}

/// The size of a page.
fn page_size_in(fields: &[Field<'_>]) -> u32
    ensures { result ≡ number_or 4096 (values_in fields.now (codes "db_pagesize")) }
{
    number_or(fields, b"db_pagesize".as_slice(), 4096)
}

/// The length of a record.
fn re_len_in(fields: &[Field<'_>]) -> u32
    ensures { result ≡ number_or 0 (values_in fields.now (codes "re_len")) }
{
    number_or(fields, b"re_len".as_slice(), 0)
}

/// Whether what a header says is in conflict.
pub fn conflicts(fields: &[Field<'_>]) -> bool
    ensures { result ≡ conflicts (values_in fields.now) }
{
    let no_keys = gives(fields, b"keys".as_slice(), b"0".as_slice());
    let no_length = re_len_in(fields) == 0;
    repeats(fields) & has_record_type(fields)
        | is_on(fields, b"recnum".as_slice()) & (!has_kind(fields, Kind::Btree) | repeats(fields))
        | is_on(fields, b"renumber".as_slice()) & !has_kind(fields, Kind::Recno)
        | no_keys & (has_kind(fields, Kind::Btree) | has_kind(fields, Kind::Hash))
        | has_kind(fields, Kind::Queue) & no_length
}

/// The order of bytes that a header asks for.
fn order_in(fields: &[Field<'_>]) -> Order
    ensures { result ≡ order_in (values_in fields.now) }
{
    if number_or(fields, b"db_lorder".as_slice(), 1234) == 4321 {
        Order::Big
    } else {
        Order::Little
    }
}

// The settings of a header of this kind that says nothing of its own.
fn plain_in(kind: Kind, fields: &[Field<'_>]) -> Settings
    ensures { result ≡ plain_in kind (values_in fields.now) }
{
    plain_settings(kind, page_size_in(fields), order_in(fields))
}

/// The settings that a header says.
pub fn settings_in(fields: &[Field<'_>]) -> Settings
    ensures { result ≡ settings_in (values_in fields.now) }
{
    if has_kind(fields, Kind::Btree) {
        return Settings {
            duplicates: repeats(fields),
            sorted: is_on(fields, b"dupsort".as_slice()),
            recnum: is_on(fields, b"recnum".as_slice()),
            minkey: number_or(fields, b"bt_minkey".as_slice(), 2),
            ..plain_in(Kind::Btree, fields)
        };
    }
    if has_kind(fields, Kind::Hash) {
        return Settings {
            duplicates: repeats(fields),
            sorted: is_on(fields, b"dupsort".as_slice()),
            ffactor: number_or(fields, b"h_ffactor".as_slice(), 0),
            ..plain_in(Kind::Hash, fields)
        };
    }
    let re_len = re_len_in(fields);
    let re_pad = number_or(fields, b"re_pad".as_slice(), 32);
    if has_kind(fields, Kind::Recno) {
        return Settings {
            renumber: is_on(fields, b"renumber".as_slice()),
            fixed: re_len != 0,
            re_len,
            re_pad,
            ..plain_in(Kind::Recno, fields)
        };
    }
    Settings {
        fixed: true,
        re_len,
        re_pad,
        ..plain_in(Kind::Queue, fields)
    }
}
