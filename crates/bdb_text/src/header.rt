ghost use Rattle.std.specs.Prelude.{◌≡◌, ◌++◌, ◌==◌, ◌&&◌, ◌||◌, not, [], IfOk, OnOk, map, option_copied, unwrap_or};
ghost use Rattle.bdb_spelling.specs.of_text_format.Terms.{format_text, has_sets, header_table, header_text, holds_records, is_btree, is_hash, is_recno};
ghost use Rattle.bdb_spelling.specs.of_text_format.Terms.{kind_text, order_text, shows_length, ◌=:◌};
ghost use Rattle.bdb_spelling.specs.of_format.Terms.{◌:?◌};
ghost use Rattle.bdb_text.specs.Headers.{row_seen, row_text, rows_text, value_seen};

use bdb_spelling::{Bytes, Kind, Order, Settings, number_text, push_line_text};
use std::alloc::{AllocError, Global};

/// What stands behind the equals sign of a header line.
#[derive(Clone, Copy)]
pub enum Value<'a> {
    Word(&'a [u8]),
    Number(u32),
    /// Bytes as they are printed.
    Name(&'a [u8]),
}

/// A row of the header's table: a keyword, its value, and whether the line is written.
#[derive(Clone, Copy)]
pub struct HeaderRow<'a> {
    pub keyword: &'a [u8],
    pub value: Value<'a>,
    pub holds: bool,
}

/// The header lines of the section of a database with this name and these settings, from `VERSION=3` to `HEADER=END`, each with its line feed.
/// `print` says whether the data lines behind it are printed, or else spelled by digits. An error means that memory ran out.
#[tactic(auto, using(crate::proofs::HeaderLemmas::header_by_rows))]
pub fn header_text(
    alloc: Global,
    name: Option<&[u8]>,
    settings: &Settings,
    print: bool,
) -> Result<Bytes, AllocError>
    ensures { IfOk result (λ text. text ≡ header_text print (option_copied name.entry) settings.now) }
{
    let mut text = Bytes::new(alloc);
    text.push_all(b"VERSION=3\n")?;
    push_rows(alloc, &mut text, &rows_of(name, settings, print))?;
    text.push_all(b"HEADER=END\n")?;
    Ok(text)
}

// The rows of the table.
fn rows_of<'a>(name: Option<&'a [u8]>, settings: &Settings, print: bool) -> [HeaderRow<'a>; 14]
    ensures { map row_seen result ≡ header_table print (option_copied name.entry) settings.now }
{
    let on = Value::Word(b"1");
    let sized = shows_length(settings);
    [
        row(b"format", Value::Word(format_word(print)), true),
        row(b"database", Value::Name(bytes_of(name)), name.is_some()),
        row(b"type", Value::Word(kind_word(settings.kind)), true),
        row(b"db_pagesize", Value::Number(settings.page_size), true),
        row(
            b"db_lorder",
            Value::Word(order_digits(settings.order)),
            true,
        ),
        row(
            b"bt_minkey",
            Value::Number(settings.minkey),
            shows_minkey(settings),
        ),
        row(b"recnum", on, shows_counts(settings)),
        row(b"duplicates", on, shows_duplicates(settings)),
        row(b"dupsort", on, shows_sorted(settings)),
        row(
            b"h_ffactor",
            Value::Number(settings.ffactor),
            shows_ffactor(settings),
        ),
        row(b"re_len", Value::Number(settings.re_len), sized),
        row(b"re_pad", Value::Number(settings.re_pad), sized),
        row(b"renumber", on, shows_renumbered(settings)),
        row(b"keys", on, holds_records(settings.kind)),
    ]
}

fn row<'a>(keyword: &'a [u8], value: Value<'a>, holds: bool) -> HeaderRow<'a>
    ensures { row_seen result ≡ ((keyword.now =: value_seen value.entry) :? holds) }
{
    HeaderRow {
        keyword,
        value,
        holds,
    }
}

// Adds the lines of rows that hold.
fn push_rows(alloc: Global, text: &mut Bytes, rows: &[HeaderRow<'_>]) -> Result<(), AllocError>
    ensures { OnOk result (text.new ≡ text.old ++ rows_text (map row_seen rows.now)) }
{
    for row in rows {
        push_row(alloc, text, row)?;
    }
    Ok(())
}

// Adds the line of a row, where it holds.
fn push_row(alloc: Global, text: &mut Bytes, row: &HeaderRow<'_>) -> Result<(), AllocError>
    ensures { OnOk result (text.new ≡ text.old ++ row_text (row_seen row.now)) }
{
    if row.holds {
        text.push_all(row.keyword)?;
        text.push_all(b"=")?;
        push_value(alloc, text, row.value)?;
        text.push_all(b"\n")?;
    }
    Ok(())
}

// Adds what stands behind the equals sign.
fn push_value(alloc: Global, text: &mut Bytes, value: Value<'_>) -> Result<(), AllocError>
    ensures { OnOk result (text.new ≡ text.old ++ value_seen value.entry) }
{
    match value {
        Value::Word(word) => text.push_all(word),
        Value::Number(number) => text.push_all(number_text(alloc, number)?.as_slice()),
        Value::Name(name) => push_line_text(text, name, true),
    }
}

// The bytes of a name; none where there is none.
fn bytes_of(name: Option<&[u8]>) -> &[u8]
    ensures { result.now ≡ unwrap_or (option_copied name.entry) [] }
{
    match name {
        Some(name) => name,
        None => b"",
    }
}

// The word for a spelling.
fn format_word(print: bool) -> &'static [u8]
    ensures { result.now ≡ format_text print }
{
    if print { b"print" } else { b"bytevalue" }
}

/// The word for a kind in a header: `btree`, `recno`, `hash` or `queue`.
pub fn kind_word(kind: Kind) -> &'static [u8]
    ensures { result.now ≡ kind_text kind }
{
    match kind {
        Kind::Btree => b"btree",
        Kind::Recno => b"recno",
        Kind::Hash => b"hash",
        Kind::Queue => b"queue",
    }
}

// The digits for an order of bytes.
fn order_digits(order: Order) -> &'static [u8]
    ensures { result.now ≡ order_text order }
{
    match order {
        Order::Little => b"1234",
        Order::Big => b"4321",
    }
}

// The least number of keys on a page is written: that of a btree, where it isn't 2.
fn shows_minkey(settings: &Settings) -> bool
    ensures { result ≡ (is_btree settings.now.kind && not (settings.now.minkey == 2)) }
{
    match settings.kind {
        Kind::Btree => settings.minkey != 2,
        Kind::Recno | Kind::Hash | Kind::Queue => false,
    }
}

// Internal pages of a btree count the pairs below them.
fn shows_counts(settings: &Settings) -> bool
    ensures { result ≡ (is_btree settings.now.kind && settings.now.recnum) }
{
    match settings.kind {
        Kind::Btree => settings.recnum,
        Kind::Recno | Kind::Hash | Kind::Queue => false,
    }
}

// A key may have several data.
fn shows_duplicates(settings: &Settings) -> bool
    ensures { result ≡ (has_sets settings.now.kind && (settings.now.duplicates || settings.now.sorted)) }
{
    match settings.kind {
        Kind::Btree | Kind::Hash => settings.duplicates || settings.sorted,
        Kind::Recno | Kind::Queue => false,
    }
}

// The data of a key stand in order.
fn shows_sorted(settings: &Settings) -> bool
    ensures { result ≡ (has_sets settings.now.kind && settings.now.sorted) }
{
    match settings.kind {
        Kind::Btree | Kind::Hash => settings.sorted,
        Kind::Recno | Kind::Queue => false,
    }
}

// How many pairs a bucket of a hash is to hold is said.
fn shows_ffactor(settings: &Settings) -> bool
    ensures { result ≡ (is_hash settings.now.kind && not (settings.now.ffactor == 0)) }
{
    match settings.kind {
        Kind::Hash => settings.ffactor != 0,
        Kind::Btree | Kind::Recno | Kind::Queue => false,
    }
}

/// Whether a header tells the length of records and their pad byte: that of a queue always, that of a recno where it's fixed and not 0. Source:
/// docs/FORMAT.md, "Dump text".
pub fn shows_length(settings: &Settings) -> bool
    ensures { result ≡ shows_length settings.now }
{
    match settings.kind {
        Kind::Queue => true,
        Kind::Recno => settings.fixed && settings.re_len != 0,
        Kind::Btree | Kind::Hash => false,
    }
}

// Records of a recno are numbered anew.
fn shows_renumbered(settings: &Settings) -> bool
    ensures { result ≡ (is_recno settings.now.kind && settings.now.renumber) }
{
    match settings.kind {
        Kind::Recno => settings.renumber,
        Kind::Btree | Kind::Hash | Kind::Queue => false,
    }
}

// Keys are numbers of records.
fn holds_records(kind: Kind) -> bool
    ensures { result ≡ holds_records kind }
{
    match kind {
        Kind::Recno | Kind::Queue => true,
        Kind::Btree | Kind::Hash => false,
    }
}
