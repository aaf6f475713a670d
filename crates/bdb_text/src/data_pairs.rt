// The data lines of a section, read as pairs.
ghost use Rattle.bdb_text.specs.DataTo.{IsDataFault, IsDataRead, IsDatum, IsDatumFault};
ghost use Rattle.bdb_text.specs.DataTo.{IsKeyedFault, IsKeyedRead, IsPairFault, IsPairRead};
ghost use Rattle.bdb_text.specs.Fields.{values_in};
ghost use Rattle.bdb_text.specs.ReadTo.{OnFault, error_at};
ghost use Rattle.bdb_spelling.specs.of_text_format.Terms.{ArePlaced, has_keys, has_record_type, is_data_end, placed_pairs, prints};
ghost use Rattle.std.specs.Prelude.{◌≡◌, ◌+◌, ◌<◌, ◌≤◌, ◌^◌, [], IfOk, IfErr, length};

use crate::data_lines::{LineError, read_data, read_key};
use crate::fields::Field;
use crate::meant::{has_keys, has_record_type, prints};
use crate::text_errors::{TextError, fault_at};
use crate::text_lines::cut_line;
use bdb_spelling::{Place, PlacedKey, PlacedPairs, Span, TextFault, TextPairs, TextReason};
use std::alloc::Global;

/// The pairs of a section, the text behind its end, and the number of the line behind its last.
#[derive(Drop)]
pub struct Data<'a> {
    pub pairs: TextPairs,
    pub rest: &'a [u8],
    pub number: u64,
}

/// How data lines are read: whether keys stand between data, whether these are numbers of records, and how bytes are spelled.
#[derive(Clone, Copy)]
pub struct Way {
    pub keyed: bool,
    pub numbered: bool,
    pub print: bool,
}

/// A datum that was added to a run, and the text behind its line.
#[derive(Clone, Copy)]
pub struct Datum<'a> {
    pub span: Span,
    pub rest: &'a [u8],
}

/// Where a pair stands, the text behind its lines, and the number of the next line.
#[derive(Clone, Copy)]
pub struct PairAt<'a> {
    pub place: Place,
    pub rest: &'a [u8],
    pub number: u64,
}

const DATA_END: [u8; 8] = *b"DATA=END";

// Whether a line is the last of a section.
fn is_data_end(line: &[u8]) -> bool
    ensures { result ≡ is_data_end line.now }
{
    line == DATA_END.as_slice()
}

// The error of a line with this number.
fn error_at(number: u64, error: LineError) -> TextError
    ensures { result ≡ error_at number error }
{
    match error {
        LineError::Reason(reason) => fault_at(number, reason),
        LineError::Memory => TextError::Memory,
    }
}

// Adds the datum behind a key to a run.
fn read_datum<'a>(
    text: &'a [u8],
    number: u64,
    print: bool,
    bytes: &mut Vec<u8>,
) -> Result<Datum<'a>, TextError>
    ensures ok { IfOk result (IsDatum print text.now bytes.old.items bytes.new.items) }
    ensures shorter { IfOk result (λ datum. length datum.rest.now < length text.now) }
    ensures err { IfErr result (OnFault (IsDatumFault print text.now number)) }
{
    if text.is_empty() {
        return Err(fault_at(number, TextReason::NoEnd));
    }
    let cut = cut_line(text);
    if is_data_end(cut.line) {
        return Err(fault_at(number, TextReason::KeyWithoutData));
    }
    match read_data(cut.line, print, bytes) {
        Ok(span) => Ok(Datum {
            span,
            rest: cut.rest,
        }),
        Err(error) => Err(error_at(number, error)),
    }
}

// Adds a key and its datum to a run: `line` is the key's, of this number, and the datum's begins the text behind it.
fn read_keyed<'a>(
    line: &[u8],
    behind: &'a [u8],
    number: u64,
    way: Way,
    bytes: &mut Vec<u8>,
) -> Result<PairAt<'a>, TextError>
    requires { number + length behind.now < 2 ^ 32 }
    ensures ok { IfOk result (IsKeyedRead way.print way.numbered line.now behind.now number bytes.old.items bytes.new.items) }
    ensures later { IfOk result (λ read. number < read.number) }
    ensures shorter { IfOk result (λ read. read.number + length read.rest.now ≤ number + 1 + length behind.now) }
    ensures err { IfErr result (OnFault (IsKeyedFault way.print way.numbered line.now behind.now number)) }
{
    let key = match read_key(line, way.print, way.numbered, bytes) {
        Ok(key) => key,
        Err(error) => return Err(error_at(number, error)),
    };
    let datum = read_datum(behind, number + 1, way.print, bytes)?;
    Ok(PairAt {
        place: Place {
            key,
            value: datum.span,
            line: number,
        },
        rest: datum.rest,
        number: number + 2,
    })
}

// Adds the pair whose first line this is to a run. `record_number` is that of a record that has no key.
fn read_pair<'a>(
    line: &[u8],
    behind: &'a [u8],
    number: u64,
    way: Way,
    record_number: u32,
    bytes: &mut Vec<u8>,
) -> Result<PairAt<'a>, TextError>
    requires { number + length behind.now < 2 ^ 32 }
    ensures ok { IfOk result (IsPairRead way line.now behind.now number record_number bytes.old.items bytes.new.items) }
    ensures later { IfOk result (λ read. number < read.number) }
    ensures shorter { IfOk result (λ read. read.number + length read.rest.now ≤ number + 1 + length behind.now) }
    ensures err { IfErr result (OnFault (IsPairFault way line.now behind.now number)) }
{
    if way.keyed {
        return read_keyed(line, behind, number, way, bytes);
    }
    match read_data(line, way.print, bytes) {
        Ok(value) => Ok(PairAt {
            place: Place {
                key: PlacedKey::Number(record_number),
                value,
                line: number,
            },
            rest: behind,
            number: number + 1,
        }),
        Err(error) => Err(error_at(number, error)),
    }
}

/// How the data lines behind a header are read.
fn way_of(fields: &[Field<'_>]) -> Way
    ensures keyed { result.keyed ≡ has_keys (values_in fields.now) }
    ensures numbered { result.numbered ≡ has_record_type (values_in fields.now) }
    ensures print { result.print ≡ prints (values_in fields.now) }
{
    Way {
        keyed: has_keys(fields),
        numbered: has_record_type(fields),
        print: prints(fields),
    }
}

// An empty run with room for so many bytes, where memory doesn't run out: so it isn't moved while it grows.
fn run_with_room(alloc: Global, room: usize) -> Vec<u8>
    ensures { result.items ≡ [] }
{
    match Vec::with_capacity(alloc, room) {
        Ok(bytes) => bytes,
        Err(_) => Vec::new(alloc),
    }
}

// The pairs at places in a run, which gives back the room that it doesn't use.
fn pairs_in(bytes: Vec<u8>, places: Vec<Place>) -> TextPairs
    requires { ArePlaced bytes.items places.items }
    ensures { result ≡ placed_pairs bytes.items places.items }
{
    let mut bytes = bytes;
    bytes.shrink_to_fit();
    TextPairs::from_placed(PlacedPairs { bytes, places })
}

/// The pairs of a section, from the text behind its header `fields` on: `start` is the number of the text's first line. `Fault` is the first fault of
/// the data lines. Memory for `room` bytes is taken at once, and what isn't used of it is given back.
pub fn read_pairs<'a>(
    alloc: Global,
    text: &'a [u8],
    start: u64,
    fields: &[Field<'_>],
    room: usize,
) -> Result<Data<'a>, TextError>
    requires { start + length text.now ≤ 2 ^ 31 }
    ensures ok { IfOk result (λ read. IsDataRead (values_in fields.now) text.now start read) }
    ensures shorter { IfOk result (λ read. read.number + length read.rest.now ≤ start + length text.now) }
    ensures err { IfErr result (OnFault (IsDataFault (values_in fields.now) text.now start)) }
{
    let way = way_of(fields);
    let mut bytes = run_with_room(alloc, room);
    let mut places: Vec<Place> = Vec::new(alloc);
    let mut number = start;
    let mut rest = text;
    while !rest.is_empty() {
        let cut = cut_line(rest);
        if is_data_end(cut.line) {
            let pairs = pairs_in(bytes, places);
            return Ok(Data {
                pairs,
                rest: cut.rest,
                number: number + 1,
            });
        }
        let record_number = places.len() as u32 + 1;
        let read = read_pair(cut.line, cut.rest, number, way, record_number, &mut bytes)?;
        if places.push(read.place).is_err() {
            return Err(TextError::Memory);
        }
        number = read.number;
        rest = read.rest;
    }
    Err(fault_at(number, TextReason::NoEnd))
}
