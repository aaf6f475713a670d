// The lines of a header.
ghost use Rattle.bdb_text.specs.ReadTo.{IsHeaderFault, IsHeaderRead, OnFault};
ghost use Rattle.bdb_spelling.specs.of_text_format.Terms.{is_header_end};
ghost use Rattle.std.specs.Prelude.{◌≡◌, ◌+◌, ◌<◌, ◌≤◌, ◌^◌, IfOk, IfErr, length};

use crate::fields::Field;
use crate::keywords::judge;
use crate::text_errors::{TextError, fault_at};
use crate::text_lines::cut_line;
use bdb_spelling::TextReason;
use std::alloc::Global;

/// A header without a fault, the text behind its end, and the number of its last line.
#[derive(Drop)]
pub struct Header<'a> {
    pub fields: Vec<Field<'a>>,
    pub rest: &'a [u8],
    pub number: u64,
}

const HEADER_END: [u8; 10] = *b"HEADER=END";

// Whether a line is the last of a header.
fn is_header_end(line: &[u8]) -> bool
    ensures { result ≡ is_header_end line.now }
{
    line == HEADER_END.as_slice()
}

/// The header of a section whose first line stands before the text. The number is that of the text's first line.
pub fn read_header(alloc: Global, text: &[u8], start: u64) -> Result<Header<'_>, TextError>
    requires { start + length text.now ≤ 2 ^ 32 }
    ensures ok { IfOk result (λ header. IsHeaderRead text.now start header) }
    ensures shorter { IfOk result (λ header. header.number + length header.rest.now < start + length text.now) }
    ensures err { IfErr result (OnFault (IsHeaderFault text.now start)) }
{
    let mut fields: Vec<Field<'_>> = Vec::new(alloc);
    let mut number = start;
    let mut rest = text;
    while !rest.is_empty() {
        let cut = cut_line(rest);
        if is_header_end(cut.line) {
            return Ok(Header {
                fields,
                rest: cut.rest,
                number,
            });
        }
        match judge(&fields, cut.line) {
            Ok(field) => {
                if fields.push(field).is_err() {
                    return Err(TextError::Memory);
                }
                number += 1;
                rest = cut.rest;
            }
            Err(reason) => return Err(fault_at(number, reason)),
        }
    }
    Err(fault_at(number, TextReason::NoEnd))
}
