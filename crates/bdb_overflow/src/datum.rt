ghost use Rattle.std.specs.Prelude.{◌≡◌, ◌++◌, ◌==◌, IfOk, OnOk, length};
ghost use Rattle.bdb_graph.specs.of_format.Terms.{joined};
ghost use Rattle.bdb_overflow.specs.Datum.{datum_seen};

use crate::Pieces;
use bdb_graph::Bytes;
use std::alloc::{AllocError, Global};

/// A value: bytes of a page, or the pieces of its chain.
#[derive(Drop)]
pub enum Datum<'a> {
    Inline(&'a [u8]),
    Chained(Pieces<'a>),
}

/// A key: a value, or the number of a record.
#[derive(Drop)]
pub enum KeyView<'a> {
    Bytes(Datum<'a>),
    Number(u32),
}

impl<'a> Datum<'a> {
    /// The same value once more.
    pub fn again(&self) -> Datum<'a>
        ensures { datum_seen result ≡ datum_seen self.now }
    {
        match self {
            Datum::Inline(bytes) => Datum::Inline(bytes),
            Datum::Chained(pieces) => Datum::Chained(pieces.again()),
        }
    }

    /// How many bytes the value has.
    pub fn len(&self) -> u64
        ensures { result ≡ length (datum_seen self.now) }
    {
        match self {
            Datum::Inline(bytes) => bytes.len() as u64,
            Datum::Chained(pieces) => pieces.length(),
        }
    }

    /// Whether the value has this many bytes. Of a chain no more pages are gone through than tell that.
    pub fn has_len(&self, len: u64) -> bool
        ensures { result ≡ (length (datum_seen self.now) == len) }
    {
        match self {
            Datum::Inline(bytes) => bytes.len() as u64 == len,
            Datum::Chained(pieces) => pieces.has_length(len),
        }
    }

    /// The bytes of the value in one list of their own. An error means that memory ran out.
    pub fn copy(&self, alloc: Global) -> Result<Bytes, AllocError>
        ensures { IfOk result (λ bytes. bytes ≡ datum_seen self.now) }
    {
        let mut copy = Bytes::new(alloc);
        match self {
            Datum::Inline(bytes) => copy.push_all(bytes)?,
            Datum::Chained(pieces) => push_pieces(&mut copy, pieces.again())?,
        }
        Ok(copy)
    }
}

/// Adds the bytes of pieces at the end.
fn push_pieces(bytes: &mut Bytes, pieces: Pieces<'_>) -> Result<(), AllocError>
    ensures { OnOk result (bytes.new ≡ bytes.old ++ joined pieces.entry) }
{
    for piece in pieces {
        bytes.push_all(piece)?;
    }
    Ok(())
}

/// Puts pieces of a chain into a room, one behind the other.
fn put_pieces(pieces: Pieces<'_>, room: &mut Vec<u8>) -> Result<(), AllocError>
    ensures { OnOk result (room.new.items ≡ joined pieces.entry) }
{
    room.clear();
    for piece in pieces {
        room.extend_from_slice(piece)?;
    }
    Ok(())
}

/// The bytes of a value: those of its page, or of its chain, which then lie in the room. An error means that memory
/// ran out.
pub fn bytes_in<'r>(value: Datum<'r>, room: &'r mut Vec<u8>) -> Result<&'r [u8], AllocError>
    ensures { IfOk result (λ bytes. bytes.now ≡ datum_seen value.entry) }
{
    match value {
        Datum::Inline(bytes) => Ok(bytes),
        Datum::Chained(pieces) => {
            put_pieces(pieces, room)?;
            Ok(room.as_slice())
        }
    }
}
