ghost use Rattle.std.specs.Prelude.{◌≡◌, ◌≢◌, [], ◌+◌, ◌^◌, ◌≤◌, ◌<◌, List, ℕ, length, Err, IfOk, IsErrOf, IsOk, ◌⊎◌};
ghost use Rattle.std.specs.Io.KnownBytes.{Consumes, IsAtEnd};
ghost use Rattle.bdb_format.specs.Terms.{Rose, Took, TookAtMost};

use crate::Source;
use bdb_format::Bytes;
use std::alloc::Global;
use std::marker::Model;
use thiserror::Error;

/// The whole bytes of a file.
#[derive(Drop)]
pub struct Image {
    bytes: Bytes,
}

impl Model for Image {
    ghost Value = { List ℕ };

    ghost view = { λ i. i.bytes };
}

impl Image {
    /// These bytes as an image.
    pub fn from_bytes(bytes: Bytes) -> Image
        ensures { result ≡ bytes }
    {
        Image { bytes }
    }

    /// Its bytes.
    pub fn bytes(&self) -> &[u8]
        ensures { result.now ≡ self.now }
    {
        self.bytes.as_slice()
    }
}

/// Why an image wasn't read.
#[derive(Clone, Copy, Debug, PartialEq, Eq, Error)]
pub enum ReadError {
    /// A read failed.
    #[error("read fault")]
    ReadFault,
    /// The source has more bytes than the limit.
    #[error("input too large")]
    TooLarge,
    /// Memory ran out.
    #[error("out of memory")]
    Memory,
}

const CHUNK: usize = 65536;

// No bytes yet, with room for so many where memory doesn't run out: so what is read isn't moved while it grows.
fn with_room(alloc: Global, room: usize) -> Bytes
    ensures { result ≡ [] }
{
    match Vec::with_capacity(alloc, room) {
        Ok(bytes) => Bytes::from_vec(bytes),
        Err(_) => Bytes::new(alloc),
    }
}

/// Reads a source to its end, as an image of at most `max` bytes. `TooLarge`: the source has more, and `max + 1` bytes of it
/// were read; `ReadFault`: a read failed; `Memory`: memory ran out.
#[tactic(auto, using(bdb_format::proofs::KnownLemmas::consumed))]
pub fn read_image<S: Source>(alloc: Global, source: &mut S, max: u64) -> Result<Image, ReadError>
    requires { max ≤ 2 ^ 30 }

    // At `Ok` the image is what the source had, to its end.
    ensures bytes { IfOk result (λ image. Consumes (S.left source.old) (S.left source.new) image) }
    ensures end { IfOk result (λ image. IsAtEnd (S.left source.new)) }
    ensures bound { IfOk result (λ image. length image ≤ max) }

    // It says that the input is too large exactly where it took one byte more than the limit.
    ensures too_large { IsErrOf result ReadError.TooLarge → Took (max + 1) (S.left source.old) (S.left source.new) }
    ensures within { result ≢ Err ReadError.TooLarge → TookAtMost max (S.left source.old) (S.left source.new) }
    ensures taken { TookAtMost (max + 1) (S.left source.old) (S.left source.new) }

    ensures later { S.faults source.old ≤ S.faults source.new }
    ensures read_fault { IsErrOf result ReadError.ReadFault → Rose (S.faults source.old) (S.faults source.new) }

    // Without a fault, and with memory, it gives the image or says that the input is too large.
    ensures no_fault { (Rose (S.faults source.old) (S.faults source.new) → ⊥) → result ≢ Err ReadError.Memory →
        IsOk result ⊎ IsErrOf result ReadError.TooLarge }
{
    let limit = max as usize;
    let mut bytes = with_room(alloc, source.expected().min(limit));
    let mut chunk = [0u8; CHUNK];
    'read: loop {
        let held = bytes.as_slice().len();
        let room = (limit + 1 - held).min(CHUNK);
        let count = match source.read(&mut chunk[..room]) {
            Ok(0) => return Ok(Image::from_bytes(bytes)),
            Ok(count) => count,
            Err(_) => return Err(ReadError::ReadFault),
        };
        if held + count > limit {
            return Err(ReadError::TooLarge);
        }
        if bytes.push_all(&chunk[..count]).is_err() {
            return Err(ReadError::Memory);
        }
    }
}
