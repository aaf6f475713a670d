ghost use Rattle.std.specs.Prelude.{◌≡◌, ◌++◌, [], IfOk, if◌then◌else◌};

use std::alloc::{AllocError, Global};
use std::marker::Model;

/// How many bytes are gathered before they are written.
const SIZE: usize = 16384;

/// Room for lines on their way to a sink, which is taken once, before the first of them is written.
#[derive(Drop)]
pub struct Room {
    bytes: Vec<u8>,
    used: usize,
}

impl Model for Room {
    ghost use Rattle.std.specs.Prelude.{List, ℕ, ◌≤◌, length, take};

    ghost Value = { List ℕ };

    ghost view = { λ r. take r.used r.bytes.items };

    ghost invariant = { λ r. r.used ≤ length r.bytes.items };
}

impl Room {
    /// An empty room, of 16384 bytes. An error means that memory ran out.
    pub fn new(alloc: Global) -> Result<Room, AllocError>
        ensures { IfOk result (λ room. room ≡ []) }
    {
        let bytes = vec![in alloc; 0; SIZE]?;
        Ok(Room { bytes, used: 0 })
    }

    /// The bytes that wait.
    pub(crate) fn bytes(&self) -> &[u8]
        ensures { result.now ≡ self.now }
    {
        &self.bytes[..self.used]
    }

    /// Adds bytes, if there is room for all of them. The answer is whether there was.
    pub(crate) fn push(&mut self, more: &[u8]) -> bool
        ensures { self.new ≡ (if result then self.old ++ more.now else self.old) }
    {
        if more.len() > self.bytes.len() - self.used {
            return false;
        }
        let end = self.used + more.len();
        self.bytes[self.used..end].copy_from_slice(more);
        self.used = end;
        true
    }

    /// Lets the bytes go.
    pub(crate) fn clear(&mut self)
        ensures { self.new ≡ [] }
    {
        self.used = 0;
    }
}
