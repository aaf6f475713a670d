ghost use Rattle.std.specs.Prelude.{◌≡◌};
ghost use Rattle.bdb_places.specs.Places.{span_in};

/// Where some bytes stand in a run: from `start` up to `end`.
#[derive(Clone, Copy, Debug, PartialEq, Eq)]
pub struct Span {
    pub start: u32,
    pub end: u32,
}

impl Span {
    /// The bytes that stand there; as many of them as the run has.
    pub fn of<'a>(&self, bytes: &'a [u8]) -> &'a [u8]
        ensures { result.now ≡ span_in bytes.now self.now }
    {
        let end = (self.end as usize).min(bytes.len());
        let start = (self.start as usize).min(end);
        &bytes[start..end]
    }
}
