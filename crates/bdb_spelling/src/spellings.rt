ghost use Rattle.std.specs.Prelude.{◌≡◌, is_some, IfOk, IfErr, None, Some};
ghost use Rattle.bdb_text_format.specs.Terms.{bytes_spelled};
ghost use Rattle.bdb_spelling.specs.SpellErrors.{IsSpellError};

use crate::runs::{BYTES, next_run, read_run};
use bdb_text_format::Bytes;
use std::alloc::{AllocError, Global};

/// Why a text isn't read.
#[derive(Clone, Copy, Debug, PartialEq, Eq)]
pub enum SpellError {
    /// It is no spelling.
    Bad,
    /// Memory ran out.
    Memory,
}

impl From<AllocError> for SpellError {
    ghost use Rattle.bdb_spelling.specs.declared.spellings.SpellError.TheVariants.{Memory};

    ghost from_gives = { λ _ error. error ≡ Memory };

    fn from(_error: AllocError) -> SpellError {
        SpellError::Memory
    }
}

/// The first byte that a text spells, and the text behind it.
#[derive(Clone, Copy)]
pub struct First<'a> {
    pub byte: u8,
    pub rest: &'a [u8],
}

/// The bytes that a text spells, printed or by two digits each. `Bad` comes exactly where it is no spelling, and then nothing
/// was allocated.
pub fn read_spelling(alloc: Global, text: &[u8], print: bool) -> Result<Bytes, SpellError>
    ensures ok { IfOk result (λ bytes. bytes_spelled print text.now ≡ Some bytes) }
    ensures err { IfErr result (IsSpellError print text.now) }
    ensures bad { bytes_spelled print text.now ≡ None → result ≡ Err SpellError.Bad }
{
    if !is_spelling(text, print) {
        return Err(SpellError::Bad);
    }
    let mut bytes = Vec::new(alloc);
    read_run(text, print, &mut bytes)?;
    Ok(Bytes::from_vec(bytes))
}

/// Whether a text is the spelling of some bytes, printed or by two digits each. It takes no memory.
pub fn is_spelling(text: &[u8], print: bool) -> bool
    ensures { result ≡ is_some (bytes_spelled print text.now) }
{
    let mut piece = [0u8; BYTES];
    let mut rest = text;
    while !rest.is_empty() {
        match next_run(rest, print, &mut piece) {
            Some(run) => rest = run.rest,
            None => return false,
        }
    }
    true
}
