//! The bytes that tested words spell.
ghost use Rattle.std.specs.Prelude.{◌≡◌, IfOk, IsTrue, Some, is_some, option_copied};
ghost use Rattle.bdb_tool_words.specs.Commands.{asked_name};
ghost use Rattle.bdb_tool_words.specs.of_text_format.Terms.{bytes_spelled};

use bdb_file::Bytes;
use bdb_tool_dump::{SpellError, read_spelling};
use std::alloc::{AllocError, Global};

/// The bytes of a spelling that was tested.
pub(crate) fn spelled(alloc: Global, text: &[u8], print: bool) -> Result<Bytes, AllocError>
    requires { IsTrue (is_some (bytes_spelled print text.now)) }
    ensures { IfOk result (λ bytes. bytes_spelled print text.now ≡ Some bytes) }
{
    match read_spelling(alloc, text, print) {
        Ok(bytes) => Ok(bytes),
        Err(SpellError::Memory) => Err(AllocError),
        Err(SpellError::Bad) => unreachable!(),
    }
}

/// The name that a tested word spells, where there is one.
pub(crate) fn name_sought(alloc: Global, word: Option<&[u8]>) -> Result<Option<Bytes>, AllocError>
    requires { IsTrue (is_some (asked_name (option_copied word))) }
    ensures { IfOk result (λ name. asked_name (option_copied word.entry) ≡ Some name) }
{
    match word {
        Some(word) => Ok(Some(spelled(alloc, word, true)?)),
        None => Ok(None),
    }
}

/// The bytes of a name, where there is one.
pub(crate) fn name_bytes(name: &Option<Bytes>) -> Option<&[u8]>
    ensures { option_copied result ≡ name.now }
{
    match name {
        Some(name) => Some(name.as_slice()),
        None => None,
    }
}
