// The list that a dump text is loaded into.
use bdb_tool::{TextPairs, read_dump, settle};
use std::alloc::{AllocError, Global};

/// The list of the last section of a text; an empty one where there is none.
pub(crate) fn list_of(alloc: Global, text: &[u8]) -> Result<TextPairs, AllocError> {
    let empty = TextPairs::new(alloc);
    if text.len() > 1073741824 {
        return Ok(empty);
    }
    let Ok(sections) = read_dump(alloc, text) else {
        return Ok(empty);
    };
    let Ok(mut settled) = settle(alloc, sections) else {
        return Ok(empty);
    };
    match settled.pop() {
        Some(section) => Ok(section.pairs),
        None => Ok(empty),
    }
}
