//! What a word of a table says.

// What stands in a table behind this word; `None` where the table hasn't the word.
macro_rules! named {
    ($word:expr; $first:literal => $said:expr $(, $text:literal => $value:expr)*) => {
        if $word == $first.as_slice() {
            Some($said)
        } $(else if $word == $text.as_slice() {
            Some($value)
        })* else {
            None
        }
    };
}

pub(crate) use named;
