// The lines of a text.
ghost use Rattle.bdb_spelling.specs.of_text_format.Terms.{text_lines};
ghost use Rattle.std.specs.Prelude.{◌≡◌, ◌<◌, ◌∷◌, length};

use memchr::memchr;

/// The first line of a text, without its line feed, and the text behind it.
#[derive(Clone, Copy)]
pub struct Cut<'a> {
    pub line: &'a [u8],
    pub rest: &'a [u8],
}

/// The first line of a text.
pub fn cut_line(text: &[u8]) -> Cut<'_>
    requires { 0 < length text.now }
    ensures lines { text_lines text.now ≡ result.line.now ∷ text_lines result.rest.now }
    ensures shorter { length result.rest.now < length text.now }
{
    match memchr(b'\n', text) {
        Some(end) => Cut {
            line: &text[..end],
            rest: &text[end + 1..],
        },
        None => Cut {
            line: text,
            rest: &text[text.len()..],
        },
    }
}
