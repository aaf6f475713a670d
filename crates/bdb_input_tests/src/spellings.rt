use bdb_model::Bytes;
use bdb_text::{SpellError, is_spelling, line_text, push_line_text, read_spelling};
use std::alloc::{AllocError, Global};
use std::test::Fail;

// A row: bytes, whether they are printed, and how they are spelled.
type Line = (&'static [u8], bool, &'static [u8]);

const LINES: [Line; 7] = [
    (b"", true, b""),
    (b"\x5c\x0a\x41", true, br"\\\0aA"),
    (b"\xff", true, br"\ff"),
    (b"\x7f", true, br"\7f"),
    (b"\x20", true, b" "),
    (b"\x7e", true, b"~"),
    (b"\x5c\x0a\xff", false, b"5c0aff"),
];

fn is_line(alloc: Global, line: Line) -> Result<bool, AllocError> {
    let (bytes, print, want) = line;
    Ok(line_text(alloc, bytes, print)?.as_slice() == want)
}

#[test]
fn bytes_are_spelled(rt: HostRuntime) -> Result<(), Fail> {
    for line in LINES {
        assert!(rt; is_line(rt.alloc(), line)?);
    }
    Ok(())
}

// Both spellings behind what is there.
fn push_both(text: &mut Bytes) -> Result<(), AllocError> {
    text.push_all(b" ")?;
    push_line_text(text, b"2", false)?;
    push_line_text(text, b"2\\", true)
}

#[test]
fn spellings_are_appended(rt: HostRuntime) -> Result<(), Fail> {
    let mut text = Bytes::new(rt.alloc());
    push_both(&mut text)?;
    assert!(rt; text.as_slice() == br" 322\\".as_slice());
    Ok(())
}

// A row: a text, whether it is printed, and its bytes.
type Row = (&'static [u8], bool, Result<&'static [u8], SpellError>);

const TEXTS: [Row; 14] = [
    (b"", true, Ok(b"")),
    (br"\\\0aA\0A", true, Ok(b"\\\nA\n")),
    (b"\x00\xff", true, Ok(b"\x00\xff")),
    (br"a\", true, Err(SpellError::Bad)),
    (br"a\0", true, Err(SpellError::Bad)),
    (br"\0g", true, Err(SpellError::Bad)),
    (br"\n", true, Err(SpellError::Bad)),
    (b"", false, Ok(b"")),
    (b"5c0aFf", false, Ok(b"\\\n\xff")),
    (b"5c0", false, Err(SpellError::Bad)),
    (b"5g", false, Err(SpellError::Bad)),
    (b" 5c", false, Err(SpellError::Bad)),
    (&[b'a'; 1026], false, Ok(&[0xaa; 513])),
    (&[b'a'; 1025], false, Err(SpellError::Bad)),
];

fn reads_as(read: &Result<Bytes, SpellError>, want: Result<&[u8], SpellError>) -> bool {
    match (read, want) {
        (Ok(bytes), Ok(wanted)) => bytes.as_slice() == wanted,
        (Err(error), Err(wanted)) => *error == wanted,
        _ => false,
    }
}

// Whether a text is read as its row says, and is told to be a spelling exactly where it is read.
fn is_read(alloc: Global, row: Row) -> bool {
    let (text, print, want) = row;
    is_spelling(text, print) == want.is_ok() && reads_as(&read_spelling(alloc, text, print), want)
}

#[test]
fn texts_are_read(rt: HostRuntime) {
    for row in TEXTS {
        assert!(rt; is_read(rt.alloc(), row));
    }
}
