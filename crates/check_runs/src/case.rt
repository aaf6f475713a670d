use std::alloc::{AllocError, Global};

/// A line of the table.
#[derive(Drop)]
pub(crate) struct Case<'a> {
    pub(crate) words: Vec<&'a str>,
    pub(crate) input: &'a str,
    pub(crate) base: Option<&'a str>,
    /// The name under which the output is kept.
    pub(crate) kept: Option<&'a str>,
    /// Whether it's also run where reads and writes fail.
    pub(crate) fails: bool,
}

/// What the next piece of a line is.
#[derive(Clone, Copy)]
enum Place {
    Word,
    Input,
    Base,
    Kept,
}

/// The case of `WORDS < INPUT + BASE > KEPT !`.
pub(crate) fn case_of<'a>(alloc: Global, line: &'a str) -> Result<Case<'a>, AllocError> {
    let mut case = Case {
        words: Vec::new(alloc),
        input: "",
        base: None,
        kept: None,
        fails: false,
    };
    let mut place = Place::Word;
    for piece in line.split(' ') {
        match piece {
            "<" => place = Place::Input,
            "+" => place = Place::Base,
            ">" => place = Place::Kept,
            "!" => case.fails = true,
            _ => put(&mut case, place, piece)?,
        }
    }
    Ok(case)
}

// Two quotation marks are the word without letters.
fn put<'a>(case: &mut Case<'a>, place: Place, piece: &'a str) -> Result<(), AllocError> {
    match place {
        Place::Word if piece == "''" => case.words.push("")?,
        Place::Word => case.words.push(piece)?,
        Place::Input => case.input = piece,
        Place::Base => case.base = Some(piece),
        Place::Kept => case.kept = Some(piece),
    }
    Ok(())
}
