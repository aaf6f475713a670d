// The image of a dump text, or why there is none.
use bdb_tool::{Bytes, Image, LoadError, load, read_dump};
use std::alloc::{AllocError, Global};

/// What is answered to a text.
#[derive(Drop)]
pub(crate) enum Answer {
    Image(Image),
    Error(LoadError),
    /// It isn't read.
    Other,
}

/// Loads a text into an image of at most so many bytes; both have at most 2^30.
#[tactic(auto, using(crate::proofs::Below::read_sections_are_loadable))]
pub(crate) fn loaded(alloc: Global, text: &[u8], most: u64) -> Answer {
    if text.len() > 1073741824 || most > 1073741824 {
        return Answer::Other;
    }
    let Ok(sections) = read_dump(alloc, text) else {
        return Answer::Other;
    };
    match load(alloc, sections, most) {
        Ok(image) => Answer::Image(image),
        Err(error) => Answer::Error(error),
    }
}

/// The bytes of the image of a text; none where there is no image.
pub(crate) fn image_of(alloc: Global, text: &[u8]) -> Result<Bytes, AllocError> {
    let mut bytes = Bytes::new(alloc);
    if let Answer::Image(image) = loaded(alloc, text, 1073741824) {
        bytes.push_all(image.bytes())?;
    }
    Ok(bytes)
}
