//! Images that are written a field a line.

use bdb_tool::{Bytes, Order};
use std::alloc::{AllocError, Global};
use test_images::{Field, write};

/// The bytes of the longest file.
const LONGEST: usize = 9 * 512;

/// A file of at most nine pages of 512 bytes: its length in bytes, and its fields. A later field is written over an
/// earlier one, and bytes without a field are 0.
#[derive(Clone, Copy)]
pub struct File {
    pub length: usize,
    pub parts: &'static [&'static [Field]],
}

pub fn bytes_of(alloc: Global, file: &File) -> Result<Bytes, AllocError> {
    let mut image = [0u8; LONGEST];
    for part in file.parts {
        write(&mut image, part, Order::Little);
    }
    let mut bytes = Bytes::new(alloc);
    if let Some(whole) = image.get(..file.length) {
        bytes.push_all(whole)?;
    }
    Ok(bytes)
}
