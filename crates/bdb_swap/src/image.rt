ghost use Rattle.std.specs.Prelude.{◌≡◌, ◌++◌, IfOk, OnOk, None, false, true, length};
ghost use Rattle.bdb_io.specs.of_format.Terms.{abstract_page, form_code, is_page_size, is_zero};
ghost use Rattle.bdb_law_turned.specs.Overlaps.{overlaps};
ghost use Rattle.bdb_law_turned.specs.Turning.{turned_page};
ghost use Rattle.bdb_swap.specs.Flip.{IsTurnedImage};
ghost use Rattle.bdb_swap.specs.Formed.{HasForm};

use crate::flipping::FlipError;
use crate::overlap::page_overlaps;
use crate::page::turn_page;
use bdb_io::{Bytes, Head};
use bdb_law_turned::page_bytes;
use std::alloc::{AllocError, Global};

/// A copy of bytes, whose room is taken at once.
pub(crate) fn copy_of(alloc: Global, bytes: &[u8]) -> Result<Vec<u8>, AllocError>
    ensures { IfOk result (λ copy. copy.items ≡ bytes.now) }
{
    let mut copy = Vec::with_capacity(alloc, bytes.len())?;
    copy.extend_from_slice(bytes)?;
    Ok(copy)
}

/// Adds a page to a copy, and turns it round there.
fn add_turned(copy: &mut Vec<u8>, page: &[u8], head: &Head, number: u32) -> Result<(), AllocError>
    requires size { is_page_size (length page.now) ≡ true }
    requires form { is_zero page.now ≡ false → form_code head.now number page.now ≡ None }
    requires apart { overlaps (abstract_page head.now.order page.now) ≡ false }
    ensures { OnOk result (copy.new.items ≡ copy.old.items ++ turned_page head.now.order page.now) }
{
    let start = copy.len();
    copy.extend_from_slice(page)?;
    turn_page(&mut copy[start..], page, head, number);
    Ok(())
}

/// An image with all its pages byte-swapped, in a copy whose room is taken at once; or the first page whose items overlap.
/// Each page is looked at and turned while it is at hand, so the image is gone through once.
pub(crate) fn turned_image(alloc: Global, image: &[u8], head: &Head) -> Result<Bytes, FlipError>
    requires { HasForm head.now image.now }
    ensures { IsTurnedImage image.now result }
{
    let mut copy = Vec::with_capacity(alloc, image.len())?;
    let mut ends = [0u16; 32768];
    for number in 0..head.pages {
        let page = page_bytes(image, head, number);
        if page_overlaps(&mut ends[..page.len()], page, head, number) {
            return Err(FlipError::Overlap(number));
        }
        add_turned(&mut copy, page, head, number)?;
    }
    Ok(Bytes::from_vec(copy))
}
