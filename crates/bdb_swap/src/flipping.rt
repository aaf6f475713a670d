ghost use Rattle.std.specs.Prelude.{◌≡◌};
ghost use Rattle.bdb_swap.specs.Flip.{IsFlip};

use crate::image::{copy_of, turned_image};
use bdb_io::{Bytes, Image, Order};
use bdb_law_turned::Linked;
use std::alloc::{AllocError, Global};
use std::marker::Model;
use thiserror::Error;

/// Why an image isn't put into another byte order.
#[derive(Clone, Copy, Debug, PartialEq, Eq, Error)]
pub enum FlipError {
    /// Two items of this page share a byte, so one number may be part of another item.
    #[error("items overlap, page {0}")]
    Overlap(u32),
    #[error("out of memory")]
    Memory,
}

impl From<AllocError> for FlipError {
    ghost use Rattle.bdb_swap.specs.declared.flipping.FlipError.TheVariants.{Memory};

    ghost from_gives = { λ _ error. error ≡ Memory };

    fn from(_error: AllocError) -> FlipError {
        FlipError::Memory
    }
}

/// A copy of the image of a linked file in a byte order: the same bytes if it has that order, else with each number of each page byte-swapped.
/// `Overlap` has the first page on which items overlap, exactly where the order is the other one and there is such a page; `Memory` means that memory
/// ran out.
pub fn flip(
    alloc: Global,
    linked: &Linked<'_>,
    image: &[u8],
    order: Order,
) -> Result<Image, FlipError>
    requires { image.now ≡ linked.now }
    ensures { IsFlip order image.now result }
{
    let head = linked.head();
    if order == head.order {
        return Ok(Image::from_bytes(Bytes::from_vec(copy_of(alloc, image)?)));
    }
    Ok(Image::from_bytes(turned_image(alloc, image, &head)?))
}
