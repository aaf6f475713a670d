//! What comes of putting a file into an order.

ghost use Rattle.std.specs.Prelude.{◌≡◌, ◌≤◌, ◌^◌, length};

use bdb_swap::{FlipError, Order, Steps, flip, link, open_image};
use std::alloc::Global;
use std::marker::Brand;
use std::sync::ledger::{Blank, Ledger};
use test_images::{Field, write};

const MOST: usize = 5 * 512;

/// A file in an order is told by whether it's the one that is expected.
#[derive(Clone, Copy, Debug, PartialEq, Eq)]
pub enum Told {
    Expected,
    Other,
    Overlap(u32),
    Memory,
    Refused,
}

fn flipped<L: Ledger>(
    alloc: Global,
    image: &[u8],
    to: Order,
    expected: &[u8],
    steps: &mut Steps<L>,
) -> Told
    requires { length image.now ≤ 2 ^ 30 }
{
    let Ok(formed) = open_image(alloc, image) else {
        return Told::Refused;
    };
    let Ok(linked) = link(alloc, formed, steps) else {
        return Told::Refused;
    };
    match flip(alloc, &linked, image, to) {
        Ok(image) if image.bytes() == expected => Told::Expected,
        Ok(_) => Told::Other,
        Err(FlipError::Overlap(page)) => Told::Overlap(page),
        Err(FlipError::Memory) => Told::Memory,
    }
}

fn counted<L: Ledger>(alloc: Global, image: &[u8], to: Order, expected: &[u8], blank: Blank) -> Told
    requires size { length image.now ≤ 2 ^ 30 }
    requires name { blank.name ≡ L.name }
    requires parts { blank.parts ≡ L.parts }
    requires one { L.parts ≡ 1 }
{
    let mut steps = Steps::<L>::new(blank);
    flipped(alloc, image, to, expected, &mut steps)
}

/// What comes of putting an image of at most five pages into an order.
fn outcome_of(alloc: Global, image: &[u8], to: Order, expected: &[u8]) -> Told {
    if image.len() > MOST {
        return Told::Refused;
    }
    counted::<Brand>(alloc, image, to, expected, Blank::new(1))
}

/// What comes of putting a file of so many pages, at most five, with these fields into the order `to`, where its numbers stand in the order `from`.
/// Expected is the file with the same fields in that order.
pub fn outcome(alloc: Global, pages: usize, fields: &[Field], from: Order, to: Order) -> Told {
    let mut image = [0u8; MOST];
    write(&mut image, fields, from);
    let mut expected = [0u8; MOST];
    write(&mut expected, fields, to);
    let size = pages.min(5) * 512;
    outcome_of(alloc, &image[..size], to, &expected[..size])
}
