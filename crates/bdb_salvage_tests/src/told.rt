//! What salvage gives, beside what it ought to.

ghost use Rattle.std.specs.Prelude.{◌≡◌};

use bdb_salvage::{Datum, Guess, Order, SalvageError, Salvaged, Steps, salvage};
use std::alloc::Global;
use std::marker::Brand;
use std::sync::ledger::{Blank, Ledger};
use test_images::{Field, write};

const SIZE: usize = 6 * 512;

/// An image by fields that are written one after another, and what it gives.
#[derive(Clone, Copy)]
pub struct Case {
    pub length: usize,
    pub fields: &'static [Field],
    pub changes: &'static [Field],
    pub pairs: &'static [(&'static [u8], &'static [u8])],
    pub loose: &'static [&'static [u8]],
}

/// Whether a value has these bytes.
fn has(alloc: Global, datum: &Datum<'_>, bytes: &[u8]) -> bool {
    match datum.copy(alloc) {
        Ok(copy) => copy.as_slice() == bytes,
        Err(_) => false,
    }
}

fn has_pairs(alloc: Global, salvaged: &Salvaged<'_>, pairs: &[(&[u8], &[u8])]) -> bool {
    let mut found = salvaged.pairs();
    for pair in pairs {
        let Some((key, value)) = found.next() else {
            return false;
        };
        if !has(alloc, &key, pair.0) || !has(alloc, &value, pair.1) {
            return false;
        }
    }
    found.next().is_none()
}

fn has_loose(alloc: Global, salvaged: &Salvaged<'_>, loose: &[&[u8]]) -> bool {
    let mut found = salvaged.loose();
    for bytes in loose {
        let Some(value) = found.next() else {
            return false;
        };
        if !has(alloc, &value, bytes) {
            return false;
        }
    }
    found.next().is_none()
}

/// What is salvaged by the guess of page 0, or by one that is given.
fn salvaged_by<'a, L: Ledger>(
    alloc: Global,
    image: &'a [u8],
    order: Order,
    told: bool,
    steps: &mut Steps<L>,
) -> Result<Salvaged<'a>, SalvageError> {
    if image.len() > SIZE {
        return Err(SalvageError::Memory);
    }
    if told {
        salvage(alloc, image, None, steps)
    } else {
        let page_size = 512;
        salvage(alloc, image, Some(Guess { order, page_size }), steps)
    }
}

fn gives<L: Ledger>(
    alloc: Global,
    image: &[u8],
    order: Order,
    told: bool,
    case: &Case,
    blank: Blank,
) -> bool
    requires name { blank.name ≡ L.name }
    requires parts { blank.parts ≡ L.parts }
    requires one { L.parts ≡ 1 }
{
    let mut steps = Steps::<L>::new(blank);
    match salvaged_by(alloc, image, order, told, &mut steps) {
        Ok(salvaged) => {
            let guess = salvaged.guess();
            guess.order == order
                && guess.page_size == 512
                && has_pairs(alloc, &salvaged, case.pairs)
                && has_loose(alloc, &salvaged, case.loose)
        }
        Err(_) => false,
    }
}

/// Whether an image gives what it ought to, in one order; the guess is given, or page 0 tells it.
fn is_so(alloc: Global, case: &Case, order: Order, told: bool) -> bool {
    let mut image = [0u8; SIZE];
    write(&mut image, case.fields, order);
    write(&mut image, case.changes, order);
    match image.get(..case.length) {
        Some(image) => gives::<Brand>(alloc, image, order, told, case, Blank::new(1)),
        None => false,
    }
}

/// The same in both orders, with a guess.
pub fn is_given(alloc: Global, case: &Case) -> bool {
    is_so(alloc, case, Order::Little, false) && is_so(alloc, case, Order::Big, false)
}

/// The same without one.
pub fn is_told(alloc: Global, case: &Case) -> bool {
    is_so(alloc, case, Order::Little, true) && is_so(alloc, case, Order::Big, true)
}

fn refuses<L: Ledger>(alloc: Global, image: &[u8], blank: Blank) -> bool
    requires name { blank.name ≡ L.name }
    requires parts { blank.parts ≡ L.parts }
    requires one { L.parts ≡ 1 }
{
    let mut steps = Steps::<L>::new(blank);
    match salvaged_by(alloc, image, Order::Little, true, &mut steps) {
        Ok(_) => false,
        Err(error) => error == SalvageError::NoMeta,
    }
}

/// Whether page 0 tells no guess, in one order.
fn tells_none_in(
    alloc: Global,
    order: Order,
    length: usize,
    fields: &[Field],
    changes: &[Field],
) -> bool {
    let mut image = [0u8; SIZE];
    write(&mut image, fields, order);
    write(&mut image, changes, order);
    match image.get(..length) {
        Some(image) => refuses::<Brand>(alloc, image, Blank::new(1)),
        None => false,
    }
}

/// The same in both orders.
pub fn tells_none(alloc: Global, length: usize, fields: &[Field], changes: &[Field]) -> bool {
    tells_none_in(alloc, Order::Little, length, fields, changes)
        && tells_none_in(alloc, Order::Big, length, fields, changes)
}
