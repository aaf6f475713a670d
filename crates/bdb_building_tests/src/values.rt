//! What lists are made of.

use bdb_need::{Bytes, KeyRef, Order, PairRef, TextPairs};
use std::alloc::{AllocError, Global};

pub const ORDERS: [Order; 2] = [Order::Little, Order::Big];

pub fn copy(alloc: Global, bytes: &[u8]) -> Result<Bytes, AllocError> {
    let mut copy = Bytes::new(alloc);
    copy.push_all(bytes)?;
    Ok(copy)
}

/// A value of a number: its two low bytes, of one byte its lowest, and then letters.
pub fn value_of(alloc: Global, number: u32, long: usize) -> Result<Bytes, AllocError> {
    let [_, _, high, low] = number.to_be_bytes();
    let letters = [b'x'; 5000];
    let mut bytes = Bytes::new(alloc);
    match long {
        0 => {}
        1 => bytes.push_all(&[low])?,
        _ => bytes.push_all(&[high, low])?,
    }
    bytes.push_all(letters.get(..long.saturating_sub(2)).unwrap_or(&[]))?;
    Ok(bytes)
}

/// A key of bytes and its datum.
pub type Keyed = (&'static [u8], &'static [u8]);

pub fn keyed(alloc: Global, pairs: &[Keyed]) -> Result<TextPairs, AllocError> {
    let mut list = TextPairs::new(alloc);
    for &(key, value) in pairs {
        push(&mut list, KeyRef::Bytes(key), value)?;
    }
    Ok(list)
}

/// Adds a pair without a line.
pub fn push(list: &mut TextPairs, key: KeyRef<'_>, value: &[u8]) -> Result<(), AllocError> {
    list.push(PairRef {
        key,
        value,
        line: 0,
    })
}

/// The number of a record and its bytes.
pub type Numbered = (u32, &'static [u8]);

pub fn numbered(alloc: Global, pairs: &[Numbered]) -> Result<TextPairs, AllocError> {
    let mut list = TextPairs::new(alloc);
    for &(number, value) in pairs {
        push(&mut list, KeyRef::Number(number), value)?;
    }
    Ok(list)
}
