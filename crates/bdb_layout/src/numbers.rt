ghost use Rattle.std.specs.Prelude.{◌≡◌, ◌+◌, ◌≤◌, length};
ghost use Rattle.bdb_format.specs.Terms.{four_at, overwritten, spelled, two_at};

use bdb_format::Order;
use byteorder::{BigEndian, ByteOrder, LittleEndian};

/// The number in the two bytes at a place.
pub fn u16_at(bytes: &[u8], at: usize, order: Order) -> u16
    requires { at + 2 ≤ length bytes.now }
    ensures { result ≡ two_at order bytes.now at }
{
    match order {
        Order::Big => BigEndian::read_u16(&bytes[at..at + 2]),
        Order::Little => LittleEndian::read_u16(&bytes[at..at + 2]),
    }
}

/// The number in the four bytes at a place.
pub fn u32_at(bytes: &[u8], at: usize, order: Order) -> u32
    requires { at + 4 ≤ length bytes.now }
    ensures { result ≡ four_at order bytes.now at }
{
    match order {
        Order::Big => BigEndian::read_u32(&bytes[at..at + 4]),
        Order::Little => LittleEndian::read_u32(&bytes[at..at + 4]),
    }
}

/// Writes a number into the two bytes at a place; all other bytes stay.
pub fn put_u16(bytes: &mut [u8], at: usize, order: Order, value: u16)
    requires { at + 2 ≤ length bytes.old }
    ensures { bytes.new ≡ overwritten bytes.old at (spelled 2 order value) }
{
    match order {
        Order::Big => BigEndian::write_u16(&mut bytes[at..at + 2], value),
        Order::Little => LittleEndian::write_u16(&mut bytes[at..at + 2], value),
    }
}

/// Writes a number into the four bytes at a place; all other bytes stay.
pub fn put_u32(bytes: &mut [u8], at: usize, order: Order, value: u32)
    requires { at + 4 ≤ length bytes.old }
    ensures { bytes.new ≡ overwritten bytes.old at (spelled 4 order value) }
{
    match order {
        Order::Big => BigEndian::write_u32(&mut bytes[at..at + 4], value),
        Order::Little => LittleEndian::write_u32(&mut bytes[at..at + 4], value),
    }
}
