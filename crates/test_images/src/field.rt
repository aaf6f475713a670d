ghost use Rattle.std.specs.List.{fold};
ghost use Rattle.std.specs.Prelude.{◌≡◌};
ghost use Rattle.test_images.specs.Fields.{field_put, put_at};
ghost use Rattle.bdb_tree.specs.of_format.Terms.{spelled};

use bdb_tree::{Order, put_u16, put_u32};

/// What is written at a place, the number of its first byte: a byte, a number of two or four bytes, or bytes as they are.
#[derive(Clone, Copy)]
pub enum Field {
    Byte(usize, u8),
    Two(usize, u16),
    Four(usize, u32),
    Bytes(usize, &'static [u8]),
}

/// Writes fields over bytes, one after another. One that doesn't lie within them is left out.
#[tactic(auto, using(crate::proofs::FieldLemmas::written_more, crate::proofs::FieldLemmas::written_all))]
pub fn write(bytes: &mut [u8], fields: &[Field], order: Order)
    ensures { bytes.new ≡ fold (field_put order) bytes.old fields.now }
{
    for field in fields {
        put(bytes, *field, order);
    }
}

fn put(bytes: &mut [u8], field: Field, order: Order)
    ensures { bytes.new ≡ field_put order bytes.old field }
{
    match field {
        Field::Byte(at, value) => put_at(bytes, at, &[value]),
        Field::Two(at, value) => put_at(bytes, at, &two_bytes(order, value)),
        Field::Four(at, value) => put_at(bytes, at, &four_bytes(order, value)),
        Field::Bytes(at, value) => put_at(bytes, at, value),
    }
}

// Puts bytes over others from a place on, where they lie within them.
fn put_at(bytes: &mut [u8], at: usize, new: &[u8])
    ensures { bytes.new ≡ put_at bytes.old at new.now }
{
    if at <= bytes.len() && new.len() <= bytes.len() - at {
        bytes[at..at + new.len()].copy_from_slice(new);
    }
}

#[tactic(auto, using(crate::proofs::FieldLemmas::all_spelled))]
fn two_bytes(order: Order, value: u16) -> [u8; 2]
    ensures { result ≡ spelled 2 order value }
{
    let mut bytes = [0; 2];
    put_u16(&mut bytes, 0, order, value);
    bytes
}

#[tactic(auto, using(crate::proofs::FieldLemmas::all_spelled))]
fn four_bytes(order: Order, value: u32) -> [u8; 4]
    ensures { result ≡ spelled 4 order value }
{
    let mut bytes = [0; 4];
    put_u32(&mut bytes, 0, order, value);
    bytes
}
