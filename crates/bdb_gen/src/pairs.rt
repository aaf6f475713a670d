ghost use Rattle.std.specs.Prelude.{◌≡◌, ◌<◌, ◌≤◌, ◌^◌, ◌++◌, ◌∷◌, [], IfOk, OnOk};
ghost use Rattle.std.specs.Int.{to_be_bytes};
ghost use Rattle.bdb_text_format.specs.of_format.declared.kinds.Order.TheVariants.{Big};
ghost use Rattle.bdb_text_format.specs.of_format.Terms.{spelled};
ghost use Rattle.bdb_text_format.specs.Terms.{key_seen};
ghost use Rattle.bdb_gen.specs.Generated.{generated, next_number, pair_key, pair_of, value_length};

use bdb_text_format::{KeyRef, Kind, PairList};
use std::alloc::{AllocError, Global};

/// More bytes than a datum has.
const MOST: usize = 64;

// The number after a number.
fn next_number(x: u32) -> u32
    requires { x < 2 ^ 31 }
    ensures next { result ≡ next_number x }
    ensures below { result < 2 ^ 31 }
{
    ((u64::from(x) * 1103515245 + 12345) % 2147483648) as u32
}

// A number as four bytes, the highest first.
fn high_first(x: u32) -> [u8; 4]
    ensures { result ≡ spelled 4 Big x }
{
    x.to_be_bytes()
}

// Puts two numbers as bytes into a room.
fn put_numbers(x: u32, i: u32, room: &mut Vec<u8>) -> Result<(), AllocError>
    ensures { OnOk result (room.new.items ≡ spelled 4 Big x ++ spelled 4 Big i) }
{
    room.clear();
    room.extend_from_slice(&high_first(x))?;
    room.extend_from_slice(&high_first(i))?;
    Ok(())
}

// The key of a pair: two numbers as bytes, which then lie in a room, or the number of its record.
fn pair_key<'a>(kind: Kind, x: u32, i: u32, room: &'a mut Vec<u8>) -> Result<KeyRef<'a>, AllocError>
    requires { i < 200000 }
    ensures { IfOk result (λ key. key_seen key ≡ pair_key kind x i) }
{
    match kind {
        Kind::Btree | Kind::Hash => {
            put_numbers(x, i, room)?;
            Ok(KeyRef::Bytes(room.as_slice()))
        }
        Kind::Recno | Kind::Queue => Ok(KeyRef::Number(i + 1)),
    }
}

// How many bytes the data of a pair have.
fn value_length(kind: Kind, x: u32) -> usize
    ensures length { result ≡ value_length kind x }
    ensures below { result < MOST }
{
    match kind {
        Kind::Btree | Kind::Recno | Kind::Hash => x as usize % 64,
        Kind::Queue => 16,
    }
}

// Adds the pair at a place, of the number there.
fn push_pair(
    kind: Kind,
    x: u32,
    i: u32,
    room: &mut Vec<u8>,
    list: &mut PairList,
) -> Result<(), AllocError>
    requires { i < 200000 }
    ensures { OnOk result (list.new ≡ list.old ++ pair_of kind x i ∷ []) }
{
    let data = [(i % 256) as u8; MOST];
    list.push_lent(pair_key(kind, x, i, room)?, &data[..value_length(kind, x)])
}

/// So many pairs for a database of this kind, which follow from the seed. An error means that memory ran out.
#[tactic(auto, using(crate::proofs::PairLemmas::number_next, crate::proofs::PairLemmas::pairs_none, crate::proofs::PairLemmas::pairs_next))]
pub fn generate(alloc: Global, kind: Kind, seed: u32, count: u32) -> Result<PairList, AllocError>
    requires seed { seed < 2 ^ 31 }
    requires count { count ≤ 200000 }
    ensures { IfOk result (λ list. list ≡ generated kind seed count) }
{
    let mut room = Vec::new(alloc);
    let mut list = PairList::new(alloc);
    let mut x = seed;
    for i in 0..count {
        push_pair(kind, x, i, &mut room, &mut list)?;
        x = next_number(x);
    }
    Ok(list)
}
