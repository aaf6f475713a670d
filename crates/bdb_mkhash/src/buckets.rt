ghost use Rattle.std.specs.Prelude.{◌≡◌, ℕ, ◌+◌, ◌<◌, ◌≤◌, ◌^◌, List, IfOk, IsTrue, length, map, replicate, []};
ghost use Rattle.std.specs.List.{All};
ghost use Rattle.bdb_mktree.specs.of_format.Terms.{is_page_size};
ghost use Rattle.bdb_mktree.specs.of_places.Places.{values_seen};
ghost use Rattle.bdb_mktree.specs.of_text_format.Terms.{pairs_of};
ghost use Rattle.bdb_law_buckets.specs.Tables.{Keyed, bucket_among};
ghost use Rattle.bdb_mktree.specs.Lists.{HasBytes};
ghost use Rattle.bdb_mkhash.specs.Buckets.{bits_for, buckets_of, table_bits, table_cost, table_units};
ghost use Rattle.bdb_mkhash.specs.Units.{units_seen};

use crate::unit::{Unit, keyed_cost};
use bdb_mktree::{KeyGroup, PairSlice, bucket_of, hash5, run_at};
use std::alloc::{AllocError, Global};

// A key of a list as it is stored.
fn unit_of<'a>(run: &KeyGroup<'a>) -> Unit<'a>
    ensures key { result.key.now ≡ run.now.key.now }
    ensures values { values_seen result.values ≡ values_seen run.now.values }
{
    Unit {
        key: run.key,
        values: run.values,
    }
}

// What all keys of a list take of pages of so many bytes.
fn table_cost(size: usize, list: PairSlice<'_>) -> Result<u64, AllocError>
    requires legal { IsTrue (is_page_size size) }
    requires keys { All (λ pair. HasBytes pair.key) (pairs_of list) }
    ensures { IfOk result (λ cost. cost ≡ table_cost size (table_units (pairs_of list.entry))) }
{
    let mut cost: u64 = 0;
    let mut start = 0;
    while start < list.len() {
        let run = run_at(list, start);
        cost = cost
            .checked_add(keyed_cost(size, run.key, run.values) as u64)
            .ok_or(AllocError)?;
        start = run.end;
    }
    Ok(cost)
}

// How many bits the number of a bucket has: half the room of a page for each bucket is enough for a cost. There is no memory for more
// than 2^31 buckets.
fn bits_for(size: usize, cost: u64) -> Result<u32, AllocError>
    requires { IsTrue (is_page_size size) }
    ensures bits { IfOk result (λ bits. bits ≡ bits_for size cost) }
    ensures some { IfOk result (λ bits. 1 ≤ bits) }
    ensures few { IfOk result (λ bits. bits ≤ 31) }
{
    let half = ((size - 26) / 2) as u64;
    for bits in 1..32 {
        if cost <= (1 << bits) * half {
            return Ok(bits);
        }
    }
    Err(AllocError)
}

/// How many bits the number of a bucket has in the table of a list, by what its keys take. An error means that memory
/// ran out.
pub fn table_bits(size: usize, list: PairSlice<'_>) -> Result<u32, AllocError>
    requires legal { IsTrue (is_page_size size) }
    requires keys { All (λ pair. HasBytes pair.key) (pairs_of list) }
    ensures bits { IfOk result (λ bits. bits ≡ table_bits size (table_units (pairs_of list.entry))) }
    ensures some { IfOk result (λ bits. 1 ≤ bits) }
    ensures few { IfOk result (λ bits. bits ≤ 31) }
{
    bits_for(size, table_cost(size, list)?)
}

/// How many buckets have a number of so many bits.
pub fn bucket_count(bits: u32) -> u32
    requires { bits ≤ 31 }
    ensures count { result ≡ 2 ^ bits }
    ensures few { result ≤ 2 ^ 31 }
{
    1 << bits
}

/// The bucket of a key where its number has so many bits.
pub fn bucket_among(bits: u32, key: &[u8]) -> u32
    requires some { 1 ≤ bits }
    requires few { bits ≤ 31 }
    ensures bucket { result ≡ bucket_among bits key.now }
    ensures low { result < 2 ^ bits }
{
    let count = bucket_count(bits);
    bucket_of(hash5(key), count - 1, count - 1, count / 2 - 1)
}

// Buckets without units.
fn no_units<'a>(alloc: Global, bits: u32) -> Result<Vec<Vec<Unit<'a>>>, AllocError>
    requires { bits ≤ 21 }
    ensures { IfOk result (λ buckets. map (λ bucket. units_seen bucket.items) buckets.items ≡ replicate (2 ^ bits) []) }
{
    let count = bucket_count(bits) as usize;
    let mut buckets = Vec::with_capacity(alloc, count)?;
    for _bucket in 0..count {
        buckets.push(Vec::new(alloc))?;
    }
    Ok(buckets)
}

/// The units of each bucket, in the order of the list.
pub(crate) fn deal<'a>(
    alloc: Global,
    list: PairSlice<'a>,
    bits: u32,
) -> Result<Vec<Vec<Unit<'a>>>, AllocError>
    requires some { 1 ≤ bits }
    requires few { bits ≤ 21 }
    requires keys { All (λ pair. HasBytes pair.key) (pairs_of list) }
    ensures { IfOk result (λ buckets. map (λ bucket. units_seen bucket.items) buckets.items ≡ buckets_of bits (table_units (pairs_of list.entry))) }
{
    let mut buckets = no_units(alloc, bits)?;
    let mut start = 0;
    while start < list.len() {
        let run = run_at(list, start);
        let unit = unit_of(&run);
        let b = bucket_among(bits, unit.key) as usize;
        buckets[b].push(unit)?;
        start = run.end;
    }
    Ok(buckets)
}
