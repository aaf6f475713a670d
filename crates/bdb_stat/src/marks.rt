//! Places that are marked, as the bits of words.
ghost use Rattle.std.specs.Prelude.{◌≡◌, ◌≢◌, ◌<◌, ◌≤◌, ◌==◌, ◌+◌, ◌*◌, ◌/◌, ◌^◌, ℕ, IfOk, MatchOption, get_or, if◌then◌else◌, length};
ghost use Rattle.std.specs.Int.{bit_at};
ghost use Rattle.bdb_stat.specs.Marked.{IsFirstBit, marks_of};
ghost use Rattle.bdb_stat.specs.Starts.{IsNext, NoStart};

use std::alloc::{AllocError, Global};
use std::marker::Model;

// How many places one word has.
const PLACES: usize = 64;

/// A word with a bit of it set.
fn with_bit(word: u64, bit: usize) -> u64
    requires { bit < 64 }
    ensures set { bit_at result bit ≡ 1 }
    ensures others { (i : ℕ) → i ≢ bit → bit_at result i ≡ bit_at word i }
{
    word | (1 << bit)
}

/// The bits of a word from one on.
fn bits_from(word: u64, bit: usize) -> u64
    requires { bit < 64 }
    ensures low { (i : ℕ) → i < bit → bit_at result i ≡ 0 }
    ensures high { (i : ℕ) → bit ≤ i → i < 64 → bit_at result i ≡ bit_at word i }
{
    word & (u64::MAX << bit)
}

/// The first bit that is set in a word.
fn first_bit(word: u64) -> usize
    requires { 0 < word }
    ensures { IsFirstBit word result }
{
    word.trailing_zeros() as usize
}

/// Puts a word at a place.
fn put(words: &mut [u64], number: usize, word: u64)
    requires { number < length words.old }
    ensures same { length words.new ≡ length words.old }
    ensures each { (j : ℕ) → j < length words.old → get_or words.new j 0 ≡ (if number == j then word else get_or words.old j 0) }
{
    words[number] = word;
}

/// Puts 0 in place of each word.
fn zero(words: &mut [u64])
    ensures same { length words.new ≡ length words.old }
    ensures each { (j : ℕ) → j < length words.old → get_or words.new j 0 ≡ 0 }
{
    words.fill(0);
}

/// The first marked place of a word and those behind it.
fn first_from(words: &[u64], number: usize) -> Option<usize>
    requires few { 64 * length words.now < 2 ^ 64 }
    ensures { MatchOption result (NoStart (marks_of words.now) (64 * number) (64 * length words.now)) (IsNext (marks_of words.now) (64 * number)) }
{
    for i in number..words.len() {
        let word = words[i];
        if word != 0 {
            return Some(PLACES * i + first_bit(word));
        }
    }
    None
}

/// Places, each marked or not.
#[derive(Drop)]
pub(crate) struct Marks {
    words: Vec<u64>,
}

impl Model for Marks {
    ghost use Rattle.std.specs.Prelude.{List, ℕ, ◌*◌, ◌^◌, ◌<◌, length};
    ghost use Rattle.bdb_stat.specs.Marked.{marks_of};

    ghost Value = { List ℕ };

    ghost view = { λ it. marks_of it.words.items };

    ghost invariant = { λ it. 64 * length it.words.items < 2 ^ 64 };
}

impl Marks {
    /// So many places, a multiple of 64, of which none is marked.
    pub(crate) fn new(alloc: Global, places: usize) -> Result<Marks, AllocError>
        ensures { IfOk result (λ marks. length marks ≡ 64 * (places / 64)) }
    {
        Ok(Marks {
            words: vec![in alloc; 0; places / PLACES]?,
        })
    }

    /// Takes all marks away.
    pub(crate) fn clear(&mut self)
        ensures same { length self.new ≡ length self.old }
        ensures each { (k : ℕ) → k < length self.old → get_or self.new k 0 ≡ 0 }
    {
        zero(self.words.as_mut_slice());
    }

    /// Marks a place.
    pub(crate) fn mark(&mut self, place: usize)
        requires { place < length self.old }
        ensures same { length self.new ≡ length self.old }
        ensures each { (k : ℕ) → k < length self.old → get_or self.new k 0 ≡ (if place == k then 1 else get_or self.old k 0) }
    {
        let number = place / PLACES;
        let word = with_bit(self.words[number], place % PLACES);
        put(self.words.as_mut_slice(), number, word);
    }

    /// The first marked place from one on.
    pub(crate) fn next(&self, from: usize) -> Option<usize>
        requires { from ≤ length self.now }
        ensures { MatchOption result (NoStart self.now from (length self.now)) (IsNext self.now from) }
    {
        let words = self.words.as_slice();
        let number = from / PLACES;
        if number == words.len() {
            return None;
        }
        let word = bits_from(words[number], from % PLACES);
        if word != 0 {
            return Some(PLACES * number + first_bit(word));
        }
        first_from(words, number + 1)
    }
}
