//! The options that commands have, and the words after a command.
ghost use Rattle.std.specs.Prelude.{◌≡◌, ◌<◌, ◌^◌, IfSome, List, MatchOption, drop, length, map, option_copied, option_map, slice_get, ℕ};
ghost use Rattle.bdb_tool_words.specs.Arguments.{arguments, has, once, option_named, value_given, value_of};
ghost use Rattle.bdb_tool_words.specs.ArgumentsSeen.{IsStep, option_seen};

use bdb_model::Words;
use std::marker::Model;

/// An option of a command, by its word.
#[derive(Clone, Copy)]
pub enum OptionRow {
    /// The next word is its value.
    Valued(&'static [u8]),
    /// It has no value.
    Flag(&'static [u8]),
}

pub const MAX_BYTES: OptionRow = OptionRow::Valued(b"--max-bytes");

pub const NAME: OptionRow = OptionRow::Valued(b"--name");

pub const ORDER: OptionRow = OptionRow::Valued(b"--order");

pub const PAGE_SIZE: OptionRow = OptionRow::Valued(b"--page-size");

pub const AS_KIND: OptionRow = OptionRow::Valued(b"--as");

pub const ONTO: OptionRow = OptionRow::Valued(b"--onto");

pub const HEX: OptionRow = OptionRow::Flag(b"--hex");

pub const PRINT: OptionRow = OptionRow::Flag(b"--print");

pub const DUPLICATES: OptionRow = OptionRow::Flag(b"--duplicates");

pub const DUPSORT: OptionRow = OptionRow::Flag(b"--dupsort");

pub const ANY_ORDER: OptionRow = OptionRow::Flag(b"--any-order");

pub const APART: OptionRow = OptionRow::Flag(b"--apart");

pub const REST: OptionRow = OptionRow::Flag(b"--rest");

/// An option that is given, with its value, which is empty where it takes none.
#[derive(Clone, Copy)]
struct Given<'w> {
    word: &'w [u8],
    value: &'w [u8],
}

/// What is at a place among the options: one more, and the place after it, or the place of the first operand.
#[derive(Clone, Copy)]
enum Step<'w> {
    Given(Given<'w>, usize),
    Operands(usize),
}

/// The words after a command: the options that are given, and the operands.
#[derive(Drop)]
pub struct Arguments<'w> {
    words: &'w Words,
    options: &'static [OptionRow],
    /// The place of the first operand.
    first: usize,
}

impl<'w> Model for Arguments<'w> {
    ghost use Rattle.bdb_tool_words.specs.Arguments.{Arguments};

    ghost Value = { Arguments };

    ghost use Rattle.bdb_tool_words.specs.ArgumentsSeen.{AreRead, arguments_seen};

    ghost view = { arguments_seen };

    ghost invariant = { AreRead };
}

impl<'w> Arguments<'w> {
    /// The value of an option, where it is given; that of a flag is empty.
    pub fn value(&self, option: OptionRow) -> Option<&'w [u8]>
        ensures { option_copied result ≡ value_of (option_seen option) self.now }
    {
        value_from(self.words, 1, self.options, word_of(option))
    }

    /// Whether an option is given.
    pub fn has(&self, option: OptionRow) -> bool
        ensures { result ≡ has (option_seen option) self.now }
    {
        self.value(option).is_some()
    }

    pub fn operand_count(&self) -> usize
        ensures { result ≡ length self.now.operands }
    {
        self.words.len().saturating_sub(self.first)
    }

    /// The operand at a place, from 0 on.
    pub fn operand(&self, i: usize) -> Option<&'w [u8]>
        ensures { option_copied result ≡ slice_get self.now.operands i }
    {
        if i < self.operand_count() {
            self.words.get(self.first + i)
        } else {
            None
        }
    }
}

/// Reads the words after the command; `None` where an option is unknown, given twice or lacks its value.
pub fn read_arguments<'w>(words: &'w Words, options: &'static [OptionRow]) -> Option<Arguments<'w>>
    ensures { result ≡ once (arguments (map option_seen options.now) (drop 1 words.now)) }
{
    let first = first_operand(words, options)?;
    Some(Arguments {
        words,
        options,
        first,
    })
}

// The place of the first operand; `None` where an option is unknown, given twice or lacks its value.
fn first_operand(words: &Words, options: &[OptionRow]) -> Option<usize>
    ensures within { length words.now < 2 ^ 64 }
    ensures operands { option_map (λ first. drop first words.now) result
        ≡ option_map (λ all. all.operands) (once (arguments (map option_seen options.now) (drop 1 words.now))) }
{
    let mut at = 1;
    while at < words.len() {
        match step_at(words, at, options)? {
            Step::Operands(first) => return Some(first),
            Step::Given(given, next) => {
                if value_from(words, next, options, given.word).is_some() {
                    return None;
                }
                at = next;
            }
        }
    }
    Some(at)
}

// The value of the option with a word, where it is given from a place on.
fn value_from<'w>(
    words: &'w Words,
    place: usize,
    options: &[OptionRow],
    word: &[u8],
) -> Option<&'w [u8]>
    ensures { IfSome (arguments (map option_seen options.now) (drop place words.now))
        (λ all. option_copied result ≡ value_given word.now all.given) }
{
    let mut at = place;
    while at < words.len() {
        match step_at(words, at, options)? {
            Step::Operands(_) => return None,
            Step::Given(given, _) if given.word == word => return Some(given.value),
            Step::Given(_, next) => at = next,
        }
    }
    None
}

// What stands at a place.
fn step_at<'w>(words: &'w Words, at: usize, options: &[OptionRow]) -> Option<Step<'w>>
    requires { length words.now < 2 ^ 64 }
    ensures { MatchOption result (arguments (map option_seen options.now) (drop at words.now) ≡ None) (IsStep (map option_seen options.now) words.now at) }
{
    let Some(word) = words.get(at) else {
        return Some(Step::Operands(at));
    };
    if word == b"--".as_slice() {
        return Some(Step::Operands(at + 1));
    }
    if !word.starts_with(b"--") {
        return Some(Step::Operands(at));
    }
    match option_named(word, options)? {
        OptionRow::Flag(_) => Some(Step::Given(Given { word, value: b"" }, at + 1)),
        OptionRow::Valued(_) => {
            let value = words.get(at + 1)?;
            Some(Step::Given(Given { word, value }, at + 2))
        }
    }
}

// The option of a command that a word names.
fn option_named(word: &[u8], options: &[OptionRow]) -> Option<OptionRow>
    ensures { option_map option_seen result ≡ option_named word.now (map option_seen options.now) }
{
    for option in options {
        if word == word_of(*option) {
            return Some(*option);
        }
    }
    None
}

fn word_of(option: OptionRow) -> &'static [u8]
    ensures { result.now ≡ (option_seen option).word }
{
    match option {
        OptionRow::Valued(word) | OptionRow::Flag(word) => word,
    }
}
