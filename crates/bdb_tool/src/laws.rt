//! What follows from the promise of `run`.
ghost use Rattle.std.specs.Prelude.{◌≢◌, None, Some};
ghost use Rattle.bdb_tool.specs.Laws.{SameAnswersWithoutOrder};
ghost use Rattle.bdb_tool.specs.Outputs.{StatusIs};

use crate::run;
use bdb_repair::{Bytes, PureSink, PureSource, Steps, Words};
use std::alloc::Global;
use std::sync::ledger::Ledger;

// A run without a base.
fn run_pure_alone<L: Ledger>(alloc: Global, words: &Words, bytes: Bytes, steps: &mut Steps<L>) -> u8
    ensures no_read_fault { result ≢ 4 }
    ensures no_write_fault { result ≢ 5 }
    ensures answers { result ≢ 7 → StatusIs words.now None bytes result }
{
    let mut source = PureSource::new(bytes);
    let mut out = PureSink::new();
    let mut err = PureSink::new();
    run::<PureSource, PureSource, PureSink, PureSink, L>(
        alloc,
        words,
        &mut source,
        None,
        &mut out,
        &mut err,
        steps,
    )
}

// A run with a base.
fn run_pure_onto<L: Ledger>(
    alloc: Global,
    words: &Words,
    bytes: Bytes,
    image: Bytes,
    steps: &mut Steps<L>,
) -> u8
    ensures no_read_fault { result ≢ 4 }
    ensures no_write_fault { result ≢ 5 }
    ensures answers { result ≢ 7 → StatusIs words.now (Some image) bytes result }
{
    let mut source = PureSource::new(bytes);
    let mut base = PureSource::new(image);
    let mut out = PureSink::new();
    let mut err = PureSink::new();
    run::<PureSource, PureSource, PureSink, PureSink, L>(
        alloc,
        words,
        &mut source,
        Some(&mut base),
        &mut out,
        &mut err,
        steps,
    )
}

/// With a source, a base if there is one, and sinks that never fail, a run never ends with a read or write fault; unless memory runs out, it answers
/// the arguments on these bytes and those of the base.
pub fn run_pure<L: Ledger>(
    alloc: Global,
    words: &Words,
    bytes: Bytes,
    base: Option<Bytes>,
    steps: &mut Steps<L>,
) -> u8
    ensures no_read_fault { result ≢ 4 }
    ensures no_write_fault { result ≢ 5 }
    ensures answers { result ≢ 7 → StatusIs words.now base bytes result }
{
    match base {
        Some(image) => run_pure_onto(alloc, words, bytes, image, steps),
        None => run_pure_alone(alloc, words, bytes, steps),
    }
}

/// On a file on which no row of order holds, a command with `--any-order` answers what it answers without.
#[tactic(auto, using(crate::proofs::OrderLemmas::same_answers_without_order))]
pub fn same_answers_without_order()
    ensures { SameAnswersWithoutOrder }
{}
