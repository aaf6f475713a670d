//! Pairs and records, in no order.

use bdb_salvage::{Datum, KeyView, compare_datum};
use std::alloc::{AllocError, Global};
use std::cmp::Ordering;

/// A key with one of its data.
#[derive(Drop)]
struct Pair<'a> {
    key: Datum<'a>,
    value: Datum<'a>,
}

fn compare_pairs(a: &Pair<'_>, b: &Pair<'_>) -> Ordering {
    match compare_datum(&a.key, &b.key) {
        Ordering::Equal => compare_datum(&a.value, &b.value),
        other => other,
    }
}

/// What databases list, or what salvage gives.
#[derive(Drop)]
pub(crate) struct Held<'a> {
    pairs: Vec<Pair<'a>>,
    records: Vec<Datum<'a>>,
}

impl<'a> Held<'a> {
    pub(crate) fn new(alloc: Global) -> Held<'a> {
        Held {
            pairs: Vec::new(alloc),
            records: Vec::new(alloc),
        }
    }

    pub(crate) fn add_pair(&mut self, key: Datum<'a>, value: Datum<'a>) -> Result<(), AllocError> {
        self.pairs.push(Pair { key, value })?;
        Ok(())
    }

    pub(crate) fn add_record(&mut self, value: Datum<'a>) -> Result<(), AllocError> {
        self.records.push(value)?;
        Ok(())
    }

    /// Adds an entry of a list: the number of a record doesn't count.
    pub(crate) fn add_entry(
        &mut self,
        key: KeyView<'a>,
        value: Datum<'a>,
    ) -> Result<(), AllocError> {
        match key {
            KeyView::Bytes(key) => self.add_pair(key, value),
            KeyView::Number(_) => self.add_record(value),
        }
    }

    pub(crate) fn pairs(&self) -> usize {
        self.pairs.len()
    }

    pub(crate) fn records(&self) -> usize {
        self.records.len()
    }

    /// Puts both into one order.
    pub(crate) fn sort(&mut self) {
        self.pairs.sort_unstable_by(|a, b| compare_pairs(a, b));
        self.records.sort_unstable_by(|a, b| compare_datum(a, b));
    }

    /// Whether two that are in order hold the same, each as often.
    pub(crate) fn is_same(&self, other: &Held<'_>) -> bool {
        self.pairs.len() == other.pairs.len()
            && self.records.len() == other.records.len()
            && self
                .pairs
                .iter()
                .zip(other.pairs.iter())
                .all(|(a, b)| compare_pairs(a, b) == Ordering::Equal)
            && self
                .records
                .iter()
                .zip(other.records.iter())
                .all(|(a, b)| compare_datum(a, b) == Ordering::Equal)
    }
}
