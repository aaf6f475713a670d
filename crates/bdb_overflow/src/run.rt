ghost use Rattle.std.specs.Prelude.{◌≡◌, ◌≤◌, ◌++◌, [], length, take};
ghost use Rattle.bdb_graph.specs.of_layout.Seen.{OrderingIs};
ghost use Rattle.bdb_overflow.specs.Datum.{datum_seen};
ghost use Rattle.bdb_overflow.specs.Runs.{run_seen};

use crate::{Datum, Pieces};
use bdb_graph::compare;
use std::cmp::Ordering;

/// The bytes of a value that are left: those that stand together in front, and the pieces after them.
#[derive(Drop)]
struct Remainder<'a> {
    front: &'a [u8],
    rest: Pieces<'a>,
}

impl<'a> Remainder<'a> {
    /// All bytes of a value.
    fn of(datum: &Datum<'a>) -> Remainder<'a>
        ensures { run_seen result ≡ datum_seen datum.now }
    {
        match datum {
            Datum::Inline(bytes) => Remainder {
                front: bytes,
                rest: Pieces::none(),
            },
            Datum::Chained(pieces) => Remainder {
                front: &[],
                rest: pieces.again(),
            },
        }
    }

    /// Bytes stand in front, unless none are left.
    fn fill(&mut self)
        ensures same { run_seen self.new ≡ run_seen self.old }
        ensures end { self.new.front.now ≡ [] → run_seen self.new ≡ [] }
    {
        while self.front.is_empty() {
            match self.rest.next() {
                Some(piece) => self.front = piece,
                None => return,
            }
        }
    }

    /// The first bytes in front are taken off.
    fn skip(&mut self, n: usize)
        requires { n ≤ length self.old.front.now }
        ensures { run_seen self.old ≡ take n self.old.front.now ++ run_seen self.new }
    {
        self.front = &self.front[n..];
    }
}

/// The order of what is left of two values, which goes from piece to piece.
fn compare_runs(mut a: Remainder<'_>, mut b: Remainder<'_>) -> Ordering
    ensures { OrderingIs result (run_seen a.entry) (run_seen b.entry) }
{
    loop {
        a.fill();
        b.fill();
        let n = a.front.len().min(b.front.len());
        if n == 0 {
            return compare(a.front, b.front);
        }
        match compare(&a.front[..n], &b.front[..n]) {
            Ordering::Equal => {
                a.skip(n);
                b.skip(n);
            }
            other => return other,
        }
    }
}

/// The order of two values: bytewise, a proper prefix is less. Pieces are compared where they lie; bytes of
/// pages, which most keys are, at once.
pub fn compare_datum(a: &Datum<'_>, b: &Datum<'_>) -> Ordering
    ensures { OrderingIs result (datum_seen a.now) (datum_seen b.now) }
{
    match (a, b) {
        (Datum::Inline(a), Datum::Inline(b)) => compare(a, b),
        _ => compare_runs(Remainder::of(a), Remainder::of(b)),
    }
}
