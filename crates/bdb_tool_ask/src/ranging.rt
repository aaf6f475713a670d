//! The command that prints the pairs between two keys.
ghost use Rattle.std.specs.Prelude.{◌≡◌, ◌<◌, [], IsTrue, List, MatchOption, Option, Some, false, is_some, length, not, option_copied, true, ℕ};
ghost use Rattle.bdb_file.specs.of_databases.Named.{database_at};
ghost use Rattle.bdb_file.specs.of_image.Linked.{HasMetadata};
ghost use Rattle.bdb_file.specs.of_format.Terms.{BtreeFields, btree_list, database_faults, databases, file_of, is_recno, kind_of, list_of, structure_faults};
ghost use Rattle.bdb_tool_ask.specs.FileAnswers.{ranged};
ghost use Rattle.bdb_tool_words.specs.of_model.Change.{change};
ghost use Rattle.bdb_tool_words.specs.Commands.{asked_name};
ghost use Rattle.bdb_tool_words.specs.Commands.{bounds_request};
ghost use Rattle.bdb_tool_dump.specs.of_range.Ranges.{in_range};
ghost use Rattle.bdb_tool_words.specs.of_text_format.Terms.{bytes_spelled, is_btree};
ghost use Rattle.bdb_tool_dump.specs.of_tool_lines.Finished.{Finishes};

use crate::spelled::{name_bytes, name_sought, spelled};
use bdb_file::{BtreeMeta, Db, Linked, Meta, Sound, Steps};
use bdb_swap::Sink;
use bdb_tool_dump::status::{NOT_BTREE, NOT_FOUND};
use bdb_tool_dump::{RangePairs, pairs_of, report, span, tell, tell_memory};
use bdb_tool_print::write_pairs;
use bdb_tool_words::Bounds;
use std::alloc::Global;
use std::sync::ledger::Ledger;

/// The pairs of a btree between two keys; `None` of a recno.
fn tree_pairs<'a, 'k, L: Ledger>(
    linked: &Linked<'a>,
    meta: &BtreeMeta,
    from: &'k [u8],
    to: &'k [u8],
    steps: &mut Steps<L>,
) -> Option<RangePairs<'a, 'k>>
    requires meta { HasMetadata (file_of linked.now) (BtreeFields meta.now) }
    requires stage { structure_faults (file_of linked.now) ≡ [] }
    requires contents { database_faults (file_of linked.now) (BtreeFields meta.now) ≡ [] }
    ensures { MatchOption result (is_recno meta.now ≡ true)
        (λ pairs. (is_recno meta.now ≡ false) × (pairs ≡ in_range (btree_list (file_of linked.now) meta.now.root) from.now to.now)) }
{
    if meta.is_recno() {
        return None;
    }
    let leaves = span(linked, meta, from, to, steps);
    Some(pairs_of(linked, meta, &leaves, from, to))
}

/// The pairs of a database between two keys; `None` exactly where it isn't a btree.
#[tactic(auto, using(crate::proofs::RangeLemmas::btree_range, crate::proofs::RangeLemmas::is_a_btree, crate::proofs::RangeLemmas::is_a_recno))]
fn pairs_between<'a, 'k, L: Ledger>(
    sound: &Sound<'a>,
    db: Db,
    from: &'k [u8],
    to: &'k [u8],
    steps: &mut Steps<L>,
) -> Option<RangePairs<'a, 'k>>
    requires { db < length (databases (file_of sound.now)) }
    ensures { MatchOption result (is_btree (kind_of (database_at (file_of sound.now) db).fields) ≡ false)
        (λ pairs. (is_btree (kind_of (database_at (file_of sound.now) db).fields) ≡ true)
        × (pairs ≡ in_range (list_of (file_of sound.now) (database_at (file_of sound.now) db).fields) from.now to.now)) }
{
    match sound.meta(db) {
        Meta::Btree(meta) => tree_pairs(sound.linked(), meta, from, to, steps),
        Meta::Hash(_) | Meta::Queue(_) => None,
    }
}

/// Answers `range`.
#[tactic(auto, using(crate::proofs::RangeLemmas::no_database_finishes))]
pub(crate) fn answer_range<K: Sink, E: Sink, L: Ledger>(
    alloc: Global,
    sound: &Sound<'_>,
    bounds: &Bounds<'_>,
    out: &mut K,
    err: &mut E,
    steps: &mut Steps<L>,
) -> u8
    requires { IsTrue (is_some (bounds_request (asked_name (option_copied bounds.now.name)) (bytes_spelled (not bounds.now.hex) bounds.now.from.now)
        (bytes_spelled (not bounds.now.hex) bounds.now.to.now) bounds.now.print)) }
    ensures { (name : Option (List ℕ)) (from to : List ℕ) → asked_name (option_copied bounds.now.name) ≡ Some name
        → bytes_spelled (not bounds.now.hex) bounds.now.from.now ≡ Some from → bytes_spelled (not bounds.now.hex) bounds.now.to.now ≡ Some to
        → Finishes (ranged bounds.now.print (file_of sound.now) name from to)
        (change K.written K.faults out.old out.new) (change E.written E.faults err.old err.new) result }
{
    let Ok(name) = name_sought(alloc, bounds.name) else {
        return tell_memory(err);
    };
    let Ok(from) = spelled(alloc, bounds.from, !bounds.hex) else {
        return tell_memory(err);
    };
    let Ok(to) = spelled(alloc, bounds.to, !bounds.hex) else {
        return tell_memory(err);
    };
    let Some(db) = sound.by_name(name_bytes(&name)) else {
        return tell(err, b"not found\n", NOT_FOUND);
    };
    match pairs_between(sound, db, from.as_slice(), to.as_slice(), steps) {
        Some(pairs) => report(write_pairs(alloc, out, pairs, bounds.print), err),
        None => tell(err, b"not a btree\n", NOT_BTREE),
    }
}
