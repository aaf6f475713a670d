//! What is asked of a file: each request is answered by the file of its command.
ghost use Rattle.std.specs.Prelude.{◌≡◌, ◌≤◌, ◌^◌, IsTrue, Some, is_some, length};
ghost use Rattle.bdb_tool_ask.specs.FileAnswers.{asked_answer, sound_answer};
ghost use Rattle.bdb_tool_words.specs.of_model.Change.{change};
ghost use Rattle.bdb_tool_words.specs.Commands.{Request as ModelRequest};
ghost use Rattle.bdb_file.specs.of_any_order.declared.rows.Rows.TheVariants.{All};
ghost use Rattle.bdb_tool_dump.specs.of_tool_lines.Finished.{Finishes};
ghost use Rattle.bdb_tool_words.specs.WordsSeen.{request_seen};

use crate::converting::answer_convert;
use crate::looking::answer_lookup;
use crate::ranging::answer_range;
use crate::stating::answer_stat;
use bdb_file::{First, Sound, Steps, sound_by};
use bdb_swap::Sink;
use bdb_tool_dump::refuse;
use bdb_tool_words::Request;
use std::alloc::Global;
use std::sync::ledger::Ledger;

/// Answers what is asked of a sound file.
fn answer_sound<K: Sink, E: Sink, L: Ledger>(
    alloc: Global,
    sound: &Sound<'_>,
    request: &Request<'_>,
    out: &mut K,
    err: &mut E,
    steps: &mut Steps<L>,
) -> u8
    requires { IsTrue (is_some (request_seen request.now)) }
    ensures { (asked : ModelRequest) → request_seen request.now ≡ Some asked
        → Finishes (sound_answer asked sound.now) (change K.written K.faults out.old out.new) (change E.written E.faults err.old err.new) result }
{
    match request {
        Request::Get(lookup) => answer_lookup(alloc, sound, lookup, out, err, steps),
        Request::Range(bounds) => answer_range(alloc, sound, bounds, out, err, steps),
        Request::Convert(order) => answer_convert(alloc, sound, *order, out, err),
        Request::Stat => answer_stat(alloc, sound, out, err),
    }
}

/// Answers a request for a sound file: writes the answer to `out` or a line to `err`, and answers the exit status. Of a file that isn't sound the
/// first row that holds is told, a fault or an unsupported case.
pub fn answer_file<K: Sink, E: Sink, L: Ledger>(
    alloc: Global,
    image: &[u8],
    request: &Request<'_>,
    out: &mut K,
    err: &mut E,
    steps: &mut Steps<L>,
) -> u8
    requires size { length image.now ≤ 2 ^ 30 }
    requires seen { IsTrue (is_some (request_seen request.now)) }
    ensures { (asked : ModelRequest) → request_seen request.now ≡ Some asked
        → Finishes (asked_answer All asked image.now) (change K.written K.faults out.old out.new) (change E.written E.faults err.old err.new) result }
{
    match sound_by::<First, L>(alloc, image, steps) {
        Ok(sound) => answer_sound(alloc, &sound, request, out, err, steps),
        Err(error) => refuse(alloc, error, err),
    }
}
