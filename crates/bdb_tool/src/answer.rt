//! What is done with a task: each is answered by the file of its command.
ghost use Rattle.std.specs.Prelude.{◌≡◌};
ghost use Rattle.bdb_repair.specs.of_model.Change.{change};
ghost use Rattle.bdb_tool.specs.Claims.{TaskReads};
ghost use Rattle.bdb_tool.specs.Parts.{IsTaskAnswered};
ghost use Rattle.bdb_tool.specs.Tasks.{IsFitTask};

use crate::building::{answer_load, answer_trial};
use crate::repairing::answer_repair;
use crate::salvaging::{Extract, Wanted, answer_damaged, wanted_of};
use crate::task::Task;
use bdb_repair::{Sink, Steps, unsupported_case};
use bdb_tool_ask::{answer_file, answer_reading};
use std::alloc::Global;
use std::sync::ledger::Ledger;

/// Answers a task, which is given up.
pub(crate) fn answer<K: Sink, E: Sink, L: Ledger>(
    alloc: Global,
    task: Task<'_>,
    out: &mut K,
    err: &mut E,
    steps: &mut Steps<L>,
) -> u8
    requires { IsFitTask task }
    ensures answer { IsTaskAnswered task.entry (change K.written K.faults out.old out.new) (change E.written E.faults err.old err.new) result }
    ensures cost { TaskReads task.entry steps.old steps.new }
{
    match task {
        Task::Read(rows, reading, image) => {
            answer_reading(alloc, image.bytes(), rows, &reading, out, err, steps)
        }
        Task::Ask(request, image) => answer_file(alloc, image.bytes(), &request, out, err, steps),
        Task::Load(text, limit) => answer_load(alloc, text, limit, out, err),
        Task::Salvage(asked, image) => {
            let wanted = wanted_of(asked);
            answer_damaged(alloc, image.bytes(), asked.guess, wanted, out, err, steps)
        }
        Task::Repair(asked, image, limit) => {
            answer_repair(alloc, image.bytes(), asked, limit, out, err, steps)
        }
        Task::Survey(guess, image) => {
            let wanted = Wanted::Extract(Extract::Survey(unsupported_case(None, image.bytes())));
            answer_damaged(alloc, image.bytes(), guess, wanted, out, err, steps)
        }
        Task::Trial(trial, limit) => answer_trial(alloc, trial, limit, out, err, steps),
    }
}
