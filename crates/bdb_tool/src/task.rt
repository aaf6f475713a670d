//! What there is to do, and what it is done with.
ghost use Rattle.std.specs.Prelude.{◌^◌, ◌≤◌, IfOk, IsTrue, MatchResult, Option, false, is_some};
ghost use Rattle.bdb_repair.specs.of_model.Change.{change};
ghost use Rattle.bdb_tool_words.specs.Commands.{Command as ModelCommand, command_on, handed};
ghost use Rattle.bdb_tool.specs.Tasks.{IsFitTask, IsInputWithin, IsStopped, IsTaskTaken, IsUnreadable};
ghost use Rattle.bdb_tool_words.specs.WordsSeen.{IsFitCommand, IsSeen, command_seen};

use bdb_repair::{Guess, Image, ReadError, Source, Words, read_image};
use bdb_tool_build::Rows;
use bdb_tool_words::{Action, Command, Reading, Repair, Request, Salvage, Trial, command_of};
use std::alloc::Global;

/// What there is to do. A number is the limit of the command, in bytes.
#[derive(Drop)]
pub(crate) enum Task<'w> {
    /// Something is read of an image on which none of these rows holds.
    Read(Rows, Reading<'w>, Image),
    /// Something is asked of a sound image.
    Ask(Request<'w>, Image),
    /// A text is loaded.
    Load(Image, u32),
    /// An image is salvaged.
    Salvage(Salvage, Image),
    /// An image is repaired.
    Repair(Repair, Image, u32),
    /// What an image still has is counted, by the given guess.
    Survey(Option<Guess>, Image),
    /// Pairs are generated.
    Trial(Trial, u32),
}

/// Why a run has no task to answer.
#[derive(Clone, Copy, Debug, PartialEq, Eq)]
pub(crate) enum Stop {
    /// The words are no command, or ask for a base that isn't handed in.
    Usage,
    /// The input is longer than this many bytes.
    TooLarge(u32),
    ReadFault,
    Memory,
}

/// What a source has to its end, of at most so many bytes.
pub(crate) fn input_of<S: Source>(alloc: Global, source: &mut S, limit: u32) -> Result<Image, Stop>
    requires { limit ≤ 2 ^ 30 }
    ensures { MatchResult result (IsInputWithin limit (change S.left S.faults source.old source.new))
        (IsUnreadable limit (change S.left S.faults source.old source.new)) }
{
    match read_image(alloc, source, u64::from(limit)) {
        Ok(image) => Ok(image),
        Err(ReadError::TooLarge) => Err(Stop::TooLarge(limit)),
        Err(ReadError::ReadFault) => Err(Stop::ReadFault),
        Err(ReadError::Memory) => Err(Stop::Memory),
    }
}

// What a command does without a base, with the input where it reads one.
fn task_with<'w, S: Source>(
    alloc: Global,
    command: Command<'w>,
    source: &mut S,
) -> Result<Task<'w>, Stop>
    requires { IsFitCommand command }
    ensures task { (words : Option ModelCommand) → IsSeen words command.entry
        → MatchResult result (IsTaskTaken (handed false words) (change S.left S.faults source.old source.new))
        (IsStopped (handed false words) (change S.left S.faults source.old source.new)) }
    ensures fit { IsTrue (is_some (command_seen command.entry)) → IfOk result IsFitTask }
{
    match command.action {
        Action::Read(rows, reading) => match input_of(alloc, source, command.limit) {
            Ok(image) => Ok(Task::Read(rows, reading, image)),
            Err(stop) => Err(stop),
        },
        Action::Ask(request) => match input_of(alloc, source, command.limit) {
            Ok(image) => Ok(Task::Ask(request, image)),
            Err(stop) => Err(stop),
        },
        Action::Load => match input_of(alloc, source, command.limit) {
            Ok(text) => Ok(Task::Load(text, command.limit)),
            Err(stop) => Err(stop),
        },
        Action::LoadOnto(_) => Err(Stop::Usage),
        Action::Salvage(asked) => match input_of(alloc, source, command.limit) {
            Ok(image) => Ok(Task::Salvage(asked, image)),
            Err(stop) => Err(stop),
        },
        Action::Repair(asked) => match input_of(alloc, source, command.limit) {
            Ok(image) => Ok(Task::Repair(asked, image, command.limit)),
            Err(stop) => Err(stop),
        },
        Action::Survey(guess) => match input_of(alloc, source, command.limit) {
            Ok(image) => Ok(Task::Survey(guess, image)),
            Err(stop) => Err(stop),
        },
        Action::Trial(trial) => Ok(Task::Trial(trial, command.limit)),
    }
}

/// What the words say is to be done without a base, and the input where they ask for one.
pub(crate) fn task_of<'w, S: Source>(
    alloc: Global,
    words: &'w Words,
    source: &mut S,
) -> Result<Task<'w>, Stop>
    ensures task { MatchResult result (IsTaskTaken (command_on words.now false) (change S.left S.faults source.old source.new))
        (IsStopped (command_on words.now false) (change S.left S.faults source.old source.new)) }
    ensures fit { IfOk result IsFitTask }
{
    let Some(command) = command_of(words) else {
        return Err(Stop::Usage);
    };
    task_with(alloc, command, source)
}
