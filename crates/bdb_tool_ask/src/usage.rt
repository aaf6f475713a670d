ghost use Rattle.bdb_tool_words.specs.of_model.Change.{change};
ghost use Rattle.bdb_tool_words.specs.Commands.{usage};
ghost use Rattle.bdb_tool_dump.specs.of_tool_lines.Finished.{Tells};

use bdb_swap::Sink;
use bdb_tool_dump::status::USAGE;
use bdb_tool_dump::tell;

/// Writes the line with the names of all commands to `err`, and answers the status of arguments that are no command; or that of a write fault.
pub fn tell_usage<E: Sink>(err: &mut E) -> u8
    ensures { Tells usage.err 2 (change E.written E.faults err.old err.new) result }
{
    tell(
        err,
        b"usage: bdbtool verify, list, get, dump, load, salvage, trial, range, convert, stat, repair or survey\n",
        USAGE,
    )
}
