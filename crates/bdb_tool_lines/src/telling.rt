ghost use Rattle.std.specs.Prelude.{◌≡◌, [], IfErr};
ghost use Rattle.bdb_faults.specs.of_format.Terms.{judgement_seen};
ghost use Rattle.bdb_tool_lines.specs.Passing.{Passes};
ghost use Rattle.bdb_tool_lines.specs.Printing.{Writes};
ghost use Rattle.bdb_tool_lines.specs.Telling.{faults_text, judgement_line};
ghost use Rattle.bdb_tool_lines.specs.declared.cut.Cut.TheVariants.{WriteFault};
ghost use Rattle.bdb_model.specs.Change.{change};

use crate::Cut;
use crate::printer::Printer;
use crate::room::Room;
use bdb_faults::{Named, NamedList};
use bdb_io::Sink;

/// Adds a line for each of these.
fn print_all<K: Sink>(printer: &mut Printer<'_, K>, all: &NamedList) -> Result<(), Cut>
    ensures passes { Passes K.written K.faults printer.old printer.new (faults_text all.now) result }
    ensures cause { IfErr result (λ cut. cut ≡ WriteFault) }
{
    for i in 0..all.len() {
        printer.item(all, i)?;
    }
    Ok(())
}

/// Writes a line for each of these to a sink, through a room with nothing in it. An error is a write that failed.
#[tactic(auto, using(crate::proofs::PassingLemmas::all_cut))]
fn write_all<K: Sink>(out: &mut K, room: &mut Room, all: &NamedList) -> Result<(), Cut>
    requires { room.old ≡ [] }
    ensures lines { Writes (faults_text all.now) (change K.written K.faults out.old out.new) result }
    ensures cause { IfErr result (λ cut. cut ≡ WriteFault) }
{
    let mut printer = Printer { out, room };
    print_all(&mut printer, all)?;
    printer.flush()
}

/// The same with one line.
#[tactic(auto, using(crate::proofs::PassingLemmas::all_cut))]
fn write_one<K: Sink>(out: &mut K, room: &mut Room, named: Named) -> Result<(), Cut>
    requires { room.old ≡ [] }
    ensures lines { Writes (judgement_line (judgement_seen named)) (change K.written K.faults out.old out.new) result }
    ensures cause { IfErr result (λ cut. cut ≡ WriteFault) }
{
    let mut printer = Printer { out, room };
    printer.line(named)?;
    printer.flush()
}

/// Writes a line to a sink for each of these, which hold at pages of a file. The room is empty at the start, and again afterwards. An error is a
/// write that failed.
pub fn tell_all<K: Sink>(out: &mut K, room: &mut Room, all: &NamedList) -> Result<(), Cut>
    requires { room.old ≡ [] }
    ensures lines { Writes (faults_text all.now) (change K.written K.faults out.old out.new) result }
    ensures cause { IfErr result (λ cut. cut ≡ WriteFault) }
    ensures empty { room.new ≡ [] }
{
    let told = write_all(out, room, all);
    room.clear();
    told
}

/// Writes the line of a row that holds at a page to a sink. The room is empty at the start, and again afterwards. An error is a write that failed.
pub fn tell_one<K: Sink>(out: &mut K, room: &mut Room, named: Named) -> Result<(), Cut>
    requires { room.old ≡ [] }
    ensures lines { Writes (judgement_line (judgement_seen named)) (change K.written K.faults out.old out.new) result }
    ensures cause { IfErr result (λ cut. cut ≡ WriteFault) }
    ensures empty { room.new ≡ [] }
{
    let told = write_one(out, room, named);
    room.clear();
    told
}
