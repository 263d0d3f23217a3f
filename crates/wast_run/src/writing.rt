// Lines of the report that are written on a stream.
ghost use Rattle.std.specs.Prelude.{◌≡◌, ◌≤◌, ℕ, List, IfErr, IfOk, OnErr, OnOk};
ghost use Rattle.w2c_io.specs.Contents.{extended};
ghost use Rattle.w2c_io.specs.Telling.{SaysPart};
ghost use Rattle.wast_script.specs.Seen.{reason_of};
ghost use Rattle.wast_run.specs.Stopping.{StopsLine};

use program_words::put_line;
use w2c_base::{Bytes, Memory};
use w2c_io::{Sink, WriteAnswer};
use wast_script::Stop;

/// Writes a line, if there was memory for it.
pub(crate) fn write_line<O: Sink>(line: Result<Bytes, Memory>, out: &mut O) -> Result<(), Stop>
    ensures whole { OnOk result ((text : List ℕ) → IfOk line (λ bytes. bytes ≡ text) → O.told out.new ≡ extended (O.told out.old) text) }
    ensures part { OnErr result ((text : List ℕ) → IfOk line (λ bytes. bytes ≡ text) → SaysPart (O.told out.old) (O.told out.new) text) }
    ensures stop { IfErr result (λ stop. StopsLine (O.faults out.old) (O.faults out.new) (reason_of stop)) }
    ensures later { O.faults out.old ≤ O.faults out.new }
    ensures kept { OnOk result (O.faults out.new ≡ O.faults out.old) }
{
    match put_line(line, out) {
        Ok(()) => Ok(()),
        Err(WriteAnswer::Failed) => Err(Stop::Unwritten),
        Err(WriteAnswer::Memory) => Err(Stop::Memory),
    }
}
