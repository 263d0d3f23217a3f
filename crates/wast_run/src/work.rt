// The work that a command line asks for.
ghost use Rattle.std.specs.Prelude.{◌≡◌, ◌≤◌, ℕ, List, if◌then◌else◌, Some, None, Ok, Err, OnOk, IfOk, IfErr};
ghost use Rattle.std.specs.FinMap.{get};
ghost use Rattle.std.specs.List.{AllByRecursion};
ghost use Rattle.w2c_files.specs.Words.{texts};
ghost use Rattle.w2c_io.specs.Passed.{Passes};
ghost use Rattle.w2c_io.specs.Telling.{Tells};
ghost use Rattle.wast_script.specs.CommandLine.{line_of};
ghost use Rattle.wast_script.specs.Scripts.{IsScript};
ghost use Rattle.wast_script.specs.Seen.{reason_of, seen_line, seen_script};
ghost use Rattle.wast_run.specs.Jobs.{GivesFirst, HasReading, Reported};
ghost use Rattle.wast_run.specs.Passing.{EndsSo};
ghost use Rattle.wast_run.specs.Reading.{ReadsScript, StopsScriptOver};
ghost use Rattle.wast_run.specs.Stages.{HasModuleName};
ghost use Rattle.wast_run.specs.Stopping.{StopsScript, StopsWords, StopsWork};

use crate::reporting::report_commands;
use crate::stops::{refused, unread};
use program_words::NoLine;
use std::alloc::Global;
use w2c_io::{Files, ReadAnswer, Sink};
use wast_script::{Line, Script, ScriptFault, Stop, read_script, read_words};

// The most bytes of a script.
const SCRIPT_BYTES: usize = 1_048_576;

/// Reads the script that the words name, and reports on its commands. Gives the status: 0 where each is ok, else 1.
pub(crate) fn work<F: Files, O: Sink>(
    alloc: Global,
    words: &[String],
    files: &mut F,
    out: &mut O,
) -> Result<u8, Stop>
    ensures told { F.told files.new ≡ F.told files.old }
    ensures current { F.current files.new ≡ F.current files.old }
    ensures reads { F.read_faults files.old ≤ F.read_faults files.new }
    ensures later { O.faults out.old ≤ O.faults out.new }
    ensures reads_kept { OnOk result (F.read_faults files.new ≡ F.read_faults files.old) }
    ensures lines_kept { OnOk result (O.faults out.new ≡ O.faults out.old) }
    ensures reported { IfOk result (λ status. Tells (F.told files.old)
        (λ contents. Reported (texts words.now) contents (O.told out.old) (O.told out.new) status)) }
    ensures status { IfOk result (λ status. status ≤ 1) }
    ensures line { OnOk result (HasReading (texts words.now)) }
    ensures quiet { line_of (texts words.now) ≡ None → O.told out.new ≡ O.told out.old }
    ensures stop { IfErr result (λ stop. StopsWork (texts words.now) (F.told files.old)
        (GivesFirst (F.told files.old) (F.trace files.old) (F.trace files.new))
        (F.read_faults files.old) (F.read_faults files.new) (F.fault_name files.new)
        (O.told out.old) (O.told out.new) (O.faults out.old) (O.faults out.new) (reason_of stop)) }
    ensures passed { IfOk result (λ status. Passes (F.trace files.old) (F.trace files.new)
        (EndsSo (texts words.now) (O.told out.old) (O.told out.new) (Ok status))) }
    ensures tried { IfErr result (λ stop. Passes (F.trace files.old) (F.trace files.new)
        (EndsSo (texts words.now) (O.told out.old) (O.told out.new) (Err (reason_of stop)))) }
{
    let line = match line_in(alloc, words) {
        Ok(line) => line,
        Err(stop) => return Err(stop),
    };
    let script = match script_in(alloc, line.script, files) {
        Ok(script) => script,
        Err(stop) => return Err(stop),
    };
    match report_commands(alloc, script.commands.as_slice(), line.steps, files, out) {
        Ok(all_ok) => Ok(status_for(all_ok)),
        Err(stop) => Err(stop),
    }
}

// The line of the words.
fn line_in(alloc: Global, words: &[String]) -> Result<Line<'_>, Stop>
    ensures line { IfOk result (λ line. line_of (texts words.now) ≡ Some (seen_line line)) }
    ensures stop { IfErr result (λ stop. StopsWords (texts words.now) (reason_of stop)) }
{
    match read_words(alloc, words) {
        Ok(line) => Ok(line),
        Err(NoLine::Usage) => Err(Stop::Usage),
        Err(NoLine::Memory) => Err(Stop::Memory),
    }
}

fn status_for(all_ok: bool) -> u8
    ensures { result ≡ (if all_ok then 0 else 1) }
{
    if all_ok {
        return 0;
    }
    1
}

// The script in a file.
fn script_in<F: Files>(alloc: Global, name: &str, files: &mut F) -> Result<Script, Stop>
    ensures told { F.told files.new ≡ F.told files.old }
    ensures current { F.current files.new ≡ F.current files.old }
    ensures later { F.read_faults files.old ≤ F.read_faults files.new }
    ensures kept { OnOk result (F.read_faults files.new ≡ F.read_faults files.old) }
    ensures script { IfOk result (λ script. Tells (F.told files.old)
        (λ contents. (text : List ℕ) × (get contents name.now ≡ Some text) × IsScript text (seen_script script))) }
    ensures named { IfOk result (λ script. AllByRecursion HasModuleName (seen_script script)) }
    ensures stop { IfErr result (λ stop. StopsScript (F.told files.old) name.now
        (F.read_faults files.old) (F.read_faults files.new) (F.fault_name files.new) (reason_of stop)) }
    ensures passed { IfOk result (λ script. Passes (F.trace files.old) (F.trace files.new)
        (ReadsScript (F.told files.old) name.now (seen_script script))) }
    ensures tried { IfErr result (λ stop. Passes (F.trace files.old) (F.trace files.new) (StopsScriptOver name.now (reason_of stop))) }
{
    let text = match files.read(alloc, name, SCRIPT_BYTES) {
        Ok(text) => text,
        Err(ReadAnswer::Absent) => return Err(unread(alloc, name)),
        Err(ReadAnswer::Failed) => return Err(unread(alloc, name)),
        Err(ReadAnswer::TooLong) => return Err(Stop::Refused(ScriptFault::TooLong)),
        Err(ReadAnswer::Memory) => return Err(Stop::Memory),
    };
    match read_script(alloc, text.as_slice()) {
        Ok(script) => Ok(script),
        Err(fault) => Err(refused(fault)),
    }
}
