// The commands of a script, in order, and the lines of the report.
ghost use Rattle.std.specs.Prelude.{◌≡◌, ◌<◌, ◌≤◌, ◌^◌, suc, if◌then◌else◌, IfErr, IfOk, OnOk};
ghost use Rattle.std.specs.List.{AllByRecursion};
ghost use Rattle.w2c_io.specs.Passed.{Passes};
ghost use Rattle.w2c_io.specs.Telling.{Tells};
ghost use Rattle.wast_script.specs.Seen.{reason_of, seen_command, seen_commands};
ghost use Rattle.wast_run.specs.Report.{is_ok, Setting};
ghost use Rattle.wast_run.specs.Stages.{setting_of, HasModuleName, IsSound};
ghost use Rattle.wast_run.specs.Passing.{StopsIn};
ghost use Rattle.wast_run.specs.Reading.{HasReportedOver, IsBehindOver, StopsTellingOver, TellsOver};
ghost use Rattle.wast_run.specs.Telling.{HasReported, IsBehind, StopsTelling, TellsCommand};
ghost use Rattle.wast_run.specs.Stopping.{StopsReport};

use crate::commands::run_command;
use crate::stage::Stage;
use crate::word::{Word, command_line, total_line};
use crate::writing::write_line;
use std::alloc::Global;
use w2c_io::{Files, Sink};
use wast_script::{Command, Stop};

/// Runs commands in order, and writes the line of each as soon as its word is known, then the last line. Gives whether all are
/// ok.
pub(crate) fn report_commands<F: Files, O: Sink>(
    alloc: Global,
    commands: &[Command],
    steps: u64,
    files: &mut F,
    out: &mut O,
) -> Result<bool, Stop>
    requires named { AllByRecursion HasModuleName (seen_commands commands.now) }
    ensures told { F.told files.new ≡ F.told files.old }
    ensures current { F.current files.new ≡ F.current files.old }
    ensures reads { F.read_faults files.old ≤ F.read_faults files.new }
    ensures later { O.faults out.old ≤ O.faults out.new }
    ensures reads_kept { OnOk result (F.read_faults files.new ≡ F.read_faults files.old) }
    ensures lines_kept { OnOk result (O.faults out.new ≡ O.faults out.old) }
    ensures reported { IfOk result (λ all_ok. Tells (F.told files.old)
        (λ contents. HasReported contents steps (seen_commands commands.now) (O.told out.old) (O.told out.new) all_ok)) }
    ensures stop { IfErr result (λ stop. StopsReport (F.told files.old) steps (seen_commands commands.now)
        (F.read_faults files.old) (F.read_faults files.new) (F.fault_name files.new)
        (O.told out.old) (O.told out.new) (O.faults out.old) (O.faults out.new) (reason_of stop)) }
    ensures passed { IfOk result (λ all_ok. Passes (F.trace files.old) (F.trace files.new)
        (HasReportedOver steps (seen_commands commands.now) (O.told out.old) (O.told out.new) all_ok)) }
    ensures tried { IfErr result (λ stop. Passes (F.trace files.old) (F.trace files.new)
        (StopsIn steps (seen_commands commands.now) (O.told out.old) (O.told out.new) (reason_of stop))) }
{
    let ok = match tell_commands(alloc, commands, steps, files, out) {
        Ok(ok) => ok,
        Err(stop) => return Err(stop),
    };
    match write_line(total_line(alloc, commands.len(), ok), out) {
        Ok(()) => Ok(ok == commands.len()),
        Err(stop) => Err(stop),
    }
}

// Runs commands in order, and writes the line of each. Gives how many are ok.
fn tell_commands<F: Files, O: Sink>(
    alloc: Global,
    commands: &[Command],
    steps: u64,
    files: &mut F,
    out: &mut O,
) -> Result<usize, Stop>
    requires named { AllByRecursion HasModuleName (seen_commands commands.now) }
    ensures told { F.told files.new ≡ F.told files.old }
    ensures current { F.current files.new ≡ F.current files.old }
    ensures reads { F.read_faults files.old ≤ F.read_faults files.new }
    ensures later { O.faults out.old ≤ O.faults out.new }
    ensures reads_kept { OnOk result (F.read_faults files.new ≡ F.read_faults files.old) }
    ensures lines_kept { OnOk result (O.faults out.new ≡ O.faults out.old) }
    ensures behind { IfOk result (λ ok. Tells (F.told files.old)
        (λ contents. (at : Setting) × IsBehind contents steps (seen_commands commands.now) at (O.told out.old) (O.told out.new) ok)) }
    ensures stop { IfErr result (λ stop. StopsReport (F.told files.old) steps (seen_commands commands.now)
        (F.read_faults files.old) (F.read_faults files.new) (F.fault_name files.new)
        (O.told out.old) (O.told out.new) (O.faults out.old) (O.faults out.new) (reason_of stop)) }
    ensures passed { IfOk result (λ ok. Passes (F.trace files.old) (F.trace files.new) (λ events. (at : Setting)
        × IsBehindOver steps (seen_commands commands.now) at (O.told out.old) (O.told out.new) ok events)) }
    ensures tried { IfErr result (λ stop. Passes (F.trace files.old) (F.trace files.new)
        (StopsIn steps (seen_commands commands.now) (O.told out.old) (O.told out.new) (reason_of stop))) }
{
    let mut stage = Stage::new(alloc);
    let mut ok = 0;
    for (index, command) in commands.iter().enumerate() {
        match tell_command(alloc, &mut stage, index, command, steps, files, out) {
            Ok(word) => ok = counted(ok, word),
            Err(stop) => {
                drop(stage);
                return Err(stop);
            }
        }
    }
    drop(stage);
    Ok(ok)
}

// Runs a command with so many before it, and writes its line. Gives its word.
fn tell_command<'a, F: Files, O: Sink>(
    alloc: Global,
    stage: &mut Stage<'a>,
    index: usize,
    command: &'a Command,
    steps: u64,
    files: &mut F,
    out: &mut O,
) -> Result<Word, Stop>
    requires sound { IsSound stage.old }
    requires named { HasModuleName (seen_command command.now) }
    requires few { index < 2 ^ 63 }
    ensures told { F.told files.new ≡ F.told files.old }
    ensures current { F.current files.new ≡ F.current files.old }
    ensures reads { F.read_faults files.old ≤ F.read_faults files.new }
    ensures later { O.faults out.old ≤ O.faults out.new }
    ensures reads_kept { OnOk result (F.read_faults files.new ≡ F.read_faults files.old) }
    ensures lines_kept { OnOk result (O.faults out.new ≡ O.faults out.old) }
    ensures sound { OnOk result (IsSound stage.new) }
    ensures tells { IfOk result (λ word. Tells (F.told files.old)
        (λ contents. TellsCommand contents steps index (setting_of stage.old) (seen_command command.now) word (setting_of stage.new)
        (O.told out.old) (O.told out.new))) }
    ensures stop { IfErr result (λ stop. StopsTelling (F.told files.old) steps index (setting_of stage.old) (seen_command command.now)
        (F.read_faults files.old) (F.read_faults files.new) (F.fault_name files.new)
        (O.told out.old) (O.told out.new) (O.faults out.old) (O.faults out.new) (reason_of stop)) }
    ensures passed { IfOk result (λ word. Passes (F.trace files.old) (F.trace files.new)
        (TellsOver steps index (setting_of stage.old) (seen_command command.now) word (setting_of stage.new)
        (O.told out.old) (O.told out.new))) }
    ensures tried { IfErr result (λ stop. Passes (F.trace files.old) (F.trace files.new)
        (StopsTellingOver steps index (setting_of stage.old) (seen_command command.now)
        (O.told out.old) (O.told out.new) (reason_of stop))) }
{
    let word = match run_command(alloc, stage, command, steps, files) {
        Ok(word) => word,
        Err(stop) => return Err(stop),
    };
    match write_line(command_line(alloc, index + 1, word), out) {
        Ok(()) => Ok(word),
        Err(stop) => Err(stop),
    }
}

// How many are ok with this one.
fn counted(ok: usize, word: Word) -> usize
    requires { ok < 2 ^ 63 }
    ensures { result ≡ (if is_ok word then suc ok else ok) }
{
    if word.is_ok() {
        return ok + 1;
    }
    ok
}
