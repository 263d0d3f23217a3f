// One command.
ghost use Rattle.std.specs.Prelude.{◌≡◌, ◌≤◌, ℕ, Option, IfErr, IfOk, OnOk};
ghost use Rattle.w2c_io.specs.Passed.{Passes};
ghost use Rattle.w2c_io.specs.Telling.{Tells};
ghost use Rattle.wasm_valid.specs.FileVerdict.{FileVerdict};
ghost use Rattle.wast_script.specs.Seen.{reason_of, seen_command};
ghost use Rattle.wast_run.specs.Report.{Comes, IsFile, IsTimely, holds, is_invalid, is_malformed};
ghost use Rattle.wast_run.specs.Parts.{file_of};
ghost use Rattle.wast_run.specs.Stages.{setting_of, HasModuleName, IsSound};
ghost use Rattle.wast_run.specs.Passing.{ComesOver};
ghost use Rattle.wast_run.specs.Reading.{JudgesSo, StopsOver, StopsRead};
ghost use Rattle.wast_run.specs.Stopping.{StopsCommand, StopsFile};

use crate::judging::{Judged, judge_file};
use crate::stage::{Stage, holds};
use crate::word::Word;
use std::alloc::Global;
use w2c_base::Memory;
use w2c_io::Files;
use wast_script::{Command, Stop};

/// Does what a command says, and gives its word. An assertion runs at most so many statements.
pub(crate) fn run_command<'a, F: Files>(
    alloc: Global,
    stage: &mut Stage<'a>,
    command: &'a Command,
    steps: u64,
    files: &mut F,
) -> Result<Word, Stop>
    requires sound { IsSound stage.old }
    requires named { HasModuleName (seen_command command.now) }
    ensures told { F.told files.new ≡ F.told files.old }
    ensures current { F.current files.new ≡ F.current files.old }
    ensures later { F.read_faults files.old ≤ F.read_faults files.new }
    ensures kept { OnOk result (F.read_faults files.new ≡ F.read_faults files.old) }
    ensures comes { IfOk result (λ word. Tells (F.told files.old)
        (λ contents. Comes contents steps (setting_of stage.old) (seen_command command.now) word (setting_of stage.new))) }
    ensures timely { IfOk result (IsTimely steps (setting_of stage.old) (seen_command command.now)) }
    ensures sound { OnOk result (IsSound stage.new) }
    ensures stop { IfErr result (λ stop. StopsCommand (F.told files.old) (file_of (seen_command command.now))
        (F.read_faults files.old) (F.read_faults files.new) (F.fault_name files.new) (reason_of stop)) }
    ensures passed { IfOk result (λ word. Passes (F.trace files.old) (F.trace files.new)
        (λ events. ComesOver events steps (setting_of stage.old) (seen_command command.now) word (setting_of stage.new))) }
    ensures tried { IfErr result (λ stop. Passes (F.trace files.old) (F.trace files.new)
        (StopsOver (file_of (seen_command command.now)) (reason_of stop))) }
{
    match command {
        Command::Module(file) => match stage.join_file(alloc, file, files) {
            Ok(word) => Ok(word),
            Err(stop) => Err(stop),
        },
        Command::Call(call) => match stage.keep(call) {
            Ok(word) => Ok(word),
            Err(Memory) => Err(Stop::Memory),
        },
        Command::AssertReturn(call, expected) => {
            match stage.assert_return(alloc, call, *expected, steps) {
                Ok(word) => Ok(word),
                Err(Memory) => Err(Stop::Memory),
            }
        }
        Command::AssertTrap(call, cause) => match stage.assert_trap(alloc, call, *cause, steps) {
            Ok(word) => Ok(word),
            Err(Memory) => Err(Stop::Memory),
        },
        Command::AssertInvalid(file) => match assert_invalid(alloc, file.as_str(), files) {
            Ok(word) => Ok(word),
            Err(stop) => Err(stop),
        },
        Command::AssertMalformed(file) => match assert_malformed(alloc, file.as_str(), files) {
            Ok(word) => Ok(word),
            Err(stop) => Err(stop),
        },
    }
}

// Whether a file is a module that is not valid.
#[tactic(auto, using(crate::proofs::Comings::invalid_word, crate::proofs::Passing::invalid_over))]
fn assert_invalid<F: Files>(alloc: Global, file: &str, files: &mut F) -> Result<Word, Stop>
    ensures told { F.told files.new ≡ F.told files.old }
    ensures current { F.current files.new ≡ F.current files.old }
    ensures later { F.read_faults files.old ≤ F.read_faults files.new }
    ensures kept { OnOk result (F.read_faults files.new ≡ F.read_faults files.old) }
    ensures word { IfOk result (λ word. Tells (F.told files.old)
        (λ contents. (verdict : Option FileVerdict) × IsFile contents file.now verdict × (word ≡ holds (is_invalid verdict)))) }
    ensures stop { IfErr result (λ stop. StopsFile (F.told files.old) file.now
        (F.read_faults files.old) (F.read_faults files.new) (F.fault_name files.new) (reason_of stop)) }
    ensures passed { IfOk result (λ word. Passes (F.trace files.old) (F.trace files.new)
        (JudgesSo (λ verdict. holds (is_invalid verdict)) file.now word)) }
    ensures tried { IfErr result (λ stop. Passes (F.trace files.old) (F.trace files.new) (StopsRead file.now (reason_of stop))) }
{
    match judge_file(alloc, file, files) {
        Ok(judged) => {
            let is_invalid = judged.is_invalid();
            drop(judged);
            Ok(holds(is_invalid))
        }
        Err(stop) => Err(stop),
    }
}

// Whether a file is no module by the binary format.
#[tactic(auto, using(crate::proofs::Comings::malformed_word, crate::proofs::Passing::malformed_over))]
fn assert_malformed<F: Files>(alloc: Global, file: &str, files: &mut F) -> Result<Word, Stop>
    ensures told { F.told files.new ≡ F.told files.old }
    ensures current { F.current files.new ≡ F.current files.old }
    ensures later { F.read_faults files.old ≤ F.read_faults files.new }
    ensures kept { OnOk result (F.read_faults files.new ≡ F.read_faults files.old) }
    ensures word { IfOk result (λ word. Tells (F.told files.old)
        (λ contents. (verdict : Option FileVerdict) × IsFile contents file.now verdict × (word ≡ holds (is_malformed verdict)))) }
    ensures stop { IfErr result (λ stop. StopsFile (F.told files.old) file.now
        (F.read_faults files.old) (F.read_faults files.new) (F.fault_name files.new) (reason_of stop)) }
    ensures passed { IfOk result (λ word. Passes (F.trace files.old) (F.trace files.new)
        (JudgesSo (λ verdict. holds (is_malformed verdict)) file.now word)) }
    ensures tried { IfErr result (λ stop. Passes (F.trace files.old) (F.trace files.new) (StopsRead file.now (reason_of stop))) }
{
    match judge_file(alloc, file, files) {
        Ok(judged) => {
            let is_malformed = judged.is_malformed();
            drop(judged);
            Ok(holds(is_malformed))
        }
        Err(stop) => Err(stop),
    }
}
