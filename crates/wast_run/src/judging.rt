// The verdict on a file that a command names.
ghost use Rattle.std.specs.Prelude.{◌≡◌, ◌≤◌, length, Option, Some, IfErr, IfOk, OnOk};
ghost use Rattle.w2c_io.specs.Passed.{Passes};
ghost use Rattle.w2c_io.specs.Telling.{Tells};
ghost use Rattle.wasm_valid.specs.FileVerdict.{FileVerdict, IsVerdictOn};
ghost use Rattle.wast_script.specs.Seen.{reason_of};
ghost use Rattle.wast_run.specs.Report.{IsFile};
ghost use Rattle.wast_run.specs.Judging.{says_invalid, says_malformed, Agrees};
ghost use Rattle.wast_run.specs.Reading.{JudgesFile, StopsRead};
ghost use Rattle.wast_run.specs.Stopping.{StopsFile};

use crate::stops::unread;
use std::alloc::Global;
use w2c_base::{MODULE_BYTES, Memory};
use w2c_io::{Files, ReadAnswer};
use w2c_sim::{Refusal, accept};
use wasm_typing::ValidModule;
use wast_script::Stop;

/// What is said of a file, as far as commands ask.
#[derive(Drop)]
pub(crate) enum Judged {
    /// It is accepted, and this is its module.
    Accepted(ValidModule),
    /// It is a module that is not valid.
    Invalid,
    /// It is no module by the binary format.
    Malformed,
    /// It is too long, or past what is read.
    Beyond,
}

impl Judged {
    pub(crate) fn is_invalid(&self) -> bool
        ensures { result ≡ says_invalid self.now }
    {
        match self {
            Judged::Accepted(module) => {
                let _ = module;
                false
            }
            Judged::Invalid => true,
            Judged::Malformed => false,
            Judged::Beyond => false,
        }
    }

    pub(crate) fn is_malformed(&self) -> bool
        ensures { result ≡ says_malformed self.now }
    {
        match self {
            Judged::Accepted(module) => {
                let _ = module;
                false
            }
            Judged::Invalid => false,
            Judged::Malformed => true,
            Judged::Beyond => false,
        }
    }
}

/// Reads a file and judges it.
pub(crate) fn judge_file<F: Files>(alloc: Global, name: &str, files: &mut F) -> Result<Judged, Stop>
    ensures told { F.told files.new ≡ F.told files.old }
    ensures current { F.current files.new ≡ F.current files.old }
    ensures later { F.read_faults files.old ≤ F.read_faults files.new }
    ensures kept { OnOk result (F.read_faults files.new ≡ F.read_faults files.old) }
    ensures judged { IfOk result (λ judged. Tells (F.told files.old)
        (λ contents. (verdict : Option FileVerdict) × IsFile contents name.now verdict × Agrees judged verdict)) }
    ensures stop { IfErr result (λ stop. StopsFile (F.told files.old) name.now
        (F.read_faults files.old) (F.read_faults files.new) (F.fault_name files.new) (reason_of stop)) }
    ensures passed { IfOk result (λ judged. Passes (F.trace files.old) (F.trace files.new) (JudgesFile name.now judged)) }
    ensures tried { IfErr result (λ stop. Passes (F.trace files.old) (F.trace files.new) (StopsRead name.now (reason_of stop))) }
{
    match files.read(alloc, name, MODULE_BYTES) {
        Ok(bytes) => match judge(alloc, bytes.as_slice()) {
            Ok(judged) => Ok(judged),
            Err(Memory) => Err(Stop::Memory),
        },
        Err(ReadAnswer::Absent) => Err(unread(alloc, name)),
        Err(ReadAnswer::Failed) => Err(unread(alloc, name)),
        Err(ReadAnswer::TooLong) => Ok(Judged::Beyond),
        Err(ReadAnswer::Memory) => Err(Stop::Memory),
    }
}

#[tactic(auto, using(crate::proofs::Comings::said_accepted))]
fn judge(alloc: Global, bytes: &[u8]) -> Result<Judged, Memory>
    requires { length bytes.now ≤ 8388608 }
    ensures { IfOk result (λ judged. (verdict : FileVerdict) × IsVerdictOn bytes.now verdict × Agrees judged (Some verdict)) }
{
    match accept(alloc, bytes) {
        Ok(module) => Ok(Judged::Accepted(module)),
        Err(Refusal::Malformed(place, cause)) => {
            let _ = place;
            let _ = cause;
            Ok(Judged::Malformed)
        }
        Err(Refusal::Float(place)) => {
            let _ = place;
            Ok(Judged::Beyond)
        }
        Err(Refusal::Limit(place, which)) => {
            let _ = place;
            let _ = which;
            Ok(Judged::Beyond)
        }
        Err(Refusal::Invalid(place, cause)) => {
            let _ = place;
            let _ = cause;
            Ok(Judged::Invalid)
        }
        Err(Refusal::Memory) => Err(Memory),
    }
}
