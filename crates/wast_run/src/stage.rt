// What stands before a command: the modules that joined, and the calls that are kept; and what a command makes of it.
ghost use Rattle.std.specs.Prelude.{◌≡◌, ◌≤◌, length, string_bytes, Some, true, false, IfErr, IfOk, OnOk};
ghost use Rattle.w2c_io.specs.Passed.{Passes};
ghost use Rattle.w2c_io.specs.Telling.{Tells};
ghost use Rattle.wasm_meaning.specs.Run.{Fits};
ghost use Rattle.wast_script.specs.Seen.{reason_of, seen_call, seen_module};
ghost use Rattle.wast_run.specs.Report.{at_first, holds, listed, set_at, Asserts, EndsWith, IsTimely, Joins, Keeps, TrapsIn};
ghost use Rattle.wast_script.specs.Commands.{AssertReturn, AssertTrap};
ghost use Rattle.wast_run.specs.Stages.{setting_of, ComesToModule, HasRun, IsEndWord, IsSound, IsTrapWord};
ghost use Rattle.wast_run.specs.Reading.{ModuleComesOver, StopsRead};
ghost use Rattle.wast_run.specs.Stopping.{StopsFile};

use crate::judging::{Judged, judge_file};
use crate::linked_modules::LinkedModules;
use crate::runs::Came;
use crate::word::Word;
use std::alloc::Global;
use w2c_base::{Bytes, Memory, TrapKind, Value};
use w2c_io::Files;
use wasm_typing::ValidModule;
use wast_script::{Call, ModuleFile, Stop};

/// The modules that joined, in order, and the calls that are kept.
#[derive(Drop)]
pub(crate) struct Stage<'a> {
    joined: LinkedModules,
    kept: Vec<&'a Call>,
}

impl<'a> Stage<'a> {
    pub(crate) fn new(alloc: Global) -> Stage<'a>
        ensures first { setting_of result ≡ at_first }
        ensures sound { IsSound result }
    {
        Stage {
            joined: LinkedModules::new(alloc),
            kept: Vec::new(alloc),
        }
    }

    /// The module of a file joins, where it is accepted and there is a linked set with it.
    #[tactic(auto, using(crate::proofs::Comings::module_refused, crate::proofs::Passing::refused_over))]
    pub(crate) fn join_file<F: Files>(
        &mut self,
        alloc: Global,
        file: &ModuleFile,
        files: &mut F,
    ) -> Result<Word, Stop>
        requires sound { IsSound self.old }
        requires named { (1 ≤ length (string_bytes file.now.name)) × (length (string_bytes file.now.name) ≤ 1024) }
        ensures told { F.told files.new ≡ F.told files.old }
        ensures current { F.current files.new ≡ F.current files.old }
        ensures later { F.read_faults files.old ≤ F.read_faults files.new }
        ensures kept { OnOk result (F.read_faults files.new ≡ F.read_faults files.old) }
        ensures comes { IfOk result (λ word. Tells (F.told files.old)
            (λ contents. ComesToModule contents self.old (seen_module file.now) word self.new)) }
        ensures sound { OnOk result (IsSound self.new) }
        ensures stop { IfErr result (λ stop. StopsFile (F.told files.old) (string_bytes file.now.filename)
            (F.read_faults files.old) (F.read_faults files.new) (F.fault_name files.new) (reason_of stop)) }
        ensures passed { IfOk result (λ word. Passes (F.trace files.old) (F.trace files.new)
            (ModuleComesOver self.old (seen_module file.now) word self.new)) }
        ensures tried { IfErr result (λ stop. Passes (F.trace files.old) (F.trace files.new)
            (StopsRead (string_bytes file.now.filename) (reason_of stop))) }
    {
        match judge_file(alloc, file.filename.as_str(), files) {
            Ok(Judged::Accepted(module)) => match self.join(alloc, file.name.as_bytes(), module) {
                Ok(word) => Ok(word),
                Err(Memory) => Err(Stop::Memory),
            },
            Ok(Judged::Invalid) => Ok(Word::Refused),
            Ok(Judged::Malformed) => Ok(Word::Refused),
            Ok(Judged::Beyond) => Ok(Word::Refused),
            Err(stop) => Err(stop),
        }
    }

    fn join(&mut self, alloc: Global, name: &[u8], module: ValidModule) -> Result<Word, Memory>
        requires sound { IsSound self.old }
        requires named { (1 ≤ length name.now) × (length name.now ≤ 1024) }
        ensures joins { IfOk result (λ word. Joins (setting_of self.old) name.now (Some «module») word (setting_of self.new)) }
        ensures sound { OnOk result (IsSound self.new) }
    {
        let mut owned = Bytes::new(alloc);
        match owned.extend(name) {
            Ok(()) => {}
            Err(Memory) => {
                drop(module);
                return Err(Memory);
            }
        }
        match self.joined.join(alloc, owned, module) {
            Ok(true) => Ok(Word::Ok),
            Ok(false) => Ok(Word::Unlinked),
            Err(Memory) => Err(Memory),
        }
    }

    /// The call is kept, where it fits.
    #[tactic(auto, using(crate::proofs::Comings::keeps_call, crate::proofs::Comings::keeps_not, crate::proofs::StageLaws::sound_kept))]
    pub(crate) fn keep(&mut self, call: &'a Call) -> Result<Word, Memory>
        requires sound { IsSound self.old }
        ensures keeps { IfOk result (λ word. Keeps (setting_of self.old) (seen_call call.now) word (setting_of self.new)) }
        ensures sound { OnOk result (IsSound self.new) }
    {
        if !self.fits(call) {
            return Ok(Word::NoSuchCall);
        }
        self.kept.push(call)?;
        Ok(Word::Ok)
    }

    /// Whether the call, behind those that are kept, ends with this value, or with none.
    #[tactic(auto, using(crate::proofs::Assertions::asserts_end, crate::proofs::Assertions::timely_end, crate::proofs::Comings::asserts_none, crate::proofs::Comings::timely_end_none))]
    pub(crate) fn assert_return(
        &mut self,
        alloc: Global,
        call: &Call,
        expected: Option<Value>,
        steps: u64,
    ) -> Result<Word, Memory>
        requires sound { IsSound self.old }
        ensures asserts { IfOk result (λ word. Asserts (setting_of self.old) (seen_call call.now) steps
            (EndsWith expected) word (setting_of self.new)) }
        ensures timely { IfOk result (λ word. IsTimely steps (setting_of self.old) (AssertReturn (seen_call call.now) expected) word) }
        ensures sound { OnOk result (IsSound self.new) }
    {
        match self.run(alloc, call, steps) {
            Ok(Some(came)) => Ok(word_of_end(came, expected)),
            Ok(None) => Ok(Word::NoSuchCall),
            Err(Memory) => Err(Memory),
        }
    }

    /// Whether the call, behind those that are kept, traps for this cause.
    #[tactic(auto, using(crate::proofs::Assertions::timely_trap, crate::proofs::Comings::asserts_none, crate::proofs::Comings::timely_trap_none))]
    pub(crate) fn assert_trap(
        &mut self,
        alloc: Global,
        call: &Call,
        cause: TrapKind,
        steps: u64,
    ) -> Result<Word, Memory>
        requires sound { IsSound self.old }
        ensures asserts { IfOk result (λ word. Asserts (setting_of self.old) (seen_call call.now) steps
            (TrapsIn (length (setting_of self.old).kept) cause) word (setting_of self.new)) }
        ensures timely { IfOk result (λ word. IsTimely steps (setting_of self.old) (AssertTrap (seen_call call.now) cause) word) }
        ensures sound { OnOk result (IsSound self.new) }
    {
        match self.run(alloc, call, steps) {
            Ok(Some(came)) => Ok(word_of_trap(came, cause)),
            Ok(None) => Ok(Word::NoSuchCall),
            Err(Memory) => Err(Memory),
        }
    }

    // What the run of the calls that are kept and of this one comes to; none where it does not fit.
    #[tactic(auto, using(w2c_base::proofs::OfEach::all_push))]
    fn run(&mut self, alloc: Global, call: &Call, steps: u64) -> Result<Option<Came>, Memory>
        requires sound { IsSound self.old }
        ensures came { IfOk result (HasRun self.old (seen_call call.now) steps) }
        ensures same { OnOk result (setting_of self.new ≡ setting_of self.old) }
        ensures sound { OnOk result (IsSound self.new) }
    {
        if !self.fits(call) {
            return Ok(None);
        }
        match self
            .joined
            .run_last(alloc, self.kept.as_slice(), call, steps)
        {
            Ok(came) => Ok(Some(came)),
            Err(Memory) => Err(Memory),
        }
    }

    fn fits(&self, call: &Call) -> bool
        ensures fits { result ≡ true → Fits (set_at (setting_of self.now)) (listed (seen_call call.now)) }
        ensures misfits { result ≡ false → Fits (set_at (setting_of self.now)) (listed (seen_call call.now)) → ⊥ }
    {
        self.joined.fits(
            call.module_name.as_bytes(),
            call.field_name.as_bytes(),
            call.args.as_slice(),
        )
    }
}

// What is said of a run that is to end with this value, or with none.
fn word_of_end(came: Came, expected: Option<Value>) -> Word
    ensures { IsEndWord expected came result }
{
    match came {
        Came::Ended(value) => holds(value == expected),
        Came::Trapped(cause) => {
            let _ = cause;
            Word::Failed
        }
        Came::TrappedBefore => Word::Failed,
        Came::OutOfSteps => Word::OutOfSteps,
    }
}

// What is said of a run that is to trap in its last call for this cause.
fn word_of_trap(came: Came, cause: TrapKind) -> Word
    ensures { IsTrapWord cause came result }
{
    match came {
        Came::Ended(value) => {
            let _ = value;
            Word::Failed
        }
        Came::Trapped(other) => holds(other == cause),
        Came::TrappedBefore => Word::Failed,
        Came::OutOfSteps => Word::OutOfSteps,
    }
}

/// What is said of an assertion that holds or not.
pub(crate) fn holds(is_right: bool) -> Word
    ensures { result ≡ holds is_right }
{
    if is_right {
        return Word::Ok;
    }
    Word::Failed
}
