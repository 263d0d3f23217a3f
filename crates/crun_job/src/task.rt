// From a line and what its files hold to linked units and calls.
ghost use Rattle.std.specs.Prelude.{◌≡◌, length, map, IfOk, IfErr};
ghost use Rattle.w2c_files.specs.Words.{names_of};
ghost use Rattle.c_tree.specs.View.{unit_of};
ghost use Rattle.c_link.specs.Offers.{c_symbols};
ghost use Rattle.crun_words.specs.Seen.{seen_run};
ghost use Rattle.crun_job.specs.Job.{IsTextsJob};
ghost use Rattle.crun_job.specs.Texts.{AreShort};
ghost use Rattle.crun_job.specs.Refusals.{IsWithin};
ghost use Rattle.crun_job.specs.Seen.{reason_of, AllFit};
ghost use Rattle.crun_job.specs.Stopping.{job_of, StopsTexts, StopsUnit};

use crate::calls_file::{NamedCall, read_calls};
use crate::linking::link_units;
use crate::refusal::{CallsRefusal, UnitsRefusal};
use crate::stop::Stop;
use c_link::{HostSymbol, Linked};
use crun_words::{Inputs, RunLine};
use std::alloc::Global;
use w2c_files::name_at;

/// Linked units, the calls of their functions, how many statements are run in all, and whether the
/// state is shown behind the run.
#[derive(Drop)]
pub struct Task {
    pub linked: Linked,
    pub calls: Vec<NamedCall>,
    pub steps: u64,
    pub shows_state: bool,
}

impl Task {
    /// What a line asks for, by the bytes of its files: the units are read and checked in the order
    /// of the words, linked with the symbols of hosts, and then the lines of the calls file are read.
    /// The first refusal ends it.
    pub fn of_inputs(
        alloc: Global,
        line: &RunLine<'_>,
        inputs: &Inputs,
        hosts: &[HostSymbol],
    ) -> Result<Task, Stop>
        requires many { length inputs.now.units.items ≡ length line.now.units.items }
        requires short { AreShort inputs.now.units.items }
        ensures task { IfOk result (λ task. IsTextsJob (seen_run line.now) (c_symbols hosts.now) inputs.now.units.items inputs.now.calls (job_of task)) }
        ensures hosts { IfOk result (λ task. task.linked.1 ≡ hosts.now) }
        ensures fit { IfOk result (λ task. AllFit (map unit_of task.linked.0) task.calls.items) }
        ensures stop { IfErr result (λ stop. StopsTexts (seen_run line.now) (c_symbols hosts.now) inputs.now.units.items inputs.now.calls (reason_of stop)) }
    {
        let linked = match link_units(alloc, inputs.units.as_slice(), hosts) {
            Ok(linked) => linked,
            Err(refusal) => return Err(stop_at(alloc, line.units.as_slice(), refusal)),
        };
        let calls = match read_calls(alloc, &linked, inputs.calls.as_slice()) {
            Ok(calls) => calls,
            Err(CallsRefusal::Line(number)) => return Err(Stop::CallsLine(number)),
            Err(CallsRefusal::Memory) => return Err(Stop::Memory),
        };
        Ok(Task {
            linked,
            calls,
            steps: line.steps,
            shows_state: line.shows_state,
        })
    }
}

/// Why the program stops where a unit is refused: the refusal, by the name of the unit's file. Want of memory for the name is want of memory.
pub fn stop_at(alloc: Global, names: &[&str], refusal: UnitsRefusal) -> Stop
    requires { IsWithin (length names.now) refusal }
    ensures { StopsUnit (names_of names.now) refusal (reason_of result) }
{
    match refusal {
        UnitsRefusal::Unit(number, why) => {
            match String::from_str(alloc, name_at(names, number)) {
                Ok(name) => Stop::Refused(name, why),
                Err(_) => Stop::Memory,
            }
        }
        UnitsRefusal::Memory => Stop::Memory,
    }
}
