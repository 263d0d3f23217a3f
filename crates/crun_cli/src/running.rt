// The run form: the files are read, then the units run with the hosts that were handed in, or with hosts that reply again what a
// journal says.
ghost use Rattle.std.specs.Prelude.{◌≡◌, ◌⊎◌, ◌≤◌, List, ℕ, None, Some, IfErr, IfOk, vec_len, OnOk};
ghost use Rattle.w2c_io.specs.Contents.{Name, holding};
ghost use Rattle.w2c_io.specs.Passed.{Passes};
ghost use Rattle.w2c_io.specs.Telling.{Tells};
ghost use Rattle.crun_words.specs.CommandLine.{line_of, runs};
ghost use Rattle.crun_words.specs.Seen.{seen_run};
ghost use Rattle.crun_job.specs.Seen.{reason_of};
ghost use Rattle.crun_units.specs.Trying.{stopped_by};
ghost use Rattle.crun_cli.specs.Ends.{AreOffered, IsRunStatus, Ran};
ghost use Rattle.crun_cli.specs.Outside.{outside};
ghost use Rattle.crun_cli.specs.Passing.{PassesRun};
ghost use Rattle.crun_cli.specs.Stopping.{StopsWork};
ghost use Rattle.crun_cli.specs.Trying.{ended_by};

use crate::recording::run_and_record;
use crate::replaying::replayed_hosts;
use c_hosts::HostModule;
use crun_job::{Stop, stop_of};
use crun_words::{RunLine, read_inputs};
use std::alloc::Global;
use w2c_io::{Files, Sink};

/// Does what a line of the run form asks for: reads its files, then runs the units with the hosts, or with those of the journal
/// that is replayed. Gives the status of the run.
pub fn run<F: Files, O: Sink, H: HostModule>(
    alloc: Global,
    line: &RunLine<'_>,
    hosts: Vec<H>,
    files: &mut F,
    out: &mut O,
) -> Result<u8, Stop>
    requires offered { AreOffered H.HostModule hosts.items }
    requires few { vec_len line.now.units ≤ 16 }
    ensures ran { IfOk result (λ status. (words : List Name) → line_of words ≡ Some (runs (seen_run line.now))
        → Tells (F.told files.old) (λ m. Ran H.HostModule hosts.items words m
        (outside F.Files O.Sink files.old out.old) (outside F.Files O.Sink files.new out.new) status)) }
    ensures status { IfOk result IsRunStatus }
    ensures stop { IfErr result (λ stop. (words : List Name) → line_of words ≡ Some (runs (seen_run line.now))
        → StopsWork H.HostModule hosts.items words (outside F.Files O.Sink files.old out.old) (outside F.Files O.Sink files.new out.new)
        (reason_of stop)) }
    ensures reads { F.read_faults files.old ≤ F.read_faults files.new }
    ensures writes { F.write_faults files.old ≤ F.write_faults files.new }
    ensures reads_kept { OnOk result (F.read_faults files.new ≡ F.read_faults files.old) }
    ensures writes_kept { OnOk result (F.write_faults files.new ≡ F.write_faults files.old) }
    ensures later { O.faults out.old ≤ O.faults out.new }
    ensures lines_kept { OnOk result (O.faults out.new ≡ O.faults out.old) }
    ensures kept { (F.told files.new ≡ F.told files.old) ⊎ ((file : Name) × (text : List ℕ) × ((seen_run line.now).journal ≡ Some file)
        × (F.told files.new ≡ holding (F.told files.old) file text)) }
    ensures current { (seen_run line.now).journal ≡ None → F.current files.new ≡ F.current files.old }
    // What passed through the files, those of the system too.
    ensures passed { Passes (F.trace files.old) (F.trace files.new) (PassesRun H.HostModule hosts.items (seen_run line.now)
        (O.told out.old) (O.told out.new) (ended_by result) (stopped_by result)) }
{
    let inputs = match read_inputs(alloc, line.units.as_slice(), line.calls, files) {
        Ok(inputs) => inputs,
        Err(stop) => return Err(stop_of(stop)),
    };
    match line.replayed {
        None => match run_and_record(alloc, line, inputs, hosts, files, out) {
            Ok(status) => Ok(status),
            Err(stop) => Err(stop),
        },
        Some(name) => {
            let replays = match replayed_hosts(alloc, name, files) {
                Ok(replays) => replays,
                Err(stop) => return Err(stop),
            };
            match run_and_record(alloc, line, inputs, replays, files, out) {
                Ok(status) => Ok(status),
                Err(stop) => Err(stop),
            }
        }
    }
}
