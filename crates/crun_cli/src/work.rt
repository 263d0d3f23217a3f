// The work that a command line asks for.
ghost use Rattle.std.specs.Prelude.{◌≡◌, ◌⊎◌, ◌≤◌, ℕ, List, OnOk, IfErr, IfOk, vec_len};
ghost use Rattle.w2c_files.specs.Words.{texts};
ghost use Rattle.w2c_io.specs.Contents.{holding};
ghost use Rattle.w2c_io.specs.Passed.{Passes};
ghost use Rattle.w2c_io.specs.Telling.{Tells};
ghost use Rattle.c_tree.specs.Tree.{Item};
ghost use Rattle.c_tree.specs.Spelled.{CSpells};
ghost use Rattle.c_print.specs.Print.{print_of};
ghost use Rattle.c_hosts.specs.Asking.{hosts_of};
ghost use Rattle.crun_words.specs.CommandLine.{line_of};
ghost use Rattle.crun_words.specs.Seen.{seen_merge};
ghost use Rattle.crun_job.specs.Job.{Write};
ghost use Rattle.crun_job.specs.Seen.{reason_of};
ghost use Rattle.crun_units.specs.Jobs.{IsMerged, IsMergeJob};
ghost use Rattle.crun_units.specs.Files.{files_seen};
ghost use Rattle.crun_units.specs.Passing.{PassesUnits};
ghost use Rattle.crun_units.specs.Stopping.{StopsWrite};
ghost use Rattle.crun_units.specs.Trying.{done_by, stopped_by};
ghost use Rattle.crun_cli.specs.Ends.{AreOffered, Finished, IsKept, IsRunStatus};
ghost use Rattle.crun_cli.specs.Files.{HasReading, WritesNothing};
ghost use Rattle.crun_cli.specs.Jobs.{symbols_of};
ghost use Rattle.crun_cli.specs.Outside.{outside};
ghost use Rattle.crun_cli.specs.Passing.{PassesWords};
ghost use Rattle.crun_cli.specs.Stopping.{StopsWork};
ghost use Rattle.crun_cli.specs.Trying.{ended_by};

use crate::offering::offered_symbols;
use crate::running::run;
use c_hosts::HostModule;
use crun_job::Stop;
use crun_units::{merge_units, trim_unit};
use crun_words::{Line, MergeLine, read_words};
use program_words::NoLine;
use std::alloc::Global;
use w2c_base::Memory;
use w2c_io::{Files, Sink};

/// Reads the words and does what they ask for. Gives the status of the run, or 0 for a unit that is written.
pub fn work<F: Files, O: Sink, H: HostModule>(
    alloc: Global,
    words: &[String],
    files: &mut F,
    out: &mut O,
    hosts: Vec<H>,
) -> Result<u8, Stop>
    requires offered { AreOffered H.HostModule hosts.items }
    ensures finished { IfOk result (λ status. Tells (F.told files.old) (λ m. Finished H.HostModule hosts.items (texts words.now) m
        (outside F.Files O.Sink files.old out.old) (outside F.Files O.Sink files.new out.new) status)) }
    ensures status { IfOk result IsRunStatus }
    ensures line { OnOk result (HasReading (texts words.now)) }
    ensures stop { IfErr result (λ stop. StopsWork H.HostModule hosts.items (texts words.now)
        (outside F.Files O.Sink files.old out.old) (outside F.Files O.Sink files.new out.new) (reason_of stop)) }
    ensures reads { F.read_faults files.old ≤ F.read_faults files.new }
    ensures writes { F.write_faults files.old ≤ F.write_faults files.new }
    ensures reads_kept { OnOk result (F.read_faults files.new ≡ F.read_faults files.old) }
    ensures writes_kept { OnOk result (F.write_faults files.new ≡ F.write_faults files.old) }
    ensures later { O.faults out.old ≤ O.faults out.new }
    ensures lines_kept { OnOk result (O.faults out.new ≡ O.faults out.old) }
    ensures kept { IsKept (texts words.now) (outside F.Files O.Sink files.old out.old) (outside F.Files O.Sink files.new out.new) }
    ensures current { WritesNothing (line_of (texts words.now)) → F.current files.new ≡ F.current files.old }
    // What passed through the files, those of the system too.
    ensures passed { Passes (F.trace files.old) (F.trace files.new) (PassesWords H.HostModule hosts.items (texts words.now)
        (O.told out.old) (O.told out.new) (ended_by result) (stopped_by result)) }
{
    let line = match read_words(alloc, words) {
        Ok(line) => line,
        Err(NoLine::Usage) => return Err(Stop::Usage),
        Err(NoLine::Memory) => return Err(Stop::Memory),
    };
    match line {
        Line::Run(line) => match run(alloc, &line, hosts, files, out) {
            Ok(status) => Ok(status),
            Err(stop) => Err(stop),
        },
        Line::Merge(line) => match merge(alloc, &line, hosts.as_slice(), files) {
            Ok(()) => Ok(0),
            Err(stop) => Err(stop),
        },
        Line::Trim(line) => match trim_unit(alloc, &line, files) {
            Ok(()) => Ok(0),
            Err(stop) => Err(stop),
        },
    }
}

// The units of a line, linked with the symbols of the hosts, are written as one.
fn merge<F: Files, H: HostModule>(
    alloc: Global,
    line: &MergeLine<'_>,
    hosts: &[H],
    files: &mut F,
) -> Result<(), Stop>
    requires offered { AreOffered H.HostModule hosts.now }
    requires few { vec_len line.now.units ≤ 16 }
    ensures wrote { OnOk result (Tells (F.told files.old) (λ m. (unit : List Item)
        × IsMergeJob (seen_merge line.now) (symbols_of (hosts_of H.HostModule hosts.now)) m (Write (seen_merge line.now).output unit)
        × CSpells unit (print_of unit)
        × (F.told files.new ≡ holding (F.told files.old) (seen_merge line.now).output (print_of unit)))) }
    ensures stop { IfErr result (λ stop. StopsWrite (IsMergeJob (seen_merge line.now) (symbols_of (hosts_of H.HostModule hosts.now)))
        (seen_merge line.now).units (seen_merge line.now).output (files_seen F.Files files.old) (files_seen F.Files files.new) (reason_of stop)) }
    ensures reads { F.read_faults files.old ≤ F.read_faults files.new }
    ensures writes { F.write_faults files.old ≤ F.write_faults files.new }
    ensures reads_kept { OnOk result (F.read_faults files.new ≡ F.read_faults files.old) }
    ensures writes_kept { OnOk result (F.write_faults files.new ≡ F.write_faults files.old) }
    ensures kept { (F.told files.new ≡ F.told files.old)
        ⊎ ((text : List ℕ) × (F.told files.new ≡ holding (F.told files.old) (seen_merge line.now).output text)) }
    ensures passed { Passes (F.trace files.old) (F.trace files.new)
        (PassesUnits (seen_merge line.now).units (IsMerged (seen_merge line.now) (symbols_of (hosts_of H.HostModule hosts.now)))
        (done_by result) (stopped_by result)) }
{
    let symbols = match offered_symbols(alloc, hosts) {
        Ok(symbols) => symbols,
        Err(Memory) => return Err(Stop::Memory),
    };
    match merge_units(alloc, line, symbols.as_slice(), files) {
        Ok(()) => Ok(()),
        Err(stop) => Err(stop),
    }
}
