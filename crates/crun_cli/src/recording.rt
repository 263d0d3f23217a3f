// The run of units whose texts are read, and its journal in a file.
ghost use Rattle.std.specs.Prelude.{◌≡◌, ◌⊎◌, ◌≤◌, ℕ, List, None, Some, IfErr, IfOk, IsErrOf, OnErr, OnOk, length, map};
ghost use Rattle.w2c_io.specs.Contents.{Name, holding};
ghost use Rattle.w2c_io.specs.Causes.{Faulted, WriteCause};
ghost use Rattle.w2c_io.specs.Passed.{Passes};
ghost use Rattle.w2c_io.specs.declared.answers.WriteAnswer.TheVariants as writing;
ghost use Rattle.c_tree.specs.View.{unit_of};
ghost use Rattle.c_hosts.specs.Asking.{hosts_of};
ghost use Rattle.crun.specs.HostSymbols.{symbols_of_hosts};
ghost use Rattle.crun_words.specs.Seen.{seen_run};
ghost use Rattle.crun_job.specs.Job.{IsTextsJob};
ghost use Rattle.crun_job.specs.Seen.{calls_seen, reason_of, AllFit};
ghost use Rattle.crun_job.specs.Stopping.{job_of, StopsTexts};
ghost use Rattle.crun_job.specs.Texts.{AreShort};
ghost use Rattle.crun_units.specs.Trying.{stopped_by};
ghost use Rattle.crun_cli.specs.Ends.{AreOffered, HasPlayed, IsRunStatus};
ghost use Rattle.crun_cli.specs.Jobs.{symbols_of};
ghost use Rattle.crun_cli.specs.Outside.{outside};
ghost use Rattle.crun_cli.specs.Recording.{HasRecorded, IsBlank, IsBlankFor, IsNamed, IsWritten, IsWrittenPart};
ghost use Rattle.crun_cli.specs.Runs.{HasPart};
ghost use Rattle.crun_cli.specs.Stopping.{IsTextsRun, StopsRun};
ghost use Rattle.crun_cli.specs.Trying.{ended_by, PutsJournal, PutsJournalPart, WritesOfTexts};

use crate::offering::offered_symbols;
use crate::play::{Played, play};
use c_hosts::HostModule;
use crun::Session;
use crun_job::{Stop, Task};
use crun_words::{Inputs, RunLine};
use host_replay::JournalFile;
use std::alloc::Global;
use w2c_base::Memory;
use w2c_files::write_file;
use w2c_io::{Files, Sink, WriteAnswer};

/// Runs the units of these texts, linked with the hosts, with the calls of these lines, and gives the status of the run. Where the
/// line names a file for the journal, the text of the run's journal is written to it, behind the lines of the run. The texts are
/// dropped before anything runs.
pub fn run_and_record<F: Files, O: Sink, H: HostModule>(
    alloc: Global,
    line: &RunLine<'_>,
    inputs: Inputs,
    hosts: Vec<H>,
    files: &mut F,
    out: &mut O,
) -> Result<u8, Stop>
    requires offered { AreOffered H.HostModule hosts.items }
    requires many { length inputs.units.items ≡ length line.now.units.items }
    requires short { AreShort inputs.units.items }
    ensures ran { IfOk result (λ status. IsTextsRun H.HostModule hosts.items (seen_run line.now) inputs.units.items inputs.calls
        (λ units calls. HasPlayed H.HostModule hosts.items (seen_run line.now) units calls
        (outside F.Files O.Sink files.old out.old) (outside F.Files O.Sink files.new out.new) status)) }
    ensures status { IfOk result IsRunStatus }
    ensures stop { IfErr result (λ stop. StopsRun H.HostModule hosts.items (seen_run line.now) inputs.units.items inputs.calls
        (outside F.Files O.Sink files.old out.old) (outside F.Files O.Sink files.new out.new) (reason_of stop)) }
    ensures reads { F.read_faults files.new ≡ F.read_faults files.old }
    ensures writes { F.write_faults files.old ≤ F.write_faults files.new }
    ensures writes_kept { OnOk result (F.write_faults files.new ≡ F.write_faults files.old) }
    ensures later { O.faults out.old ≤ O.faults out.new }
    ensures lines_kept { OnOk result (O.faults out.new ≡ O.faults out.old) }
    ensures kept { (F.told files.new ≡ F.told files.old) ⊎ ((file : Name) × (text : List ℕ) × ((seen_run line.now).journal ≡ Some file)
        × (F.told files.new ≡ holding (F.told files.old) file text)) }
    ensures current { (seen_run line.now).journal ≡ None → F.current files.new ≡ F.current files.old }
    // What passed through the files, those of the system too.
    ensures passed { Passes (F.trace files.old) (F.trace files.new)
        (WritesOfTexts H.HostModule hosts.items (seen_run line.now) inputs.units.items inputs.calls
        (O.told out.old) (O.told out.new) (ended_by result) (stopped_by result)) }
{
    let task = match task_of(alloc, line, &inputs, hosts.as_slice()) {
        Ok(task) => task,
        Err(stop) => return Err(stop),
    };
    drop(inputs);
    let journal = match blank_journal(alloc, line, hosts.as_slice()) {
        Ok(journal) => journal,
        Err(Memory) => return Err(Stop::Memory),
    };
    let played = match run_task(alloc, task, hosts, journal, out) {
        Ok(played) => played,
        Err(WriteAnswer::Failed) => return Err(Stop::Unwritten),
        Err(WriteAnswer::Memory) => return Err(Stop::Memory),
    };
    match write_journal(alloc, line, played.journal, files) {
        Ok(()) => Ok(played.status),
        Err(WriteAnswer::Failed) => Err(Stop::Unwritten),
        Err(WriteAnswer::Memory) => Err(Stop::Memory),
    }
}

// What is to run.
fn task_of<H: HostModule>(
    alloc: Global,
    line: &RunLine<'_>,
    inputs: &Inputs,
    hosts: &[H],
) -> Result<Task, Stop>
    requires offered { AreOffered H.HostModule hosts.now }
    requires many { length inputs.now.units.items ≡ length line.now.units.items }
    requires short { AreShort inputs.now.units.items }
    ensures task { IfOk result (λ task. IsTextsJob (seen_run line.now) (symbols_of (hosts_of H.HostModule hosts.now)) inputs.now.units.items
        inputs.now.calls (job_of task)) }
    ensures symbols { IfOk result (λ task. task.linked.1 ≡ symbols_of_hosts (hosts_of H.HostModule hosts.now)) }
    ensures fit { IfOk result (λ task. AllFit (map unit_of task.linked.0) task.calls.items) }
    ensures stop { IfErr result (λ stop. StopsTexts (seen_run line.now) (symbols_of (hosts_of H.HostModule hosts.now)) inputs.now.units.items
        inputs.now.calls (reason_of stop)) }
{
    let symbols = match offered_symbols(alloc, hosts) {
        Ok(symbols) => symbols,
        Err(Memory) => return Err(Stop::Memory),
    };
    match Task::of_inputs(alloc, line, inputs, symbols.as_slice()) {
        Ok(task) => Ok(task),
        Err(stop) => Err(stop),
    }
}

// A journal of the hosts without calls, where a file is named for it.
fn blank_journal<H: HostModule>(
    alloc: Global,
    line: &RunLine<'_>,
    hosts: &[H],
) -> Result<Option<JournalFile>, Memory>
    ensures { IfOk result (IsBlankFor H.HostModule hosts.now (seen_run line.now).journal) }
{
    match line.journal {
        None => Ok(None),
        Some(_) => Ok(Some(JournalFile::of_hosts(alloc, hosts)?)),
    }
}

// Runs a task with these hosts, which are given up behind the run.
fn run_task<H: HostModule, O: Sink>(
    alloc: Global,
    task: Task,
    hosts: Vec<H>,
    journal: Option<JournalFile>,
    out: &mut O,
) -> Result<Played, WriteAnswer>
    requires symbols { task.linked.1 ≡ symbols_of_hosts (hosts_of H.HostModule hosts.items) }
    requires fit { AllFit (map unit_of task.linked.0) task.calls.items }
    requires blank { IsBlank H.HostModule hosts.items journal }
    ensures ran { IfOk result (λ played. HasRecorded H.HostModule hosts.items (map unit_of task.linked.0) (calls_seen task.calls.items) task.steps task.shows_state
        (O.told out.old) (O.told out.new) played.status journal played.journal) }
    ensures part { OnErr result (HasPart H.HostModule hosts.items (map unit_of task.linked.0) (calls_seen task.calls.items) task.steps task.shows_state
        (O.told out.old) (O.told out.new)) }
    ensures cause { WriteCause (O.faults out.old) (O.faults out.new) result }
{
    let calls = task.calls;
    let shows_state = task.shows_state;
    let mut session = match Session::start(alloc, task.linked, hosts, task.steps) {
        Ok(session) => session,
        Err(Memory) => return Err(WriteAnswer::Memory),
    };
    let came = play(
        alloc,
        &mut session,
        calls.as_slice(),
        shows_state,
        journal,
        out,
    );
    session.close();
    match came {
        Ok(played) => Ok(played),
        Err(answer) => Err(answer),
    }
}

// Writes the text of the journal to the file that is named for it, if one is.
fn write_journal<F: Files>(
    alloc: Global,
    line: &RunLine<'_>,
    journal: Option<JournalFile>,
    files: &mut F,
) -> Result<(), WriteAnswer>
    requires named { IsNamed (seen_run line.now).journal journal }
    ensures written { OnOk result (IsWritten (seen_run line.now).journal journal (F.told files.old) (F.told files.new)) }
    ensures part { OnErr result (IsWrittenPart (seen_run line.now).journal journal (F.told files.old) (F.told files.new)) }
    ensures reads { F.read_faults files.new ≡ F.read_faults files.old }
    ensures cause { WriteCause (F.write_faults files.old) (F.write_faults files.new) result }
    ensures failed { IsErrOf result writing.Failed → (file : Name) × ((seen_run line.now).journal ≡ Some file)
        × Faulted file (F.write_faults files.old) (F.write_faults files.new) (F.fault_name files.new) }
    ensures current { (seen_run line.now).journal ≡ None → F.current files.new ≡ F.current files.old }
    ensures passed { OnOk result (Passes (F.trace files.old) (F.trace files.new) (PutsJournal (seen_run line.now).journal journal)) }
    ensures tried { IfErr result (λ why. Passes (F.trace files.old) (F.trace files.new)
        (PutsJournalPart (seen_run line.now).journal journal why)) }
{
    let Some(name) = line.journal else {
        return Ok(());
    };
    let Some(file) = journal else { unreachable!() };
    let text = match file.text(alloc) {
        Ok(text) => text,
        Err(Memory) => return Err(WriteAnswer::Memory),
    };
    match write_file(name, text.as_slice(), files) {
        Ok(()) => Ok(()),
        Err(answer) => Err(answer),
    }
}
