// Hosts that reply again what a journal says.
ghost use Rattle.std.specs.Prelude.{◌≡◌, ◌≤◌, IfErr, IfOk, OnOk};
ghost use Rattle.w2c_io.specs.Passed.{Passes};
ghost use Rattle.w2c_io.specs.Telling.{Tells};
ghost use Rattle.host_replay.specs.Replayed.{AreReplays};
ghost use Rattle.host_replay.specs.Texts.{Recorded};
ghost use Rattle.crun_job.specs.Seen.{reason_of};
ghost use Rattle.crun_units.specs.Files.{files_seen};
ghost use Rattle.crun_cli.specs.Ends.{AreOffered};
ghost use Rattle.crun_cli.specs.Jobs.{HoldsJournal};
ghost use Rattle.crun_cli.specs.Stopping.{StopsReplay};
ghost use Rattle.crun_cli.specs.Trying.{GivesReplays, TriesReplay};

use c_hosts::HostModule;
use crun_job::{Stop, stop_of};
use crun_words::read_journal_file;
use host_replay::{JournalFault, ReplayHost, read_journal, replay_hosts};
use std::alloc::Global;
use w2c_base::Memory;
use w2c_io::Files;

/// The hosts of the journal in a file, one for each of its modules, with no reply used up.
pub fn replayed_hosts<F: Files>(
    alloc: Global,
    name: &str,
    files: &mut F,
) -> Result<Vec<ReplayHost>, Stop>
    ensures told { F.told files.new ≡ F.told files.old }
    ensures current { F.current files.new ≡ F.current files.old }
    ensures writes { F.write_faults files.new ≡ F.write_faults files.old }
    ensures later { F.read_faults files.old ≤ F.read_faults files.new }
    ensures kept { OnOk result (F.read_faults files.new ≡ F.read_faults files.old) }
    ensures hosts { IfOk result (λ hosts. Tells (F.told files.old)
        (λ m. (j : Recorded) × HoldsJournal m name.now j × AreReplays j hosts.items)) }
    ensures offered { IfOk result (λ hosts. AreOffered ⟦<ReplayHost as HostModule>⟧ hosts.items) }
    ensures stop { IfErr result (λ stop. StopsReplay name.now (files_seen F.Files files.old) (files_seen F.Files files.new) (reason_of stop)) }
    ensures passed { IfOk result (λ hosts. Passes (F.trace files.old) (F.trace files.new) (GivesReplays name.now hosts.items)) }
    ensures tried { IfErr result (λ stop. Passes (F.trace files.old) (F.trace files.new) (TriesReplay name.now (reason_of stop))) }
{
    let text = match read_journal_file(alloc, name, files) {
        Ok(text) => text,
        Err(stop) => return Err(stop_of(stop)),
    };
    let file = match read_journal(alloc, text.as_slice()) {
        Ok(file) => file,
        Err(JournalFault::Line(number)) => return Err(Stop::JournalLine(number)),
        Err(JournalFault::Memory) => return Err(Stop::Memory),
    };
    match replay_hosts(alloc, &file) {
        Ok(hosts) => Ok(hosts),
        Err(Memory) => Err(Stop::Memory),
    }
}
