// The top call: all that the program does.
ghost use Rattle.std.specs.Prelude.{◌≡◌, ◌⊎◌, ◌≤◌, None};
ghost use Rattle.w2c_files.specs.Words.{texts};
ghost use Rattle.w2c_io.specs.Contents.{Name};
ghost use Rattle.w2c_io.specs.Causes.{Rose};
ghost use Rattle.w2c_io.specs.Passed.{Passes};
ghost use Rattle.w2c_io.specs.Telling.{Tells, Says, SaysPart};
ghost use Rattle.crun_words.specs.CommandLine.{line_of};
ghost use Rattle.crun_job.specs.Job.{Stops};
ghost use Rattle.crun_job.specs.Lines.{error_line, status_of, Reason, Unread, Unwritten};
ghost use Rattle.crun_cli.specs.Again.{RunsAgain};
ghost use Rattle.crun_cli.specs.Ends.{
  AreOffered,
  Begun,
  BegunIfAny,
  Finished,
  IsAnswered,
  IsJobWith,
  IsKept,
  IsRunStatus,
  IsUnread,
  IsUnwritten,
  Refuses,
};
ghost use Rattle.crun_cli.specs.Files.{WritesNothing};
ghost use Rattle.crun_cli.specs.Outside.{outside, IsUntouched};
ghost use Rattle.crun_cli.specs.Passing.{PassesFor};

use crate::work::work;
use c_hosts::{BoxedHost, HostModule};
use crun_job::report;
use std::alloc::Global;
use w2c_io::{Files, Sink};

/// Does what the words ask for, and gives the exit status: 0 where the init functions and all calls ended, or a unit was written,
/// 1 for a trap, 7 where the statements are spent, 8 where what is undefined came up; 2 for words without a reading, a calls file
/// or a journal that is too long, or the first line of one that is refused, 3 for a file that is not read, 4 for a line or a file
/// that is not written, 5 for want of memory, 6 for a unit that is refused. `words` leaves out the program's name. The units are
/// linked with the hosts, no two functions of which have one symbol; all hosts are dropped when the call returns. A run that
/// replays a journal is with the hosts of the journal, and those that were handed in are not called.
pub fn crun_top<F: Files, O: Sink, E: Sink>(
    alloc: Global,
    words: &[String],
    files: &mut F,
    out: &mut O,
    err: &mut E,
    hosts: Vec<BoxedHost>,
) -> u8
    requires offered { AreOffered ⟦<BoxedHost as HostModule>⟧ hosts.items }
    // Where the files tell, and neither their counts nor that of `out` rise, what the words ask for decides, unless memory was
    // wanting.
    ensures complete { Tells (F.told files.old) (λ m. (Rose (F.read_faults files.old) (F.read_faults files.new) → ⊥)
        → (Rose (F.write_faults files.old) (F.write_faults files.new) → ⊥) → (Rose (O.faults out.old) (O.faults out.new) → ⊥)
        → (result ≡ 5) ⊎ IsAnswered ⟦<BoxedHost as HostModule>⟧ hosts.items (texts words.now) m result) }

    // Where the files tell and no reading fails, a refusal decides, whatever `out` and the written file do.
    ensures refused_always { Tells (F.told files.old) (λ m. (Rose (F.read_faults files.old) (F.read_faults files.new) → ⊥)
        → (why : Reason) → IsJobWith ⟦<BoxedHost as HostModule>⟧ hosts.items (texts words.now) m (Stops why)
        → (result ≡ status_of why) ⊎ (result ≡ 5)) }

    // Status 0, 1, 7 and 8 are those of the run of the units with the calls and the hosts: `out` has gained its lines, and the file
    // that is named for it holds its journal. Or, with 0, the file that is named holds the text of the unit that is asked for.
    ensures finished { IsRunStatus result → Tells (F.told files.old) (λ m. Finished ⟦<BoxedHost as HostModule>⟧ hosts.items (texts words.now) m
        (outside F.Files O.Sink files.old out.old) (outside F.Files O.Sink files.new out.new) result) }
    ensures silent { IsRunStatus result → E.told err.new ≡ E.told err.old }

    // With these no call of the files has failed, and no line.
    ensures unfailed { IsRunStatus result → (F.read_faults files.new ≡ F.read_faults files.old)
        × (F.write_faults files.new ≡ F.write_faults files.old) × (O.faults out.new ≡ O.faults out.old) }

    // A run whose journal this call has written, and that is replayed, is this run again.
    ensures replayed { IsRunStatus result → Tells (F.told files.old) (λ m. Tells (F.told files.new)
        (λ left. RunsAgain ⟦<BoxedHost as HostModule>⟧ (texts words.now) m left
        (outside F.Files O.Sink files.old out.old) (outside F.Files O.Sink files.new out.new) result)) }

    // Status 2 to 6: when each comes, and the line on the error stream.
    ensures refused { (result ≡ 2) ⊎ (result ≡ 6) → (why : Reason) × (status_of why ≡ result)
        × Refuses ⟦<BoxedHost as HostModule>⟧ hosts.items (texts words.now) (F.told files.old) why
        × Says (E.told err.old) (E.told err.new) (E.faults err.old) (E.faults err.new) (error_line why) }
    ensures usage_always { line_of (texts words.now) ≡ None → (result ≡ 2) ⊎ (result ≡ 5) }
    ensures read_fault { result ≡ 3 → (file : Name) × IsUnread ⟦<BoxedHost as HostModule>⟧ hosts.items (texts words.now)
        (outside F.Files O.Sink files.old out.old) (outside F.Files O.Sink files.new out.new) file
        × Says (E.told err.old) (E.told err.new) (E.faults err.old) (E.faults err.new) (error_line (Unread file)) }
    ensures write_fault { result ≡ 4
        → IsUnwritten (texts words.now) (outside F.Files O.Sink files.old out.old) (outside F.Files O.Sink files.new out.new)
        × Tells (F.told files.old) (λ m. Begun ⟦<BoxedHost as HostModule>⟧ hosts.items (texts words.now) m
        (outside F.Files O.Sink files.old out.old) (outside F.Files O.Sink files.new out.new))
        × Says (E.told err.old) (E.told err.new) (E.faults err.old) (E.faults err.new) (error_line Unwritten) }

    // What stands after each.
    ensures kept { IsKept (texts words.now) (outside F.Files O.Sink files.old out.old) (outside F.Files O.Sink files.new out.new) }
    ensures current { WritesNothing (line_of (texts words.now)) → F.current files.new ≡ F.current files.old }
    ensures untouched { (result ≡ 2) ⊎ (result ≡ 3) ⊎ (result ≡ 6)
        → IsUntouched (outside F.Files O.Sink files.old out.old) (outside F.Files O.Sink files.new out.new) }
    ensures part { result ≡ 5 → Tells (F.told files.old) (λ m. BegunIfAny ⟦<BoxedHost as HostModule>⟧ hosts.items (texts words.now) m
        (outside F.Files O.Sink files.old out.old) (outside F.Files O.Sink files.new out.new)) }
    ensures part_of_a_line { result ≡ 5 → (why : Reason) × SaysPart (E.told err.old) (E.told err.new) (error_line why) }

    // What passed through the files, those of the system too: the files that the words name are read, each once and in order, and
    // then the file that they name for writing is written, or a part of it, by what the reads gave. No other file is read or begun.
    ensures passed { Passes (F.trace files.old) (F.trace files.new)
        (PassesFor ⟦<BoxedHost as HostModule>⟧ hosts.items (texts words.now) (O.told out.old) (O.told out.new) result
        (λ line. Says (E.told err.old) (E.told err.new) (E.faults err.old) (E.faults err.new) line)) }

    ensures status { result ≤ 8 }
{
    match work(alloc, words, files, out, hosts) {
        Ok(status) => status,
        Err(stop) => report(alloc, &stop, err),
    }
}
