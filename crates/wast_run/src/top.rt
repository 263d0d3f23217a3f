// The top call: all that the program does.
ghost use Rattle.std.specs.Prelude.{◌≡◌, ◌⊎◌, ◌≤◌, ◌++◌, ◌∷◌, List, ℕ, Some, None};
ghost use Rattle.std.specs.FinMap.{get};
ghost use Rattle.std.specs.List.{AllByRecursion};
ghost use Rattle.w2c_files.specs.Words.{texts};
ghost use Rattle.w2c_io.specs.Contents.{Name};
ghost use Rattle.w2c_io.specs.Causes.{Rose};
ghost use Rattle.w2c_io.specs.Passed.{Passes};
ghost use Rattle.w2c_io.specs.Telling.{Tells, Says, SaysPart};
ghost use Rattle.wast_script.specs.CommandLine.{line_of};
ghost use Rattle.wast_script.specs.Commands.{Command};
ghost use Rattle.wast_script.specs.Lines.{error_line, status_of, Reason, Unread, Unwritten};
ghost use Rattle.wast_run.specs.Parts.{file_of, GainsLinesBefore, HasItsFile, IsNamed};
ghost use Rattle.wast_run.specs.Passing.{OnlyReads, PassesFor};
ghost use Rattle.wast_run.specs.Jobs.{GainedPart, GainsPrefix, GivesFirst, IsAnswered, IsJob, IsUnread, Refuses, Reported, ReportedPart, Reports, Stops};

use crate::work::work;
use std::alloc::Global;
use w2c_io::{Files, Sink};
use wast_script::{one_reading, report};

/// Reports on the script that the words name, and gives the exit status: 0 where each command is ok, 1 where one is not; 2 for
/// words without a reading and for a script's fault, 3 for a file that is not read, 4 for a line that is not written, 5 for want
/// of memory. `words` leaves out the program's name.
pub fn wast_run_top<F: Files, O: Sink, E: Sink>(
    alloc: Global,
    words: &[String],
    files: &mut F,
    out: &mut O,
    err: &mut E,
) -> u8
    // Where the files tell, and neither their count nor that of `out` rises, the job decides, unless memory was wanting.
    ensures complete { Tells (F.told files.old) (λ m. (Rose (F.read_faults files.old) (F.read_faults files.new) → ⊥)
        → (Rose (O.faults out.old) (O.faults out.new) → ⊥)
        → (result ≡ 5) ⊎ IsAnswered (texts words.now) m result) }

    // Where the files tell and their count does not rise, a script that is refused or not there decides, whatever `out` does.
    ensures refused_always { Tells (F.told files.old) (λ m. (Rose (F.read_faults files.old) (F.read_faults files.new) → ⊥)
        → (why : Reason) → IsJob (texts words.now) m (Stops why)
        → (result ≡ status_of why) ⊎ (result ≡ 5)) }
    // Where neither count rises, an accepted script is reported on if each file that it names is there, and else it is not.
    ensures reported_always { Tells (F.told files.old) (λ m. (Rose (F.read_faults files.old) (F.read_faults files.new) → ⊥)
        → (Rose (O.faults out.old) (O.faults out.new) → ⊥)
        → (steps : ℕ) → (commands : List Command) → IsJob (texts words.now) m (Reports steps commands)
        → AllByRecursion (HasItsFile m) commands → (result ≡ 0) ⊎ (result ≡ 1) ⊎ (result ≡ 5)) }
    ensures missing_always { Tells (F.told files.old) (λ m. (Rose (F.read_faults files.old) (F.read_faults files.new) → ⊥)
        → (Rose (O.faults out.old) (O.faults out.new) → ⊥)
        → (steps : ℕ) → (commands : List Command) → IsJob (texts words.now) m (Reports steps commands)
        → (file : Name) → IsNamed commands file → get m file ≡ None → (result ≡ 3) ⊎ (result ≡ 5)) }
    ensures usage_always { line_of (texts words.now) ≡ None → (result ≡ 2) ⊎ (result ≡ 5) }

    // Status 0 and 1 are those of the report, which `out` has gained.
    ensures reported { (result ≡ 0) ⊎ (result ≡ 1) → Tells (F.told files.old)
        (λ m. Reported (texts words.now) m (O.told out.old) (O.told out.new) result) }
    ensures silent { (result ≡ 0) ⊎ (result ≡ 1) → E.told err.new ≡ E.told err.old }

    // With status 0 and 1 no read of a file has failed, and no line.
    ensures unfailed { (result ≡ 0) ⊎ (result ≡ 1)
        → (F.read_faults files.new ≡ F.read_faults files.old) × (O.faults out.new ≡ O.faults out.old) }

    // Status 2 to 4: when each comes, and the line on the error stream.
    ensures refused { result ≡ 2 → (why : Reason) × (status_of why ≡ 2)
        × Refuses (texts words.now) (F.told files.old) why
        × Says (E.told err.old) (E.told err.new) (E.faults err.old) (E.faults err.new) (error_line why) }
    ensures read_fault { result ≡ 3 → (file : Name)
        × IsUnread (texts words.now) (F.told files.old) (GivesFirst (F.told files.old) (F.trace files.old) (F.trace files.new))
        (F.read_faults files.old) (F.read_faults files.new) (F.fault_name files.new) file
        × Says (E.told err.old) (E.told err.new) (E.faults err.old) (E.faults err.new) (error_line (Unread file)) }
    ensures write_fault { result ≡ 4 → Rose (O.faults out.old) (O.faults out.new)
        × Tells (F.told files.old) (λ m. ReportedPart (texts words.now) m (O.told out.old) (O.told out.new))
        × Says (E.told err.old) (E.told err.new) (E.faults err.old) (E.faults err.new) (error_line Unwritten) }

    // What stands after each.
    ensures files { F.told files.new ≡ F.told files.old }
    ensures current { F.current files.new ≡ F.current files.old }
    ensures nothing_written { result ≡ 2 → O.told out.new ≡ O.told out.old }
    ensures nothing_without_words { line_of (texts words.now) ≡ None → O.told out.new ≡ O.told out.old }
    ensures nothing_without_script { Tells (F.told files.old) (λ m. (why : Reason) → IsJob (texts words.now) m (Stops why)
        → O.told out.new ≡ O.told out.old) }
    ensures part { (result ≡ 3) ⊎ (result ≡ 4) ⊎ (result ≡ 5) → Tells (F.told files.old)
        (λ m. GainedPart (texts words.now) m (O.told out.old) (O.told out.new)) }
    // Where the commands have a report, it is a prefix of that, with any status.
    ensures prefix { Tells (F.told files.old) (λ m. GainsPrefix (texts words.now) m (O.told out.old) (O.told out.new)) }
    // Where a file that a command names is not there, `out` gains lines of the commands before it alone.
    ensures part_before { Tells (F.told files.old) (λ m. (steps : ℕ) → (before behind : List Command) → (command : Command) → (file : Name)
        → IsJob (texts words.now) m (Reports steps (before ++ command ∷ behind))
        → file_of command ≡ Some file → get m file ≡ None
        → GainsLinesBefore m steps before (O.told out.old) (O.told out.new)) }
    ensures part_of_a_line { result ≡ 5 → (why : Reason) × SaysPart (E.told err.old) (E.told err.new) (error_line why) }
    ensures status { result ≤ 5 }
    // What passed through the files, those of the system too: the script was read, then the files that its commands name, in order.
    // The status, what `out` gained and the line on `err` are those of the bytes that the reads gave.
    ensures passed { Passes (F.trace files.old) (F.trace files.new)
        (PassesFor (texts words.now) (O.told out.old) (O.told out.new) result
        (Says (E.told err.old) (E.told err.new) (E.faults err.old) (E.faults err.new))) }
    ensures reads_only { Passes (F.trace files.old) (F.trace files.new) (OnlyReads (texts words.now)) }
{
    one_reading();
    match work(alloc, words, files, out) {
        Ok(status) => status,
        Err(stop) => report(alloc, &stop, err),
    }
}
