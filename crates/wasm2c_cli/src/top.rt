// The top call: all that the program does.
ghost use Rattle.std.specs.Prelude.{◌≡◌, ◌⊎◌, ◌≤◌, List, ℕ, length, Some, None};
ghost use Rattle.w2c_io.specs.Contents.{Name, Contents};
ghost use Rattle.w2c_io.specs.Causes.{Rose, Faulted};
ghost use Rattle.w2c_io.specs.Passed.{Passes};
ghost use Rattle.w2c_io.specs.Telling.{Tells, Says, SaysPart};
ghost use Rattle.w2c_files.specs.Standing.{StandsAt};
ghost use Rattle.w2c_files.specs.Words.{texts};
ghost use Rattle.w2c_gen.specs.GeneratedFile.{IsGeneratedFile};
ghost use Rattle.wasm2c_words.specs.CommandLine.{Generation as Generated, line_of};
ghost use Rattle.wasm2c_cli.specs.declared.stop.Reason.{Reason};
ghost use Rattle.wasm2c_cli.specs.Job.{IsJob, Job, Missing, Refused, Write};
ghost use Rattle.wasm2c_cli.specs.Lines.{IsLine, read_line, refused_line, summary_line, usage_line, write_line};
ghost use Rattle.wasm2c_cli.specs.Passing.{PassesFor, PutsLinkedUnits};
ghost use Rattle.wasm2c_cli.specs.Stops.{Done, Generates, IsInput, IsOutput, StandsOfJob};
ghost use Rattle.wasm2c_cli.specs.Top.{Answers, NamesModules};
ghost use Rattle.wasm2c_cli.specs.Units.{WritesLinkedUnits, WritesUnits};

use crate::report::{report, summarize};
use crate::work::work;
use std::alloc::Global;
use w2c_io::{Files, Sink, SureFiles, SureSink};
use w2c_sim::{linked_units_do_what_modules_do, texts_spell_units};

/// Does what the words ask for, and gives the exit status: 0 where the C file and the header of each
/// module stand, or the runtime's two files, 1 for a file that is refused, 2 for words without a
/// reading, 3 and 4 for a file that cannot be read or written, 5 for want of memory. `words` leaves
/// out the program's name.
pub fn wasm2c_top<F: Files, E: Sink>(
    alloc: Global,
    words: &[String],
    files: &mut F,
    err: &mut E,
) -> u8
    // Where the files tell and no count of theirs rises, the job decides, unless memory was wanting.
    ensures complete { Tells (F.told files.old) (λ m. (Rose (F.read_faults files.old) (F.read_faults files.new) → ⊥)
        → (Rose (F.write_faults files.old) (F.write_faults files.new) → ⊥)
        → (result ≡ 5) ⊎ ((job : Job) × IsJob (texts words.now) m job × Answers job result)) }

    // Status 0: the job's files stand whole, and nothing else has changed. Where modules were asked for, each C file
    // holds the text of its module's unit, and the header stands beside it.
    ensures done { result ≡ 0 → Done (texts words.now) (F.told files.old) (F.told files.new) }
    ensures units { result ≡ 0 → NamesModules (texts words.now) → WritesUnits (texts words.now) (F.told files.old) (F.told files.new) }
    // The translation theorem: what is linked of these units, and of units that other calls have made, in any selection
    // and order and with any hosts, does what the modules do, both ways, and nothing that is undefined.
    ensures linked { result ≡ 0 → NamesModules (texts words.now) → WritesLinkedUnits (texts words.now) (F.told files.old) (F.told files.new) }
    // A generated module is summed up; else nothing is said.
    ensures summary { result ≡ 0 → (g : Generated) → Generates (texts words.now) g → (bytes : List ℕ) × IsGeneratedFile g.count bytes
        × Says (E.told err.old) (E.told err.new) (E.faults err.old) (E.faults err.new) (summary_line g.count (length bytes)) }
    ensures silent { result ≡ 0 → ((g : Generated) → Generates (texts words.now) g → ⊥) → E.told err.new ≡ E.told err.old }

    // With status 0 no call of the files has failed.
    ensures unfailed { result ≡ 0 → (F.read_faults files.new ≡ F.read_faults files.old) × (F.write_faults files.new ≡ F.write_faults files.old) }

    // Status 1 to 4: when each comes, and the line on the error stream.
    ensures refused { result ≡ 1 → (file : Name) × (reason : Reason) × IsInput file (line_of (texts words.now))
        × Tells (F.told files.old) (λ m. IsJob (texts words.now) m (Refused file reason))
        × Says (E.told err.old) (E.told err.new) (E.faults err.old) (E.faults err.new) (refused_line file reason) }
    ensures usage { result ≡ 2 → (line_of (texts words.now) ≡ None)
        × Says (E.told err.old) (E.told err.new) (E.faults err.old) (E.faults err.new) usage_line }
    ensures usage_always { line_of (texts words.now) ≡ None → (result ≡ 2) ⊎ (result ≡ 5) }
    ensures read_fault { result ≡ 3 → (file : Name) × IsInput file (line_of (texts words.now))
        × (Faulted file (F.read_faults files.old) (F.read_faults files.new) (F.fault_name files.new)
        ⊎ ((m : Contents) × (F.told files.old ≡ Some m) × IsJob (texts words.now) m (Missing file)))
        × Says (E.told err.old) (E.told err.new) (E.faults err.old) (E.faults err.new) (read_line file) }
    ensures write_fault { result ≡ 4 → (file : Name) × IsOutput file (line_of (texts words.now))
        × Faulted file (F.write_faults files.old) (F.write_faults files.new) (F.fault_name files.new)
        × Tells (F.told files.old) (λ m. (all : List (Name × List ℕ)) × IsJob (texts words.now) m (Write all)
        × StandsAt (F.told files.old) (F.told files.new) all file)
        × Says (E.told err.old) (E.told err.new) (E.faults err.old) (E.faults err.new) (write_line file) }

    // What stands after each.
    ensures untouched { (result ≡ 1) ⊎ (result ≡ 2) ⊎ (result ≡ 3) → F.told files.new ≡ F.told files.old }
    ensures current { (result ≡ 1) ⊎ (result ≡ 2) ⊎ (result ≡ 3) → F.current files.new ≡ F.current files.old }
    ensures stands { result ≡ 5 → Tells (F.told files.old) (λ m. StandsOfJob (texts words.now) m (F.told files.old) (F.told files.new)) }
    ensures part { result ≡ 5 → (line : List ℕ) × IsLine line × SaysPart (E.told err.old) (E.told err.new) line }
    ensures status { result ≤ 5 }

    // What passed through the files, those of the system too: the files that the words name are read, each once and in order, and
    // the job over the bytes that the reads gave decides what is written, which line is said, and the status.
    ensures passed { Passes (F.trace files.old) (F.trace files.new) (PassesFor (texts words.now) result
        (Says (E.told err.old) (E.told err.new) (E.faults err.old) (E.faults err.new))) }
    // The translation theorem of what was put.
    ensures linked_put { result ≡ 0 → NamesModules (texts words.now)
        → Passes (F.trace files.old) (F.trace files.new) (PutsLinkedUnits (texts words.now)) }
{
    linked_units_do_what_modules_do();
    texts_spell_units();
    match work(alloc, words, files) {
        Ok(finished) => summarize(alloc, finished, err),
        Err(stop) => report(alloc, stop, err),
    }
}

/// The same over files and a stream that never fail: the job decides, unless memory was wanting.
pub fn sure_top(alloc: Global, words: &[String], files: &mut SureFiles, err: &mut SureSink) -> u8
    ensures { Tells (⟦<SureFiles as Files>⟧.told files.old) (λ m. (result ≡ 5)
        ⊎ ((job : Job) × IsJob (texts words.now) m job × Answers job result)) }
{
    wasm2c_top(alloc, words, files, err)
}
