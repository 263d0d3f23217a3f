// The work that a command line asks for.
ghost use Rattle.std.specs.Prelude.{◌≡◌, ◌≤◌, IfErr, IfOk, OnOk};
ghost use Rattle.w2c_io.specs.Passed.{Passes};
ghost use Rattle.w2c_files.specs.Words.{texts};
ghost use Rattle.wasm2c_words.specs.Seen.{seen_line};
ghost use Rattle.wasm2c_cli.specs.Parts.{FinishesLine, FinishesWork, HasPassed};
ghost use Rattle.wasm2c_cli.specs.PartsPassing.{PassesWhole, PassesWork, TriesLine, TriesWork};
ghost use Rattle.wasm2c_cli.specs.Stops.{KeepsCurrent, StopsLine, StopsWork};

use crate::plan::{Target, set_targets};
use crate::runtime::write_runtime;
use crate::stop::Stop;
use crate::translating::{generate_module, translate};
use program_words::NoLine;
use std::alloc::Global;
use w2c_io::Files;
use wasm2c_words::{Line, read_words};

/// What the work came to.
#[derive(Clone, Copy)]
pub enum Finished {
    /// All files are written.
    Written,
    /// They are, for a module that was generated: of so many functions, with a file of so many bytes.
    Generated(u32, usize),
}

/// Reads the words, and does what they ask for. Files are read, accepted and written in the order of the words, and no
/// file is begun before all are accepted.
pub fn work<F: Files>(alloc: Global, words: &[String], files: &mut F) -> Result<Finished, Stop>
    ensures done { IfOk result (FinishesWork (texts words.now) (F.told files.old) (F.told files.new)) }
    ensures current { IfErr result (KeepsCurrent (F.current files.old) (F.current files.new)) }
    ensures reads { F.read_faults files.old ≤ F.read_faults files.new }
    ensures writes { F.write_faults files.old ≤ F.write_faults files.new }
    ensures reads_kept { OnOk result (F.read_faults files.new ≡ F.read_faults files.old) }
    ensures writes_kept { OnOk result (F.write_faults files.new ≡ F.write_faults files.old) }
    ensures stop { IfErr result (StopsWork (texts words.now) (F.told files.old) (F.told files.new)
        (F.read_faults files.old) (F.read_faults files.new) (F.write_faults files.old) (F.write_faults files.new) (F.fault_name files.new)) }
    ensures passed { OnOk result (Passes (F.trace files.old) (F.trace files.new) (PassesWork (texts words.now))) }
    ensures tried { IfErr result (λ stop. Passes (F.trace files.old) (F.trace files.new) (TriesWork (texts words.now) stop)) }
{
    let line = match read_words(alloc, words) {
        Ok(line) => line,
        Err(NoLine::Usage) => return Err(Stop::Usage),
        Err(NoLine::Memory) => return Err(Stop::Memory),
    };
    work_on(alloc, line, files)
}

fn work_on<F: Files>(alloc: Global, line: Line<'_>, files: &mut F) -> Result<Finished, Stop>
    requires { HasPassed (seen_line line) }
    ensures done { IfOk result (FinishesLine (seen_line line.entry) (F.told files.old) (F.told files.new)) }
    ensures current { IfErr result (KeepsCurrent (F.current files.old) (F.current files.new)) }
    ensures reads { F.read_faults files.old ≤ F.read_faults files.new }
    ensures writes { F.write_faults files.old ≤ F.write_faults files.new }
    ensures reads_kept { OnOk result (F.read_faults files.new ≡ F.read_faults files.old) }
    ensures writes_kept { OnOk result (F.write_faults files.new ≡ F.write_faults files.old) }
    ensures stop { IfErr result (StopsLine (seen_line line.entry) (F.told files.old) (F.told files.new)
        (F.read_faults files.old) (F.read_faults files.new) (F.write_faults files.old) (F.write_faults files.new) (F.fault_name files.new)) }
    ensures passed { OnOk result (Passes (F.trace files.old) (F.trace files.new) (PassesWhole (seen_line line.entry))) }
    ensures tried { IfErr result (λ stop. Passes (F.trace files.old) (F.trace files.new) (TriesLine (seen_line line.entry) stop)) }
{
    match line {
        Line::Translate(one) => {
            let target = Target::beside(alloc, one.output, one.module_name)?;
            translate(alloc, &[one.input], &[target], files)
        }
        Line::Set(set) => {
            let targets = set_targets(alloc, set.dir, set.inputs.as_slice())?;
            translate(alloc, set.inputs.as_slice(), targets.as_slice(), files)
        }
        Line::Generate(one) => generate_module(alloc, one, files),
        Line::Runtime(dir) => write_runtime(alloc, dir, files),
    }
}
