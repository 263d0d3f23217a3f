// Translates the modules of files, and a module that is generated.
ghost use Rattle.std.specs.Prelude.{◌≡◌, ◌≤◌, length, IfOk, IfErr, OnOk};
ghost use Rattle.std.specs.List.{AllByRecursion};
ghost use Rattle.w2c_io.specs.Passed.{Passes};
ghost use Rattle.w2c_files.specs.Words.{names_of};
ghost use Rattle.w2c_gen.specs.GeneratedFile.{IsGeneratedFile};
ghost use Rattle.wasm_tree.specs.Limits.{most_module_bytes};
ghost use Rattle.wasm2c_words.specs.CommandLine.{generate as generates};
ghost use Rattle.wasm2c_words.specs.Seen.{seen_generation};
ghost use Rattle.wasm2c_cli.specs.Parts.{FinishesLine, FinishesTranslating, HasName, IsFitGeneration, IsGenerated, StopsTranslating, seen_targets};
ghost use Rattle.wasm2c_cli.specs.PartsPassing.{PassesWhole, TranslatesAll, TriesLine, TriesTranslating};
ghost use Rattle.wasm2c_cli.specs.Stops.{KeepsCurrent, StopsLine};

use crate::accepting::accept_modules;
use crate::plan::Target;
use crate::reading::read_modules;
use crate::stop::Stop;
use crate::work::Finished;
use crate::writing::{write_module, write_modules};
use std::alloc::Global;
use w2c_gen::generate;
use w2c_io::Files;
use w2c_sim::accept;
use wasm2c_words::Generation;

/// Reads all files, accepts all, drops their bytes, and then writes the C file and the header of each.
pub fn translate<F: Files>(
    alloc: Global,
    inputs: &[&str],
    targets: &[Target<'_>],
    files: &mut F,
) -> Result<Finished, Stop>
    requires many { length targets.now ≡ length inputs.now }
    requires named { AllByRecursion HasName (seen_targets targets.now) }
    ensures done { IfOk result (FinishesTranslating (names_of inputs.now) (seen_targets targets.now) (F.told files.old) (F.told files.new)) }
    ensures reads { F.read_faults files.old ≤ F.read_faults files.new }
    ensures writes { F.write_faults files.old ≤ F.write_faults files.new }
    ensures reads_kept { OnOk result (F.read_faults files.new ≡ F.read_faults files.old) }
    ensures writes_kept { OnOk result (F.write_faults files.new ≡ F.write_faults files.old) }
    ensures current { IfErr result (KeepsCurrent (F.current files.old) (F.current files.new)) }
    ensures stop { IfErr result (StopsTranslating (names_of inputs.now) (seen_targets targets.now) (F.told files.old) (F.told files.new)
        (F.read_faults files.old) (F.read_faults files.new) (F.write_faults files.old) (F.write_faults files.new) (F.fault_name files.new)) }
    ensures passed { OnOk result (Passes (F.trace files.old) (F.trace files.new)
        (TranslatesAll (names_of inputs.now) (seen_targets targets.now))) }
    ensures tried { IfErr result (λ stop. Passes (F.trace files.old) (F.trace files.new)
        (TriesTranslating (names_of inputs.now) (seen_targets targets.now) stop)) }
{
    let sources = match read_modules(alloc, inputs, files) {
        Ok(sources) => sources,
        Err(stop) => return Err(stop),
    };
    let modules = match accept_modules(alloc, inputs, sources.as_slice()) {
        Ok(modules) => modules,
        Err(stop) => return Err(stop),
    };
    drop(sources);
    write_modules(alloc, targets, modules.as_slice(), files)
}

/// Generates a module, and writes its C file and its header.
pub fn generate_module<F: Files>(
    alloc: Global,
    line: Generation<'_>,
    files: &mut F,
) -> Result<Finished, Stop>
    requires { IsFitGeneration (seen_generation line) }
    ensures done { IfOk result (FinishesLine (generates (seen_generation line.entry)) (F.told files.old) (F.told files.new)) }
    ensures current { IfErr result (KeepsCurrent (F.current files.old) (F.current files.new)) }
    ensures reads { F.read_faults files.old ≤ F.read_faults files.new }
    ensures writes { F.write_faults files.old ≤ F.write_faults files.new }
    ensures reads_kept { OnOk result (F.read_faults files.new ≡ F.read_faults files.old) }
    ensures writes_kept { OnOk result (F.write_faults files.new ≡ F.write_faults files.old) }
    ensures stop { IfErr result (StopsLine (generates (seen_generation line.entry)) (F.told files.old) (F.told files.new)
        (F.read_faults files.old) (F.read_faults files.new) (F.write_faults files.old) (F.write_faults files.new) (F.fault_name files.new)) }
    ensures passed { OnOk result (Passes (F.trace files.old) (F.trace files.new) (PassesWhole (generates (seen_generation line.entry)))) }
    ensures tried { IfErr result (λ stop. Passes (F.trace files.old) (F.trace files.new)
        (TriesLine (generates (seen_generation line.entry)) stop)) }
{
    let bytes = generate(alloc, line.count)?;
    match write_generated(alloc, line, bytes.as_slice(), files) {
        Ok(()) => Ok(Finished::Generated(line.count, bytes.len())),
        Err(stop) => Err(stop),
    }
}

// Writes the C file and the header of a generated module, whose file has these bytes. It is accepted, unless memory is wanting.
fn write_generated<F: Files>(
    alloc: Global,
    line: Generation<'_>,
    bytes: &[u8],
    files: &mut F,
) -> Result<(), Stop>
    requires line { IsFitGeneration (seen_generation line) }
    requires file { IsGeneratedFile (seen_generation line).count bytes.now }
    requires small { length bytes.now ≤ most_module_bytes }
    ensures done { OnOk result (IsGenerated (seen_generation line.entry) (length bytes.now) (F.told files.old) (F.told files.new)) }
    ensures current { IfErr result (KeepsCurrent (F.current files.old) (F.current files.new)) }
    ensures reads { F.read_faults files.old ≤ F.read_faults files.new }
    ensures writes { F.write_faults files.old ≤ F.write_faults files.new }
    ensures reads_kept { OnOk result (F.read_faults files.new ≡ F.read_faults files.old) }
    ensures writes_kept { OnOk result (F.write_faults files.new ≡ F.write_faults files.old) }
    ensures stop { IfErr result (StopsLine (generates (seen_generation line.entry)) (F.told files.old) (F.told files.new)
        (F.read_faults files.old) (F.read_faults files.new) (F.write_faults files.old) (F.write_faults files.new) (F.fault_name files.new)) }
    ensures passed { OnOk result (Passes (F.trace files.old) (F.trace files.new) (PassesWhole (generates (seen_generation line.entry)))) }
    ensures tried { IfErr result (λ stop. Passes (F.trace files.old) (F.trace files.new)
        (TriesLine (generates (seen_generation line.entry)) stop)) }
{
    let target = Target::beside(alloc, line.output, line.module_name)?;
    match accept(alloc, bytes) {
        Ok(module) => {
            let written = write_module(alloc, &target, &module, files);
            drop(module);
            written
        }
        Err(_) => Err(Stop::Memory),
    }
}
