// Writes the files of modules, in order.
ghost use Rattle.std.specs.Prelude.{◌≡◌, ◌≤◌, length, Some, OnOk, OnErr, IfOk, IfErr, IsErrOf};
ghost use Rattle.std.specs.List.{AllByRecursion};
ghost use Rattle.w2c_io.specs.declared.answers.WriteAnswer.TheVariants as writing;
ghost use Rattle.w2c_io.specs.Contents.{holding};
ghost use Rattle.w2c_io.specs.Causes.{WriteCause};
ghost use Rattle.w2c_io.specs.Passed.{Passes, WritesFile, BreaksOff};
ghost use Rattle.w2c_files.specs.Passing.{WritesFiles};
ghost use Rattle.w2c_files.specs.Standing.{written, IsBegun};
ghost use Rattle.w2c_sim.specs.Translation.{text_of, header_text_of};
ghost use Rattle.wasm_tree.specs.Bytes.{AreBytes};
ghost use Rattle.wasm2c_cli.specs.declared.work.Finished.TheVariants.{Written};
ghost use Rattle.wasm2c_cli.specs.Job.{files_of, module_files};
ghost use Rattle.wasm2c_cli.specs.PartsPassing.{EndsWriting};
ghost use Rattle.wasm2c_cli.specs.Parts.{HasName, IsNamed, StopsAtFile, StopsWriting, seen_target, seen_targets};

use crate::plan::Target;
use crate::stop::Stop;
use crate::work::Finished;
use std::alloc::Global;
use w2c_files::give_up;
use w2c_io::{Files, WriteAnswer};
use w2c_sim::{write_header, write_unit};
use wasm_typing::ValidModule;

/// Writes the C file and the header of each module.
pub fn write_modules<F: Files>(
    alloc: Global,
    targets: &[Target<'_>],
    modules: &[ValidModule],
    files: &mut F,
) -> Result<Finished, Stop>
    requires many { length modules.now ≡ length targets.now }
    requires named { AllByRecursion HasName (seen_targets targets.now) }
    ensures done { IfOk result (λ f. f ≡ Written) }
    ensures whole { OnOk result (F.told files.new ≡ written (F.told files.old) (files_of (seen_targets targets.now) modules.now)) }
    ensures names { OnOk result (AllByRecursion IsNamed (seen_targets targets.now)) }
    ensures reads { F.read_faults files.new ≡ F.read_faults files.old }
    ensures later { F.write_faults files.old ≤ F.write_faults files.new }
    ensures kept { OnOk result (F.write_faults files.new ≡ F.write_faults files.old) }
    ensures stop { IfErr result (StopsWriting (F.told files.old) (F.told files.new) (files_of (seen_targets targets.now) modules.now)
        (F.write_faults files.old) (F.write_faults files.new) (F.fault_name files.new)) }
    ensures passed { OnOk result (Passes (F.trace files.old) (F.trace files.new) (WritesFiles (files_of (seen_targets targets.now) modules.now))) }
    ensures tried { IfErr result (λ stop. Passes (F.trace files.old) (F.trace files.new) (EndsWriting (files_of (seen_targets targets.now) modules.now) stop)) }
{
    for k in 0..targets.len() {
        match write_module(alloc, &targets[k], &modules[k], files) {
            Ok(()) => {}
            Err(stop) => return Err(stop),
        }
    }
    Ok(Finished::Written)
}

/// Writes the C file of a module, then its header.
pub fn write_module<F: Files>(
    alloc: Global,
    target: &Target<'_>,
    module: &ValidModule,
    files: &mut F,
) -> Result<(), Stop>
    requires { HasName (seen_target target.now) }
    ensures whole { OnOk result (F.told files.new ≡ written (F.told files.old) (module_files (seen_target target.now) module.now)) }
    ensures names { IsNamed (seen_target target.now) }
    ensures reads { F.read_faults files.new ≡ F.read_faults files.old }
    ensures later { F.write_faults files.old ≤ F.write_faults files.new }
    ensures kept { OnOk result (F.write_faults files.new ≡ F.write_faults files.old) }
    ensures stop { IfErr result (StopsWriting (F.told files.old) (F.told files.new) (module_files (seen_target target.now) module.now)
        (F.write_faults files.old) (F.write_faults files.new) (F.fault_name files.new)) }
    ensures passed { OnOk result (Passes (F.trace files.old) (F.trace files.new) (WritesFiles (module_files (seen_target target.now) module.now))) }
    ensures tried { IfErr result (λ stop. Passes (F.trace files.old) (F.trace files.new) (EndsWriting (module_files (seen_target target.now) module.now) stop)) }
{
    let c_file = target.c_file.as_str();
    let header = target.header.as_str();
    if let Err(answer) = unit_to_file(alloc, c_file, target.module_name, module, files) {
        return Err(stop_for(alloc, answer, c_file));
    }
    if let Err(answer) = header_to_file(alloc, header, target.module_name, module, files) {
        return Err(stop_for(alloc, answer, header));
    }
    Ok(())
}

/// Why the work stops at a file that is not written.
pub fn stop_for(alloc: Global, answer: WriteAnswer, file: &str) -> Stop
    ensures { StopsAtFile answer file.now result }
{
    match answer {
        WriteAnswer::Memory => Stop::Memory,
        WriteAnswer::Failed => match String::from_str(alloc, file) {
            Ok(name) => Stop::Unwritten(name),
            Err(_) => Stop::Memory,
        },
    }
}

// Writes a file with the text of a module's unit.
fn unit_to_file<F: Files>(
    alloc: Global,
    file: &str,
    module_name: &[u8],
    module: &ValidModule,
    files: &mut F,
) -> Result<(), WriteAnswer>
    requires some { 1 ≤ length module_name.now }
    requires short { length module_name.now ≤ 1024 }
    ensures whole { OnOk result (F.told files.new ≡ holding (F.told files.old) file.now (text_of module.now module_name.now)) }
    ensures begun { OnErr result (IsBegun (F.told files.old) (F.told files.new) file.now (text_of module.now module_name.now)) }
    ensures reads { F.read_faults files.new ≡ F.read_faults files.old }
    ensures cause { WriteCause (F.write_faults files.old) (F.write_faults files.new) result }
    ensures named { IsErrOf result writing.Failed → F.fault_name files.new ≡ Some file.now }
    ensures passed { OnOk result (Passes (F.trace files.old) (F.trace files.new)
        (WritesFile file.now (text_of module.now module_name.now))) }
    ensures tried { IfErr result (λ why. Passes (F.trace files.old) (F.trace files.new)
        (BreaksOff file.now (text_of module.now module_name.now) why)) }
    ensures bytes { AreBytes module_name.now }
{
    files.begin(file)?;
    if let Err(answer) = write_unit(alloc, module, module_name, files) {
        give_up(files);
        return Err(answer);
    }
    files.finish()
}

// Writes a file with the text of a module's header.
fn header_to_file<F: Files>(
    alloc: Global,
    file: &str,
    module_name: &[u8],
    module: &ValidModule,
    files: &mut F,
) -> Result<(), WriteAnswer>
    requires some { 1 ≤ length module_name.now }
    requires short { length module_name.now ≤ 1024 }
    ensures whole { OnOk result (F.told files.new ≡ holding (F.told files.old) file.now (header_text_of module.now module_name.now)) }
    ensures begun { OnErr result (IsBegun (F.told files.old) (F.told files.new) file.now (header_text_of module.now module_name.now)) }
    ensures reads { F.read_faults files.new ≡ F.read_faults files.old }
    ensures cause { WriteCause (F.write_faults files.old) (F.write_faults files.new) result }
    ensures named { IsErrOf result writing.Failed → F.fault_name files.new ≡ Some file.now }
    ensures passed { OnOk result (Passes (F.trace files.old) (F.trace files.new)
        (WritesFile file.now (header_text_of module.now module_name.now))) }
    ensures tried { IfErr result (λ why. Passes (F.trace files.old) (F.trace files.new)
        (BreaksOff file.now (header_text_of module.now module_name.now) why)) }
{
    files.begin(file)?;
    if let Err(answer) = write_header(alloc, module, module_name, files) {
        give_up(files);
        return Err(answer);
    }
    files.finish()
}
