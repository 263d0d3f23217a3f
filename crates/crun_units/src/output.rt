// A unit that a line asks for, written into the file that the line names.
ghost use Rattle.std.specs.Prelude.{◌≡◌, ◌≤◌, IfErr, OnOk};
ghost use Rattle.w2c_io.specs.Contents.{holding};
ghost use Rattle.w2c_io.specs.Passed.{Passes};
ghost use Rattle.c_tree.specs.Spelled.{CSpells};
ghost use Rattle.c_tree.specs.View.{unit_of};
ghost use Rattle.c_print.specs.Print.{print_of};
ghost use Rattle.crun_job.specs.Seen.{reason_of};
ghost use Rattle.crun_units.specs.Files.{files_seen};
ghost use Rattle.crun_units.specs.Output.{StopsOutput};
ghost use Rattle.crun_units.specs.Passing.{WritesUnit};
ghost use Rattle.crun_units.specs.Trying.{done_by, stopped_by};

use c_rules::CheckedUnit;
use crun_job::Stop;
use std::alloc::Global;
use unit_file::write_unit;
use w2c_io::{Files, WriteAnswer};

/// Writes the file with the text of a unit, which spells the unit.
///
/// # Errors
///
/// `Unwritten` where the file failed, `Memory` where memory was wanting. The file is untouched then, or holds a prefix of
/// the text.
pub fn write_output<F: Files>(
    alloc: Global,
    output: &str,
    unit: &CheckedUnit,
    files: &mut F,
) -> Result<(), Stop>
    ensures whole { OnOk result (F.told files.new ≡ holding (F.told files.old) output.now (print_of (unit_of unit.now))) }
    ensures spells { CSpells (unit_of unit.now) (print_of (unit_of unit.now)) }
    ensures stop { IfErr result (λ stop. StopsOutput (unit_of unit.now) output.now
        (files_seen F.Files files.old) (files_seen F.Files files.new) (reason_of stop)) }
    ensures reads { F.read_faults files.new ≡ F.read_faults files.old }
    ensures writes { F.write_faults files.old ≤ F.write_faults files.new }
    ensures kept { OnOk result (F.write_faults files.new ≡ F.write_faults files.old) }
    ensures passed { Passes (F.trace files.old) (F.trace files.new)
        (WritesUnit (done_by result) (stopped_by result) output.now (unit_of unit.now)) }
{
    match write_unit(alloc, output, unit, files) {
        Ok(()) => Ok(()),
        Err(WriteAnswer::Failed) => Err(Stop::Unwritten),
        Err(WriteAnswer::Memory) => Err(Stop::Memory),
    }
}
