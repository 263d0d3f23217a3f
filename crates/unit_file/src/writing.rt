// The text of a checked unit, written into a file an item at a time.
ghost use Rattle.std.specs.Prelude.{◌≡◌, Some, None, IsSome, OnOk, OnErr, IfErr, IsErrOf};
ghost use Rattle.w2c_io.specs.declared.answers.WriteAnswer.TheVariants as writing;
ghost use Rattle.w2c_io.specs.Contents.{holding, appending, AppendsPart};
ghost use Rattle.w2c_io.specs.Causes.{WriteCause, name_after_write};
ghost use Rattle.w2c_io.specs.Passed.{Passes, PutsText, PutsPart, WritesFile, BreaksOff};
ghost use Rattle.w2c_files.specs.Standing.{IsBegun};
ghost use Rattle.c_tree.specs.View.{unit_of};
ghost use Rattle.c_tree.specs.Spelled.{CSpells};
ghost use Rattle.c_print.specs.Print.{print_of};

use c_print::{print_item_to, printed_units_are_read_again};
use c_rules::CheckedUnit;
use c_tree::Tok;
use std::alloc::Global;
use w2c_files::give_up;
use w2c_io::{Files, WriteAnswer};

/// Writes a file with the text of a unit: the include line, then each item. The text spells the unit. The text of one
/// item is held at a time.
///
/// # Errors
///
/// `Failed` where the file failed, `Memory` where memory was wanting. The file is untouched then, or holds a prefix of
/// the text.
pub fn write_unit<F: Files>(
    alloc: Global,
    file: &str,
    unit: &CheckedUnit,
    files: &mut F,
) -> Result<(), WriteAnswer>
    ensures whole { OnOk result (F.told files.new ≡ holding (F.told files.old) file.now (print_of (unit_of unit.now))) }
    ensures spells { CSpells (unit_of unit.now) (print_of (unit_of unit.now)) }
    ensures begun { OnErr result (IsBegun (F.told files.old) (F.told files.new) file.now (print_of (unit_of unit.now))) }
    ensures closed { OnOk result (F.current files.new ≡ None) }
    ensures cause { WriteCause (F.write_faults files.old) (F.write_faults files.new) result }
    ensures named { IsErrOf result writing.Failed → F.fault_name files.new ≡ Some file.now }
    ensures reads { F.read_faults files.new ≡ F.read_faults files.old }
    // What passed through the files, those of the system too.
    ensures passed { OnOk result (Passes (F.trace files.old) (F.trace files.new) (WritesFile file.now (print_of (unit_of unit.now)))) }
    ensures tried { IfErr result (λ why. Passes (F.trace files.old) (F.trace files.new)
        (BreaksOff file.now (print_of (unit_of unit.now)) why)) }
{
    // The unit is one that some text spells, so its printed text does.
    let _ = unit.unit();
    printed_units_are_read_again();
    files.begin(file)?;
    if let Err(answer) = put_unit(alloc, unit, files) {
        give_up(files);
        return Err(answer);
    }
    files.finish()?;
    Ok(())
}

// Appends the text of a unit to the current file.
fn put_unit<F: Files>(alloc: Global, unit: &CheckedUnit, files: &mut F) -> Result<(), WriteAnswer>
    requires current { IsSome (F.current files.old) }
    ensures written { OnOk result (F.told files.new
        ≡ appending (F.told files.old) (F.current files.old) (print_of (unit_of unit.now))) }
    ensures part { OnErr result (AppendsPart (F.told files.old) (F.told files.new) (F.current files.old)
        (print_of (unit_of unit.now))) }
    ensures current { F.current files.new ≡ F.current files.old }
    ensures cause { WriteCause (F.write_faults files.old) (F.write_faults files.new) result }
    ensures fault { F.fault_name files.new ≡ name_after_write result (F.current files.old) (F.fault_name files.old) }
    ensures reads { F.read_faults files.new ≡ F.read_faults files.old }
    ensures passed { OnOk result (Passes (F.trace files.old) (F.trace files.new) (PutsText (print_of (unit_of unit.now)))) }
    ensures tried { IfErr result (λ why. Passes (F.trace files.old) (F.trace files.new) (PutsPart (print_of (unit_of unit.now)) why)) }
{
    let items = unit.unit();
    files.put(Tok::Include.text())?;
    for item in items.as_slice() {
        print_item_to(alloc, item, files)?;
    }
    Ok(())
}
