// The form --trim: a unit is written without the static functions that nothing needs.
ghost use Rattle.std.specs.Prelude.{◌≡◌, ◌≤◌, ◌⊎◌, ℕ, List, [], ◌∷◌, IfErr, IfOk, OnOk};
ghost use Rattle.w2c_io.specs.Contents.{holding};
ghost use Rattle.w2c_io.specs.Passed.{Passes};
ghost use Rattle.w2c_io.specs.Telling.{Tells};
ghost use Rattle.c_tree.specs.Spelled.{CSpells};
ghost use Rattle.c_tree.specs.Tree as tree;
ghost use Rattle.c_tree.specs.View.{unit_of};
ghost use Rattle.c_print.specs.Print.{print_of};
ghost use Rattle.crun_words.specs.Seen.{seen_trim};
ghost use Rattle.crun_job.specs.Job.{Write};
ghost use Rattle.crun_job.specs.Seen.{reason_of};
ghost use Rattle.crun_units.specs.Jobs.{IsTrimmedText, IsTrimJob};
ghost use Rattle.crun_units.specs.Files.{files_seen};
ghost use Rattle.crun_units.specs.Passing.{IsUnitsJobOver, PassesUnits};
ghost use Rattle.crun_units.specs.Stopping.{StopsWrite};
ghost use Rattle.crun_units.specs.Trying.{done_by, stopped_by, TriesUnit};

use crate::output::write_output;
use c_rules::CheckedUnit;
use c_trim::trim;
use crun_job::{Stop, check_units, stop_at, stop_of};
use crun_words::{TrimLine, read_units};
use std::alloc::Global;
use w2c_base::Memory;
use w2c_io::Files;

/// Reads the unit of a line, and writes it without the static functions that nothing needs into the file that the line
/// names.
///
/// # Errors
///
/// A refusal ends it, and then nothing is written: `Unread` where the unit's file is not read, `Refused` where it is too long,
/// spells no unit or breaks a rule. `Unwritten` where the file failed, which is untouched then or holds a prefix of the text,
/// as it may be where memory was wanting (`Memory`).
pub fn trim_unit<F: Files>(alloc: Global, line: &TrimLine<'_>, files: &mut F) -> Result<(), Stop>
    ensures wrote { OnOk result (Tells (F.told files.old) (λ m. (unit : List tree.Item)
        × IsTrimJob (seen_trim line.now) m (Write (seen_trim line.now).output unit)
        × CSpells unit (print_of unit)
        × (F.told files.new ≡ holding (F.told files.old) (seen_trim line.now).output (print_of unit)))) }
    ensures stop { IfErr result (λ stop. StopsWrite (IsTrimJob (seen_trim line.now)) ((seen_trim line.now).unit ∷ [])
        (seen_trim line.now).output (files_seen F.Files files.old) (files_seen F.Files files.new) (reason_of stop)) }
    ensures reads { F.read_faults files.old ≤ F.read_faults files.new }
    ensures writes { F.write_faults files.old ≤ F.write_faults files.new }
    ensures reads_kept { OnOk result (F.read_faults files.new ≡ F.read_faults files.old) }
    ensures writes_kept { OnOk result (F.write_faults files.new ≡ F.write_faults files.old) }
    ensures kept { (F.told files.new ≡ F.told files.old)
        ⊎ ((text : List ℕ) × (F.told files.new ≡ holding (F.told files.old) (seen_trim line.now).output text)) }
    // What passed through the files, those of the system too.
    ensures passed { Passes (F.trace files.old) (F.trace files.new)
        (PassesUnits ((seen_trim line.now).unit ∷ []) (IsTrimmedText (seen_trim line.now)) (done_by result) (stopped_by result)) }
{
    let trimmed = match trimmed_unit(alloc, line, files) {
        Ok(trimmed) => trimmed,
        Err(stop) => return Err(stop),
    };
    match write_output(alloc, line.output, &trimmed, files) {
        Ok(()) => Ok(()),
        Err(stop) => Err(stop),
    }
}

// The unit of a line, trimmed.
fn trimmed_unit<F: Files>(
    alloc: Global,
    line: &TrimLine<'_>,
    files: &mut F,
) -> Result<CheckedUnit, Stop>
    ensures unit { IfOk result (λ trimmed. Tells (F.told files.old)
        (λ m. IsTrimJob (seen_trim line.now) m (Write (seen_trim line.now).output (unit_of trimmed)))) }
    ensures stop { IfErr result (λ stop. StopsWrite (IsTrimJob (seen_trim line.now)) ((seen_trim line.now).unit ∷ [])
        (seen_trim line.now).output (files_seen F.Files files.old) (files_seen F.Files files.new) (reason_of stop)) }
    ensures told { F.told files.new ≡ F.told files.old }
    ensures current { F.current files.new ≡ F.current files.old }
    ensures later { F.read_faults files.old ≤ F.read_faults files.new }
    ensures kept { OnOk result (F.read_faults files.new ≡ F.read_faults files.old) }
    ensures writes { F.write_faults files.new ≡ F.write_faults files.old }
    ensures passed { IfOk result (λ trimmed. Passes (F.trace files.old) (F.trace files.new) (λ events.
        IsUnitsJobOver ((seen_trim line.now).unit ∷ []) (IsTrimmedText (seen_trim line.now)) events
        (Write (seen_trim line.now).output (unit_of trimmed)))) }
    ensures tried { IfErr result (λ stop. Passes (F.trace files.old) (F.trace files.new)
        (TriesUnit ((seen_trim line.now).unit ∷ []) (IsTrimmedText (seen_trim line.now)) (reason_of stop))) }
{
    let names = [line.unit];
    let texts = match read_units(alloc, &names, files) {
        Ok(texts) => texts,
        Err(stop) => return Err(stop_of(stop)),
    };
    let units = match check_units(alloc, texts.as_slice()) {
        Ok(units) => units,
        Err(refusal) => return Err(stop_at(alloc, &names, refusal)),
    };
    let checked = units.as_slice();
    match trim(alloc, &checked[0]) {
        Ok(trimmed) => Ok(trimmed),
        Err(Memory) => Err(Stop::Memory),
    }
}
