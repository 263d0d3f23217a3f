// The form --merge: linked units are written as one.
ghost use Rattle.std.specs.Prelude.{◌≡◌, ◌≤◌, ◌⊎◌, ℕ, List, IfErr, IfOk, OnOk, vec_len};
ghost use Rattle.w2c_io.specs.Contents.{holding};
ghost use Rattle.w2c_io.specs.Passed.{Passes};
ghost use Rattle.w2c_io.specs.Telling.{Tells};
ghost use Rattle.c_tree.specs.Spelled.{CSpells};
ghost use Rattle.c_tree.specs.Tree as tree;
ghost use Rattle.c_tree.specs.View.{unit_of};
ghost use Rattle.c_print.specs.Print.{print_of};
ghost use Rattle.c_link.specs.Offers.{c_symbols};
ghost use Rattle.crun_words.specs.Seen.{seen_merge};
ghost use Rattle.crun_job.specs.Job.{Write};
ghost use Rattle.crun_job.specs.Seen.{reason_of};
ghost use Rattle.crun_units.specs.Jobs.{IsMerged, IsMergeJob};
ghost use Rattle.crun_units.specs.Files.{files_seen};
ghost use Rattle.crun_units.specs.Passing.{IsUnitsJobOver, PassesUnits};
ghost use Rattle.crun_units.specs.Stopping.{StopsWrite};
ghost use Rattle.crun_units.specs.Trying.{done_by, stopped_by, TriesUnit};

use crate::output::write_output;
use c_link::HostSymbol;
use c_merge::merge;
use c_rules::CheckedUnit;
use crun_job::{Stop, link_units, stop_at, stop_of};
use crun_words::{MergeLine, read_units};
use std::alloc::Global;
use w2c_base::Memory;
use w2c_io::Files;

/// Reads the units of a line, links them with the symbols of hosts, and writes them as one unit into the file that the line
/// names.
///
/// # Errors
///
/// The first refusal ends it, and then nothing is written: `Unread` where a unit's file is not read, `Refused` where it is too
/// long, spells no unit, breaks a rule, or is refused by the linker. `Unwritten` where the file failed, which is untouched then
/// or holds a prefix of the text, as it may be where memory was wanting (`Memory`).
pub fn merge_units<F: Files>(
    alloc: Global,
    line: &MergeLine<'_>,
    hosts: &[HostSymbol],
    files: &mut F,
) -> Result<(), Stop>
    requires few { vec_len line.now.units ≤ 16 }
    ensures wrote { OnOk result (Tells (F.told files.old) (λ m. (unit : List tree.Item)
        × IsMergeJob (seen_merge line.now) (c_symbols hosts.now) m (Write (seen_merge line.now).output unit)
        × CSpells unit (print_of unit)
        × (F.told files.new ≡ holding (F.told files.old) (seen_merge line.now).output (print_of unit)))) }
    ensures stop { IfErr result (λ stop. StopsWrite (IsMergeJob (seen_merge line.now) (c_symbols hosts.now)) (seen_merge line.now).units
        (seen_merge line.now).output (files_seen F.Files files.old) (files_seen F.Files files.new) (reason_of stop)) }
    ensures reads { F.read_faults files.old ≤ F.read_faults files.new }
    ensures writes { F.write_faults files.old ≤ F.write_faults files.new }
    ensures reads_kept { OnOk result (F.read_faults files.new ≡ F.read_faults files.old) }
    ensures writes_kept { OnOk result (F.write_faults files.new ≡ F.write_faults files.old) }
    ensures kept { (F.told files.new ≡ F.told files.old)
        ⊎ ((text : List ℕ) × (F.told files.new ≡ holding (F.told files.old) (seen_merge line.now).output text)) }
    // What passed through the files, those of the system too.
    ensures passed { Passes (F.trace files.old) (F.trace files.new)
        (PassesUnits (seen_merge line.now).units (IsMerged (seen_merge line.now) (c_symbols hosts.now))
        (done_by result) (stopped_by result)) }
{
    let one = match merged_unit(alloc, line, hosts, files) {
        Ok(one) => one,
        Err(stop) => return Err(stop),
    };
    match write_output(alloc, line.output, &one, files) {
        Ok(()) => Ok(()),
        Err(stop) => Err(stop),
    }
}

// The one unit that the units of a line become.
fn merged_unit<F: Files>(
    alloc: Global,
    line: &MergeLine<'_>,
    hosts: &[HostSymbol],
    files: &mut F,
) -> Result<CheckedUnit, Stop>
    requires few { vec_len line.now.units ≤ 16 }
    ensures unit { IfOk result (λ one. Tells (F.told files.old)
        (λ m. IsMergeJob (seen_merge line.now) (c_symbols hosts.now) m (Write (seen_merge line.now).output (unit_of one)))) }
    ensures stop { IfErr result (λ stop. StopsWrite (IsMergeJob (seen_merge line.now) (c_symbols hosts.now)) (seen_merge line.now).units
        (seen_merge line.now).output (files_seen F.Files files.old) (files_seen F.Files files.new) (reason_of stop)) }
    ensures told { F.told files.new ≡ F.told files.old }
    ensures current { F.current files.new ≡ F.current files.old }
    ensures later { F.read_faults files.old ≤ F.read_faults files.new }
    ensures kept { OnOk result (F.read_faults files.new ≡ F.read_faults files.old) }
    ensures writes { F.write_faults files.new ≡ F.write_faults files.old }
    ensures passed { IfOk result (λ one. Passes (F.trace files.old) (F.trace files.new) (λ events.
        IsUnitsJobOver (seen_merge line.now).units (IsMerged (seen_merge line.now) (c_symbols hosts.now)) events
        (Write (seen_merge line.now).output (unit_of one)))) }
    ensures tried { IfErr result (λ stop. Passes (F.trace files.old) (F.trace files.new)
        (TriesUnit (seen_merge line.now).units (IsMerged (seen_merge line.now) (c_symbols hosts.now)) (reason_of stop))) }
{
    let texts = match read_units(alloc, line.units.as_slice(), files) {
        Ok(texts) => texts,
        Err(stop) => return Err(stop_of(stop)),
    };
    let linked = match link_units(alloc, texts.as_slice(), hosts) {
        Ok(linked) => linked,
        Err(refusal) => return Err(stop_at(alloc, line.units.as_slice(), refusal)),
    };
    match merge(alloc, &linked) {
        Ok(one) => Ok(one),
        Err(Memory) => Err(Stop::Memory),
    }
}
