// Writes the state: the objects of each unit, in the order of their names.
ghost use Rattle.std.specs.Prelude.{map};
ghost use Rattle.c_tree.specs.View.{unit_of};
ghost use Rattle.c_objects.specs.Stores.{units_of, AreStored};
ghost use Rattle.crun_startup.specs.Names.{naming_of};
ghost use Rattle.c_hosts.specs.Asking.{hosts_of};
ghost use Rattle.crun_lines.specs.StateLines.{state_lines};
ghost use Rattle.crun_state.specs.Showing.{items_at, lines_of_objects, lines_of_unit};
ghost use Rattle.program_words.specs.Writing.{Writes};

use crate::memories::show_memories;
use crate::places::at;
use crate::tables::show_tables;
use crate::variables::show_variables;
use c_hosts::HostModule;
use c_objects::UnitObjects;
use c_rules::CheckedUnit;
use c_tree::Item;
use std::alloc::Global;
use w2c_io::{Sink, WriteAnswer};

/// Writes the lines of the state of units that run with hosts, which have these objects: unit by unit the variables that hold
/// numbers, then the memories, then the tables.
///
/// # Errors
///
/// `Failed` where the stream failed, `Memory` where memory was wanting; then a prefix of the lines is written.
pub fn show_state<H: HostModule, O: Sink>(
    alloc: Global,
    units: &[CheckedUnit],
    hosts: &[H],
    objects: &[UnitObjects],
    out: &mut O,
) -> Result<(), WriteAnswer>
    requires stored { AreStored (naming_of (map unit_of units.now)) objects.now }
    ensures { Writes (O.told out.old) (O.told out.new) (O.faults out.old) (O.faults out.new)
        (state_lines (hosts_of H.HostModule hosts.now) (units_of (naming_of (map unit_of units.now)) (naming_of (map unit_of units.now)) objects.now)) result }
{
    for unit in 0..units.len() {
        match show_unit(alloc, units, hosts, unit, objects, out) {
            Ok(()) => {}
            Err(answer) => return Err(answer),
        }
    }
    Ok(())
}

// The objects of the unit with a number.
fn show_unit<H: HostModule, O: Sink>(
    alloc: Global,
    units: &[CheckedUnit],
    hosts: &[H],
    unit: usize,
    objects: &[UnitObjects],
    out: &mut O,
) -> Result<(), WriteAnswer>
    ensures { Writes (O.told out.old) (O.told out.new) (O.faults out.old) (O.faults out.new)
        (lines_of_unit (hosts_of H.HostModule hosts.now) (map unit_of units.now) objects.now unit) result }
{
    match at(objects, unit) {
        Some(own) => show_objects(alloc, units, hosts, unit, own, out),
        None => Ok(()),
    }
}

// These objects, by the names that the unit with the number declares.
fn show_objects<H: HostModule, O: Sink>(
    alloc: Global,
    units: &[CheckedUnit],
    hosts: &[H],
    unit: usize,
    own: &UnitObjects,
    out: &mut O,
) -> Result<(), WriteAnswer>
    ensures { Writes (O.told out.old) (O.told out.new) (O.faults out.old) (O.faults out.new)
        (lines_of_objects (hosts_of H.HostModule hosts.now) (map unit_of units.now) unit (items_at (map unit_of units.now) unit) own.now) result }
{
    match at(units, unit) {
        Some(named) => show_items(alloc, units, hosts, unit, named.unit().as_slice(), own, out),
        None => Ok(()),
    }
}

// By the names that these items declare.
fn show_items<H: HostModule, O: Sink>(
    alloc: Global,
    units: &[CheckedUnit],
    hosts: &[H],
    unit: usize,
    items: &[Item],
    own: &UnitObjects,
    out: &mut O,
) -> Result<(), WriteAnswer>
    ensures { Writes (O.told out.old) (O.told out.new) (O.faults out.old) (O.faults out.new)
        (lines_of_objects (hosts_of H.HostModule hosts.now) (map unit_of units.now) unit (unit_of items.now) own.now) result }
{
    match show_variables(alloc, unit, items, own, out) {
        Ok(()) => {}
        Err(answer) => return Err(answer),
    }
    match show_memories(alloc, unit, items, own, out) {
        Ok(()) => {}
        Err(answer) => return Err(answer),
    }
    match show_tables(alloc, units, hosts, unit, items, own, out) {
        Ok(()) => Ok(()),
        Err(answer) => Err(answer),
    }
}
