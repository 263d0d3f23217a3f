// Writes the lines of the tables of a unit.
ghost use Rattle.std.specs.Prelude.{◌≡◌, ◌<◌, flat_map, length, map, IfOk};
ghost use Rattle.std.specs.List.{range_with_len};
ghost use Rattle.w2c_base.specs.Lookup.{at_index};
ghost use Rattle.c_tree.specs.View.{unit_of};
ghost use Rattle.crun_startup.specs.declared.names.ObjectKind.TheVariants as kinds;
ghost use Rattle.crun_startup.specs.Names.{names_in, naming_of};
ghost use Rattle.c_hosts.specs.Asking.{hosts_of};
ghost use Rattle.crun_lines.specs.Views.{entry_of};
ghost use Rattle.crun_state.specs.Showing.{entry_at, length_and_elements, lines_at, lines_at_place, lines_in_order, table_cell_lines};
ghost use Rattle.program_words.specs.Writing.{Writes};

use crate::names::ordered_names;
use crate::naming::function_in;
use crate::places::at;
use c_hosts::HostModule;
use c_objects::{Entry, UnitObjects};
use c_rules::CheckedUnit;
use c_tree::Item;
use crun_lines::{Numbered, element_line, length_line};
use crun_startup::ObjectKind;
use program_words::put_line;
use std::alloc::Global;
use w2c_base::{Bytes, Memory};
use w2c_io::{Sink, WriteAnswer};

/// The lines of the tables of a unit, in the order of the names that its items declare: of each its length, and its elements that
/// are not empty.
pub fn show_tables<H: HostModule, O: Sink>(
    alloc: Global,
    units: &[CheckedUnit],
    hosts: &[H],
    unit: usize,
    items: &[Item],
    own: &UnitObjects,
    out: &mut O,
) -> Result<(), WriteAnswer>
    ensures { Writes (O.told out.old) (O.told out.new) (O.faults out.old) (O.faults out.new)
        (lines_in_order (table_cell_lines (hosts_of H.HostModule hosts.now) (naming_of (map unit_of units.now)) unit)
        (names_in kinds.Table (unit_of items.now)) own.now.tables.items) result }
{
    match ordered_names(alloc, ObjectKind::Table, items) {
        Ok(names) => {
            match show_in_order(alloc, units, hosts, unit, names.as_slice(), own, out) {
                Ok(()) => Ok(()),
                Err(answer) => Err(answer),
            }
        }
        Err(Memory) => Err(WriteAnswer::Memory),
    }
}

fn show_in_order<H: HostModule, O: Sink>(
    alloc: Global,
    units: &[CheckedUnit],
    hosts: &[H],
    unit: usize,
    names: &[Numbered<'_>],
    own: &UnitObjects,
    out: &mut O,
) -> Result<(), WriteAnswer>
    ensures { Writes (O.told out.old) (O.told out.new) (O.faults out.old) (O.faults out.new)
        (flat_map (lines_at (table_cell_lines (hosts_of H.HostModule hosts.now) (naming_of (map unit_of units.now)) unit) own.now.tables.items)
        (map entry_of names.now)) result }
{
    for k in 0..names.len() {
        match show_named(alloc, units, hosts, unit, names, k, own, out) {
            Ok(()) => {}
            Err(answer) => return Err(answer),
        }
    }
    Ok(())
}

// The table of the name at a place.
fn show_named<H: HostModule, O: Sink>(
    alloc: Global,
    units: &[CheckedUnit],
    hosts: &[H],
    unit: usize,
    names: &[Numbered<'_>],
    k: usize,
    own: &UnitObjects,
    out: &mut O,
) -> Result<(), WriteAnswer>
    requires there { k < length names.now }
    ensures { Writes (O.told out.old) (O.told out.new) (O.faults out.old) (O.faults out.new)
        (lines_at (table_cell_lines (hosts_of H.HostModule hosts.now) (naming_of (map unit_of units.now)) unit) own.now.tables.items
        (entry_at names.now k)) result }
{
    let entry = names[k];
    match at(own.tables.as_slice(), entry.number) {
        Some(table) => {
            let elements = table.elements.as_slice();
            show_length(alloc, units, hosts, unit, entry.name, elements, out)
        }
        None => Ok(()),
    }
}

fn show_length<H: HostModule, O: Sink>(
    alloc: Global,
    units: &[CheckedUnit],
    hosts: &[H],
    unit: usize,
    name: &[u8],
    elements: &[Option<Entry>],
    out: &mut O,
) -> Result<(), WriteAnswer>
    ensures { Writes (O.told out.old) (O.told out.new) (O.faults out.old) (O.faults out.new)
        (length_and_elements (hosts_of H.HostModule hosts.now) (naming_of (map unit_of units.now)) unit name.now elements.now) result }
{
    match put_line(length_line(alloc, unit, name, elements.len()), out) {
        Ok(()) => match show_elements(alloc, units, hosts, unit, name, elements, out) {
            Ok(()) => Ok(()),
            Err(answer) => Err(answer),
        },
        Err(answer) => Err(answer),
    }
}

fn show_elements<H: HostModule, O: Sink>(
    alloc: Global,
    units: &[CheckedUnit],
    hosts: &[H],
    unit: usize,
    name: &[u8],
    elements: &[Option<Entry>],
    out: &mut O,
) -> Result<(), WriteAnswer>
    ensures { Writes (O.told out.old) (O.told out.new) (O.faults out.old) (O.faults out.new)
        (flat_map (lines_at_place (hosts_of H.HostModule hosts.now) (naming_of (map unit_of units.now)) unit name.now elements.now)
        (range_with_len 0 (length elements.now))) result }
{
    for place in 0..elements.len() {
        match put_line(
            line_at_place(alloc, units, hosts, unit, name, elements, place),
            out,
        ) {
            Ok(()) => {}
            Err(answer) => return Err(answer),
        }
    }
    Ok(())
}

// The line of the element at a place, which is empty where the element is.
fn line_at_place<H: HostModule>(
    alloc: Global,
    units: &[CheckedUnit],
    hosts: &[H],
    unit: usize,
    name: &[u8],
    elements: &[Option<Entry>],
    place: usize,
) -> Result<Bytes, Memory>
    ensures { IfOk result (λ line. line ≡ lines_at_place (hosts_of H.HostModule hosts.now) (naming_of (map unit_of units.now)) unit name.now elements.now place) }
{
    match element(elements, place) {
        Some(entry) => {
            let function = function_in(units, hosts, entry.func);
            element_line(alloc, unit, name, place, function, entry.signature)
        }
        None => Ok(Bytes::new(alloc)),
    }
}

fn element(elements: &[Option<Entry>], place: usize) -> Option<Entry>
    ensures { result ≡ at_index elements.now place }
{
    let entry = at(elements, place)?;
    *entry
}
