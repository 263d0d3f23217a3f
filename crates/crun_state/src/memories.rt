// Writes the lines of the memories of a unit.
ghost use Rattle.std.specs.Prelude.{◌<◌, [], flat_map, length, map};
ghost use Rattle.c_tree.specs.View.{unit_of};
ghost use Rattle.crun_startup.specs.declared.names.ObjectKind.TheVariants as kinds;
ghost use Rattle.crun_startup.specs.Names.{names_in};
ghost use Rattle.crun_lines.specs.StateLines.{row_lines};
ghost use Rattle.crun_lines.specs.Views.{entry_of};
ghost use Rattle.crun_state.specs.Showing.{cell_lines, entry_at, lines_at, lines_in_order, pages_and_rows};
ghost use Rattle.program_words.specs.Writing.{Writes};

use crate::names::ordered_names;
use crate::places::at;
use c_objects::{MemoryCell, UnitObjects};
use c_tree::Item;
use crun_lines::{Numbered, pages_line, row_count, row_line};
use crun_startup::ObjectKind;
use lin_mem::LinMem;
use program_words::put_line;
use std::alloc::Global;
use w2c_base::Memory;
use w2c_io::{Sink, WriteAnswer};

/// The lines of the memories of a unit, in the order of the names that its items declare: of each its pages, and its rows that are
/// not zero.
pub fn show_memories<O: Sink>(
    alloc: Global,
    unit: usize,
    items: &[Item],
    own: &UnitObjects,
    out: &mut O,
) -> Result<(), WriteAnswer>
    ensures { Writes (O.told out.old) (O.told out.new) (O.faults out.old) (O.faults out.new)
        (lines_in_order (cell_lines unit) (names_in kinds.Memory (unit_of items.now)) own.now.memories.items) result }
{
    match ordered_names(alloc, ObjectKind::Memory, items) {
        Ok(names) => match show_in_order(alloc, unit, names.as_slice(), own, out) {
            Ok(()) => Ok(()),
            Err(answer) => Err(answer),
        },
        Err(Memory) => Err(WriteAnswer::Memory),
    }
}

fn show_in_order<O: Sink>(
    alloc: Global,
    unit: usize,
    names: &[Numbered<'_>],
    own: &UnitObjects,
    out: &mut O,
) -> Result<(), WriteAnswer>
    ensures { Writes (O.told out.old) (O.told out.new) (O.faults out.old) (O.faults out.new)
        (flat_map (lines_at (cell_lines unit) own.now.memories.items) (map entry_of names.now)) result }
{
    for k in 0..names.len() {
        match show_named(alloc, unit, names, k, own, out) {
            Ok(()) => {}
            Err(answer) => return Err(answer),
        }
    }
    Ok(())
}

// The memory of the name at a place.
fn show_named<O: Sink>(
    alloc: Global,
    unit: usize,
    names: &[Numbered<'_>],
    k: usize,
    own: &UnitObjects,
    out: &mut O,
) -> Result<(), WriteAnswer>
    requires there { k < length names.now }
    ensures { Writes (O.told out.old) (O.told out.new) (O.faults out.old) (O.faults out.new)
        (lines_at (cell_lines unit) own.now.memories.items (entry_at names.now k)) result }
{
    let entry = names[k];
    match at(own.memories.as_slice(), entry.number) {
        Some(cell) => show_cell(alloc, unit, entry.name, cell, out),
        None => Ok(()),
    }
}

// One that was not made has no bytes.
fn show_cell<O: Sink>(
    alloc: Global,
    unit: usize,
    name: &[u8],
    cell: &MemoryCell,
    out: &mut O,
) -> Result<(), WriteAnswer>
    ensures { Writes (O.told out.old) (O.told out.new) (O.faults out.old) (O.faults out.new) (cell_lines unit (name.now, cell.now)) result }
{
    match cell {
        MemoryCell::NotMade => show_no_bytes(alloc, unit, name, out),
        MemoryCell::Made(memory) => show_pages(alloc, unit, name, memory, out),
    }
}

fn show_no_bytes<O: Sink>(
    alloc: Global,
    unit: usize,
    name: &[u8],
    out: &mut O,
) -> Result<(), WriteAnswer>
    ensures { Writes (O.told out.old) (O.told out.new) (O.faults out.old) (O.faults out.new) (pages_and_rows unit name.now []) result }
{
    match LinMem::new(alloc, 0, Some(0)) {
        Ok(memory) => show_pages(alloc, unit, name, &memory, out),
        Err(Memory) => Err(WriteAnswer::Memory),
    }
}

fn show_pages<O: Sink>(
    alloc: Global,
    unit: usize,
    name: &[u8],
    memory: &LinMem,
    out: &mut O,
) -> Result<(), WriteAnswer>
    ensures { Writes (O.told out.old) (O.told out.new) (O.faults out.old) (O.faults out.new)
        (pages_and_rows unit name.now memory.now.bytes) result }
{
    match put_line(pages_line(alloc, unit, name, memory), out) {
        Ok(()) => match show_rows(alloc, unit, name, memory, out) {
            Ok(()) => Ok(()),
            Err(answer) => Err(answer),
        },
        Err(answer) => Err(answer),
    }
}

fn show_rows<O: Sink>(
    alloc: Global,
    unit: usize,
    name: &[u8],
    memory: &LinMem,
    out: &mut O,
) -> Result<(), WriteAnswer>
    ensures { Writes (O.told out.old) (O.told out.new) (O.faults out.old) (O.faults out.new)
        (row_lines unit name.now memory.now.bytes) result }
{
    for row in 0..row_count(memory) {
        match put_line(row_line(alloc, unit, name, memory, row), out) {
            Ok(()) => {}
            Err(answer) => return Err(answer),
        }
    }
    Ok(())
}
