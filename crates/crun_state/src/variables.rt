// Writes the lines of the variables of a unit.
ghost use Rattle.std.specs.Prelude.{◌≡◌, ◌<◌, flat_map, length, map, IfOk};
ghost use Rattle.c_tree.specs.View.{unit_of};
ghost use Rattle.crun_startup.specs.declared.names.ObjectKind.TheVariants as kinds;
ghost use Rattle.crun_startup.specs.Names.{names_in};
ghost use Rattle.crun_lines.specs.Views.{entry_of};
ghost use Rattle.crun_state.specs.Showing.{entry_at, held_lines, lines_at, lines_in_order};
ghost use Rattle.program_words.specs.Writing.{Writes};

use crate::names::ordered_names;
use crate::places::at;
use c_objects::{Held, UnitObjects};
use c_tree::Item;
use crun_lines::{Numbered, variable_line};
use crun_startup::ObjectKind;
use program_words::put_line;
use std::alloc::Global;
use w2c_base::{Bytes, Memory};
use w2c_io::{Sink, WriteAnswer};

/// The lines of the variables of a unit that hold numbers, in the order of the names that its items declare.
pub fn show_variables<O: Sink>(
    alloc: Global,
    unit: usize,
    items: &[Item],
    own: &UnitObjects,
    out: &mut O,
) -> Result<(), WriteAnswer>
    ensures { Writes (O.told out.old) (O.told out.new) (O.faults out.old) (O.faults out.new)
        (lines_in_order (held_lines unit) (names_in kinds.Variable (unit_of items.now)) own.now.vars.items) result }
{
    match ordered_names(alloc, ObjectKind::Variable, items) {
        Ok(names) => match show_in_order(alloc, unit, names.as_slice(), own, out) {
            Ok(()) => Ok(()),
            Err(answer) => Err(answer),
        },
        Err(Memory) => Err(WriteAnswer::Memory),
    }
}

fn show_in_order<O: Sink>(
    alloc: Global,
    unit: usize,
    names: &[Numbered<'_>],
    own: &UnitObjects,
    out: &mut O,
) -> Result<(), WriteAnswer>
    ensures { Writes (O.told out.old) (O.told out.new) (O.faults out.old) (O.faults out.new)
        (flat_map (lines_at (held_lines unit) own.now.vars.items) (map entry_of names.now)) result }
{
    for k in 0..names.len() {
        match put_line(line_named(alloc, unit, names, k, own), out) {
            Ok(()) => {}
            Err(answer) => return Err(answer),
        }
    }
    Ok(())
}

// The line of the variable of the name at a place, which is empty where there is none.
fn line_named(
    alloc: Global,
    unit: usize,
    names: &[Numbered<'_>],
    k: usize,
    own: &UnitObjects,
) -> Result<Bytes, Memory>
    requires there { k < length names.now }
    ensures { IfOk result (λ line. line ≡ lines_at (held_lines unit) own.now.vars.items (entry_at names.now k)) }
{
    let entry = names[k];
    match at(own.vars.as_slice(), entry.number) {
        Some(held) => held_line(alloc, unit, entry.name, *held),
        None => Ok(Bytes::new(alloc)),
    }
}

// The line of a variable that holds this, which is empty where that is a pointer.
fn held_line(alloc: Global, unit: usize, name: &[u8], held: Held) -> Result<Bytes, Memory>
    ensures { IfOk result (λ line. line ≡ held_lines unit (name.now, held)) }
{
    match held {
        Held::Number(value) => variable_line(alloc, unit, name, value),
        Held::Pointer(_) => Ok(Bytes::new(alloc)),
        Held::FuncPointer(_) => Ok(Bytes::new(alloc)),
    }
}
