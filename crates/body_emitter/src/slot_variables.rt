// The variables behind the locals of a function: its slots, and one for an element.
ghost use Rattle.std.specs.Prelude.{◌≡◌, ◌++◌, OnOk};
ghost use Rattle.body_emitter.specs.SlotVariables as slot_variables;

use crate::mark::Mark;
use body_forms::{slot, zero_local};
use c_tree::{CType, Locals, Num, name_of};
use std::alloc::Global;
use w2c_base::{Memory, ValType};

fn put_slot_if(
    alloc: Global,
    locals: &mut Locals,
    marked: bool,
    ty: ValType,
    height: usize,
) -> Result<(), Memory>
    ensures { OnOk result (locals.new ≡ locals.old ++ slot_variables.slot_if marked ty height) }
{
    if marked {
        locals.push(zero_local(ty, slot(alloc, ty, height)?))?;
    }
    Ok(())
}

/// The slots of a type that occurred come behind the other variables.
pub fn put_slots(
    alloc: Global,
    locals: &mut Locals,
    ty: ValType,
    marks: &[Mark],
) -> Result<(), Memory>
    ensures { OnOk result (locals.new ≡ locals.old ++ slot_variables.slots_from ty 0 marks.now) }
{
    let mut height = 0usize;
    for mark in marks {
        put_slot_if(alloc, locals, mark.has(ty), ty, height)?;
        height += 1;
    }
    Ok(())
}

/// The variable for an element that is called.
pub fn put_element(alloc: Global, locals: &mut Locals, is_indirect: bool) -> Result<(), Memory>
    ensures { OnOk result (locals.new ≡ locals.old ++ slot_variables.element_if is_indirect) }
{
    if is_indirect {
        locals.push((CType::FnPtr, name_of(alloc, b"e")?, Num::Plain(0)))?;
    }
    Ok(())
}
