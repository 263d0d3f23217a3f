// The objects of a unit before the first statement.
ghost use Rattle.std.specs.Prelude.{◌≡◌, ◌∷◌, ◌++◌, [], map, filter_map, IfOk, OnOk, option_map};
ghost use Rattle.c_tree.specs.View.{item_of, unit_of};
ghost use Rattle.c_meaning.specs.Machine.{no_table, zero_of};
ghost use Rattle.c_objects.specs.Objects.{memory_of, table_of};
ghost use Rattle.c_objects.specs.Views.{value_of, Naming};
ghost use Rattle.crun_startup.specs.Objects.{first_of, is_of as declares, memory_value, table_value, var_value, AreFirst};

use c_objects::{Held, MemoryCell, TableCell, UnitObjects};
use c_rules::same_type;
use c_thread::initial_value;
use c_tree::{CType, Item, Num};
use std::alloc::Global;
use w2c_base::{Memory, Value};

/// The objects of a unit: variables with their first values, memories and tables that are not made.
pub fn first_objects(alloc: Global, items: &[Item]) -> Result<UnitObjects, Memory>
    ensures { IfOk result (λ o. AreFirst (unit_of items.now) o) }
{
    Ok(UnitObjects {
        vars: first_values(alloc, items)?,
        memories: memories(alloc, items)?,
        tables: tables(alloc, items)?,
    })
}

fn first_values(alloc: Global, items: &[Item]) -> Result<Vec<Held>, Memory>
    ensures { IfOk result (λ vs. (names : Naming) → map (value_of names) vs.items ≡ filter_map var_value (map item_of items.now)) }
{
    let mut values = Vec::new(alloc);
    for item in items {
        put_first_value(&mut values, item)?;
    }
    Ok(values)
}

fn put_first_value(values: &mut Vec<Held>, item: &Item) -> Result<(), Memory>
    ensures { OnOk result ((names : Naming) → map (value_of names) values.new.items
        ≡ map (value_of names) values.old.items ++ filter_map var_value (item_of item.now ∷ [])) }
{
    match first_value(item) {
        Some(value) => {
            values.push(value)?;
            Ok(())
        }
        None => Ok(()),
    }
}

/// What the variable that an item declares holds at first (6.7.9). None where it declares none.
pub fn first_value(item: &Item) -> Option<Held>
    ensures { (names : Naming) → option_map (value_of names) result ≡ var_value (item_of item.now) }
{
    match item {
        Item::Var(ty, _, number) => value_of_var(*ty, number),
        Item::Array(_, _, _) => None,
        Item::Func(_) => None,
    }
}

fn value_of_var(ty: CType, number: &Option<Num>) -> Option<Held>
    ensures { (names : Naming) → option_map (value_of names) result ≡ first_of ty number.now }
{
    match number {
        None => zero(ty),
        Some(number) => initial_value(ty, *number),
    }
}

fn zero(ty: CType) -> Option<Held>
    ensures { (names : Naming) → option_map (value_of names) result ≡ zero_of ty }
{
    match ty {
        CType::U32 => Some(Held::Number(Value::I32(0))),
        CType::U64 => Some(Held::Number(Value::I64(0))),
        CType::PtrU32 => Some(Held::Pointer(None)),
        CType::PtrU64 => Some(Held::Pointer(None)),
        CType::PtrMem => Some(Held::Pointer(None)),
        CType::PtrTab => Some(Held::Pointer(None)),
        CType::FnPtr => Some(Held::FuncPointer(None)),
        CType::Void => None,
        CType::Mem => None,
        CType::Tab => None,
    }
}

/// Whether an item declares a variable of a type.
pub fn is_of(ty: CType, item: &Item) -> bool
    ensures { result ≡ declares ty (item_of item.now) }
{
    match item {
        Item::Var(own, _, _) => same_type(*own, ty),
        Item::Array(_, _, _) => false,
        Item::Func(_) => false,
    }
}

fn memories(alloc: Global, items: &[Item]) -> Result<Vec<MemoryCell>, Memory>
    ensures { IfOk result (λ ms. map memory_of ms.items ≡ filter_map memory_value (map item_of items.now)) }
{
    let mut memories = Vec::new(alloc);
    for item in items {
        put_memory(&mut memories, item)?;
    }
    Ok(memories)
}

fn put_memory(memories: &mut Vec<MemoryCell>, item: &Item) -> Result<(), Memory>
    ensures { OnOk result (map memory_of memories.new.items
        ≡ map memory_of memories.old.items ++ filter_map memory_value (item_of item.now ∷ [])) }
{
    if is_of(CType::Mem, item) {
        memories.push(MemoryCell::NotMade)?;
        Ok(())
    } else {
        Ok(())
    }
}

fn tables(alloc: Global, items: &[Item]) -> Result<Vec<TableCell>, Memory>
    ensures { IfOk result (λ ts. (names : Naming) → map (table_of names) ts.items ≡ filter_map table_value (map item_of items.now)) }
{
    let mut tables = Vec::new(alloc);
    for item in items {
        put_table(alloc, &mut tables, item)?;
    }
    Ok(tables)
}

fn put_table(alloc: Global, tables: &mut Vec<TableCell>, item: &Item) -> Result<(), Memory>
    ensures { OnOk result ((names : Naming) → map (table_of names) tables.new.items
        ≡ map (table_of names) tables.old.items ++ filter_map table_value (item_of item.now ∷ [])) }
{
    if is_of(CType::Tab, item) {
        tables.push(not_made(alloc))?;
        Ok(())
    } else {
        Ok(())
    }
}

fn not_made(alloc: Global) -> TableCell
    ensures { (names : Naming) → table_of names result ≡ no_table }
{
    TableCell {
        is_made: false,
        elements: Vec::new(alloc),
        max: 0,
    }
}
