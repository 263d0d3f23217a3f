// Trimming a checked unit.
ghost use Rattle.std.specs.Prelude.{◌≡◌, ◌++◌, ◌∷◌, [], if◌then◌else◌, IfOk, OnOk};
ghost use Rattle.c_tree.specs.View.{item_of, unit_of};
ghost use Rattle.c_tree.specs.FirstBroken.{KeepsRules};
ghost use Rattle.c_trim.specs.Marks.{is_reached};
ghost use Rattle.c_trim.specs.Runs.{RunsInPlaceOf};
ghost use Rattle.c_trim.specs.Trim.{IsTrimmed, kept, stays};

use crate::copies::copy_item;
use crate::reach::{Marks, definers, reach_all};
use c_rules::CheckedUnit;
use c_tree::{Item, Name, Unit};
use name_table::NameTable;
use std::alloc::Global;
use w2c_base::Memory;

/// The unit without the declarations and definitions of static functions that are not needed, in which the other items
/// stand in their order. A static function is needed where a chain of names leads to it: the first is named in the body of
/// an external function, each next in the body of the one before, by a call or as an element of a table. The unit keeps
/// the rules, and runs as the given one wherever that stands among linked units.
pub fn trim(alloc: Global, u: &CheckedUnit) -> Result<CheckedUnit, Memory>
    ensures trimmed { IfOk result (λ t. IsTrimmed (unit_of u.now) (unit_of t)) }
    ensures in_place { IfOk result (λ t. RunsInPlaceOf (unit_of u.now) (unit_of t)) }
{
    let unit = u.unit();
    let kept = needed_items(alloc, unit)?;
    let trimmed = CheckedUnit::known(alloc, kept)?;
    Ok(trimmed)
}

fn needed_items(alloc: Global, unit: &Unit) -> Result<Unit, Memory>
    requires { KeepsRules (unit_of unit.now) }
    ensures { IfOk result (λ t. IsTrimmed (unit_of unit.now) (unit_of t)) }
{
    let items = unit.as_slice();
    let table = definers(alloc, items)?;
    let marks = reach_all(alloc, &table, items)?;
    kept_items(alloc, &table, &marks, items)
}

fn is_reached(table: &NameTable<usize>, marks: &Marks, name: &Name) -> bool
    ensures { result ≡ is_reached table.now marks.now.flags.items name.now }
{
    match table.find(name.as_slice()) {
        None => false,
        Some(i) => match marks.flags.get(i) {
            None => false,
            Some(flag) => *flag,
        },
    }
}

fn stays(table: &NameTable<usize>, marks: &Marks, item: &Item) -> bool
    ensures { result ≡ stays (is_reached table.now marks.now.flags.items) (item_of item.now) }
{
    match item {
        Item::Func(f) => !f.is_static || is_reached(table, marks, &f.name),
        Item::Array(_, _, _) => true,
        Item::Var(_, _, _) => true,
    }
}

fn keep(
    alloc: Global,
    unit: &mut Unit,
    table: &NameTable<usize>,
    marks: &Marks,
    item: &Item,
) -> Result<(), Memory>
    ensures { OnOk result (unit_of unit.new ≡ unit_of unit.old
        ++ (if stays (is_reached table.now marks.now.flags.items) (item_of item.now) then item_of item.now ∷ [] else [])) }
{
    if stays(table, marks, item) {
        unit.push(copy_item(alloc, item)?)?;
    }
    Ok(())
}

fn kept_items(
    alloc: Global,
    table: &NameTable<usize>,
    marks: &Marks,
    items: &[Item],
) -> Result<Unit, Memory>
    ensures { IfOk result (λ unit. unit_of unit ≡ kept (is_reached table.now marks.now.flags.items) (unit_of items.now)) }
{
    let mut unit = Unit::new(alloc);
    for item in items {
        keep(alloc, &mut unit, table, marks, item)?;
    }
    Ok(unit)
}
