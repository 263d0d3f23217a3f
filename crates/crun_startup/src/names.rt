// The tables of a unit's names.
ghost use Rattle.std.specs.Prelude.{◌≡◌, ◌∷◌, ◌++◌, [], map, option_copied, IfOk, OnOk};
ghost use Rattle.c_tree.specs.View.{item_of, unit_of};
ghost use Rattle.c_machine.specs.Names.{entry_in, number_in, texts, Finds};
ghost use Rattle.crun_startup.specs.Names.{array_name as array_name_of, has_object as declares_object, names_in};

use crate::objects::{first_value, is_of};
use c_machine::{NumberedNames, Numbers, number_all};
use c_rules::salt_of;
use c_tree::{CType, Item};
use std::alloc::Global;
use w2c_base::Memory;

/// The kinds of objects of file scope.
#[derive(Clone, Copy, PartialEq, Eq)]
pub enum ObjectKind {
    Variable,
    Memory,
    Table,
}

/// The objects of a kind, numbered in the order of their declarations.
pub fn object_numbers(
    alloc: Global,
    kind: ObjectKind,
    items: &[Item],
) -> Result<NumberedNames, Memory>
    ensures { IfOk result (λ table. Finds table (λ q. number_in q (names_in kind (unit_of items.now)))) }
{
    let names = object_names(alloc, kind, items)?;
    let table = number_all(alloc, names.as_slice())?;
    Ok(table)
}

/// The names of the objects of a kind that items declare, in the order of the declarations. The error is want of memory alone.
pub fn object_names(alloc: Global, kind: ObjectKind, items: &[Item]) -> Result<Vec<&[u8]>, Memory>
    ensures { IfOk result (λ names. texts names.items ≡ names_in kind (map item_of items.now)) }
{
    let mut names: Vec<&[u8]> = Vec::new(alloc);
    for item in items {
        put_object_name(&mut names, kind, item)?;
    }
    Ok(names)
}

fn put_object_name<'a>(
    names: &mut Vec<&'a [u8]>,
    kind: ObjectKind,
    item: &'a Item,
) -> Result<(), Memory>
    ensures { OnOk result (texts names.new.items ≡ texts names.old.items ++ names_in kind (item_of item.now ∷ [])) }
{
    if has_object(kind, item) {
        names.push(item.name())?;
        Ok(())
    } else {
        Ok(())
    }
}

// Whether an item declares an object of a kind.
fn has_object(kind: ObjectKind, item: &Item) -> bool
    ensures { result ≡ declares_object kind (item_of item.now) }
{
    match kind {
        ObjectKind::Variable => first_value(item).is_some(),
        ObjectKind::Memory => is_of(CType::Mem, item),
        ObjectKind::Table => is_of(CType::Tab, item),
    }
}

/// The arrays, by the numbers of their items.
pub fn array_numbers(alloc: Global, items: &[Item]) -> Result<Numbers, Memory>
    ensures { IfOk result (λ table. Finds table (λ q. entry_in 0 q (map array_name_of (map item_of items.now)))) }
{
    let mut table = Numbers::new(alloc, salt_of(items));
    for (i, item) in items.iter().enumerate() {
        table.enter(alloc, array_name(item), i)?;
    }
    Ok(table)
}

fn array_name(item: &Item) -> Option<&[u8]>
    ensures { option_copied result ≡ array_name_of (item_of item.now) }
{
    match item {
        Item::Array(name, _, _) => Some(name.as_slice()),
        Item::Var(_, _, _) => None,
        Item::Func(_) => None,
    }
}
