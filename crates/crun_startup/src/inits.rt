// The functions that run first.
ghost use Rattle.std.specs.Prelude.{◌≡◌, ◌∷◌, ◌++◌, [], ℕ, filter_map, map, slice_get, IfOk, OnOk, Some};
ghost use Rattle.c_tree.specs.Runtime.{same_func_type, same_types};
ghost use Rattle.c_tree.specs.Scope.{func_type_of};
ghost use Rattle.c_tree.specs.View.{func_of, item_of, unit_of};
ghost use Rattle.c_meaning.specs.Linking.{Program, init_functions as inits_of};
ghost use Rattle.crun_startup.specs.Inits.{IsInitAt, UnitItem, address_in, init_entry, init_items, is_init_func, is_init_item, unit_inits, void_type};
ghost use Rattle.crun_startup.specs.Names.{naming_of};

use crate::init_symbol::is_init_symbol;
use c_link::{Linked, defined_function};
use c_rules::same_type;
use c_tree::{CType, Func, Item, Name};
use std::alloc::Global;
use w2c_base::Memory;

/// The functions that run first, by the numbers of their units and of their items there: those of
/// external linkage whose names are init symbols, of type void without parameters, unit by unit
/// and in a unit item by item. The error is want of memory alone.
pub fn init_functions(alloc: Global, linked: &Linked) -> Result<Vec<(usize, usize)>, Memory>
    ensures items { IfOk result (λ fs. fs.items ≡ init_items (map unit_of linked.now.0)) }
    ensures meaning { IfOk result (λ fs. (p : Program) → p.units ≡ map unit_of linked.now.0
        → map (address_in (naming_of p.units)) fs.items ≡ inits_of p) }
    ensures defined { IfOk result (λ fs. (p : Program) → p.units ≡ map unit_of linked.now.0
        → (k : ℕ) (f : UnitItem) → slice_get fs.items k ≡ Some f → IsInitAt p f) }
{
    let mut found = Vec::new(alloc);
    for unit in 0..linked.unit_count() {
        put_unit(alloc, &mut found, unit, linked.unit(unit).unit().as_slice())?;
    }
    Ok(found)
}

fn put_unit(
    alloc: Global,
    found: &mut Vec<(usize, usize)>,
    unit: usize,
    items: &[Item],
) -> Result<(), Memory>
    ensures { OnOk result (found.new.items ≡ found.old.items ++ unit_inits (unit, map item_of items.now)) }
{
    for (i, item) in items.iter().enumerate() {
        put_item(alloc, found, unit, i, item)?;
    }
    Ok(())
}

fn put_item(
    alloc: Global,
    found: &mut Vec<(usize, usize)>,
    unit: usize,
    number: usize,
    item: &Item,
) -> Result<(), Memory>
    ensures { OnOk result (found.new.items
        ≡ found.old.items ++ filter_map (init_entry unit) ((number, item_of item.now) ∷ [])) }
{
    if is_init_item(alloc, item)? {
        found.push((unit, number))?;
        Ok(())
    } else {
        Ok(())
    }
}

// Whether an item defines a function that runs first.
fn is_init_item(alloc: Global, item: &Item) -> Result<bool, Memory>
    ensures { IfOk result (λ b. b ≡ is_init_item (item_of item.now)) }
{
    match defined_function(item) {
        Some(f) => is_init_function(alloc, f),
        None => Ok(false),
    }
}

// Whether a function that is defined for all units runs first.
fn is_init_function(alloc: Global, f: &Func) -> Result<bool, Memory>
    ensures { IfOk result (λ b. b ≡ is_init_func (func_of f.now)) }
{
    if is_procedure(f) {
        is_init_symbol(alloc, f.name.as_slice())
    } else {
        Ok(false)
    }
}

// Whether the type of a function is void without parameters.
fn is_procedure(f: &Func) -> bool
    ensures { result ≡ same_func_type (func_type_of (func_of f.now)) void_type }
{
    takes_nothing(f.params.as_slice()) && same_type(f.result, CType::Void)
}

fn takes_nothing(params: &[(CType, Option<Name>)]) -> bool
    ensures { result ≡ same_types (map (λ p. p.0) params.now) void_type.params }
{
    params.len() == 1 && same_type(params[0].0, CType::Void)
}
