// Items of a unit with their new names.
ghost use Rattle.std.specs.Prelude.{◌≡◌, ◌++◌, IfOk, OnOk, map, option_map};
ghost use Rattle.c_tree.specs.View.{body_of, func_of, item_of, maybe_body_of, unit_of};
ghost use Rattle.c_renaming.specs.Renamed as renamed;
ghost use Rattle.c_merge.specs.Merge.{new_names};

use crate::names::{new_function, new_variable};
use crate::text::{new_stmts, new_target};
use c_tree::{Body, CType, Func, Item, Locals, Name, Num, Params, Unit};
use std::alloc::Global;
use w2c_base::Memory;

fn new_param(
    alloc: Global,
    unit: usize,
    param: &(CType, Option<Name>),
) -> Result<(CType, Option<Name>), Memory>
    ensures { IfOk result (λ new. new ≡ renamed.param new_names unit param.now) }
{
    let name = new_target(alloc, unit, &param.1)?;
    Ok((param.0, name))
}

fn new_params(
    alloc: Global,
    unit: usize,
    params: &[(CType, Option<Name>)],
) -> Result<Params, Memory>
    ensures { IfOk result (λ new. new ≡ map (renamed.param new_names unit) params.now) }
{
    let mut made = Params::new(alloc);
    for param in params {
        made.push(new_param(alloc, unit, param)?)?;
    }
    Ok(made)
}

fn new_local(
    alloc: Global,
    unit: usize,
    local: &(CType, Name, Num),
) -> Result<(CType, Name, Num), Memory>
    ensures { IfOk result (λ new. new ≡ renamed.local new_names unit local.now) }
{
    let name = new_variable(alloc, unit, local.1.as_slice())?;
    Ok((local.0, name, local.2))
}

fn new_locals(alloc: Global, unit: usize, locals: &[(CType, Name, Num)]) -> Result<Locals, Memory>
    ensures { IfOk result (λ new. new ≡ map (renamed.local new_names unit) locals.now) }
{
    let mut made = Locals::new(alloc);
    for local in locals {
        made.push(new_local(alloc, unit, local)?)?;
    }
    Ok(made)
}

fn new_body(alloc: Global, unit: usize, body: &Body) -> Result<Body, Memory>
    ensures { IfOk result (λ new. body_of new ≡ renamed.body new_names unit (body_of body.now)) }
{
    let locals = new_locals(alloc, unit, body.locals.as_slice())?;
    let stmts = new_stmts(alloc, unit, body.stmts.as_slice())?;
    Ok(Body { locals, stmts })
}

fn new_body_if_any(alloc: Global, unit: usize, body: &Option<Body>) -> Result<Option<Body>, Memory>
    ensures { IfOk result (λ new. maybe_body_of new ≡ option_map (renamed.body new_names unit) (maybe_body_of body.now)) }
{
    match body {
        None => Ok(None),
        Some(body) => Ok(Some(new_body(alloc, unit, body)?)),
    }
}

fn new_func(alloc: Global, unit: usize, f: &Func) -> Result<Func, Memory>
    ensures { IfOk result (λ new. func_of new ≡ renamed.func new_names unit (func_of f.now)) }
{
    let name = new_function(alloc, unit, f.name.as_slice())?;
    let params = new_params(alloc, unit, f.params.as_slice())?;
    let body = new_body_if_any(alloc, unit, &f.body)?;
    Ok(f.with_parts(name, params, body))
}

fn new_item(alloc: Global, unit: usize, item: &Item) -> Result<Item, Memory>
    ensures { IfOk result (λ new. item_of new ≡ renamed.item new_names unit (item_of item.now)) }
{
    match item {
        Item::Array(name, count, bytes) => {
            let name = new_variable(alloc, unit, name.as_slice())?;
            Ok(Item::Array(name, *count, bytes.copy(alloc)?))
        }
        Item::Var(ty, name, number) => {
            let name = new_variable(alloc, unit, name.as_slice())?;
            Ok(Item::Var(*ty, name, *number))
        }
        Item::Func(f) => Ok(Item::Func(new_func(alloc, unit, f)?)),
    }
}

/// Puts the items of a unit at the end, with the names that they get there.
pub(crate) fn put_items(
    alloc: Global,
    one: &mut Unit,
    unit: usize,
    items: &[Item],
) -> Result<(), Memory>
    ensures { OnOk result (unit_of one.new ≡ unit_of one.old ++ map (renamed.item new_names unit) (unit_of items.now)) }
{
    for item in items {
        one.push(new_item(alloc, unit, item)?)?;
    }
    Ok(())
}
