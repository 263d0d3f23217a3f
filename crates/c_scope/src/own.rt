// The parameters and local variables of a function.
ghost use Rattle.std.specs.Prelude.{◌≡◌, ℕ, ◌++◌, if◌then◌else◌, List, map, bytes_eq, Some, None, IfOk, OnOk};
ghost use Rattle.std.specs.Option.{option_or};
ghost use Rattle.w2c_base.specs.Lookup.{named};
ghost use Rattle.c_tree.specs.View.{func_of};
ghost use Rattle.c_tree.specs.Rules.{body_variables};
ghost use Rattle.c_scope.specs.Tables.{Finds};
ghost use Rattle.c_scope.specs.Own.{variable_pair, params_of, locals_of};

use c_tree::{CType, Func, Name, Num};
use name_table::{NameTable, Salted};
use std::alloc::Global;
use w2c_base::Memory;

/// A variable by its name and its type.
#[derive(Clone, Copy)]
pub struct Variable<'a> {
    pub name: &'a [u8],
    pub of: CType,
}

/// The parameters of a function that have names, and its local variables, in order.
pub fn own_variables<'a>(alloc: Global, f: &'a Func) -> Result<Vec<Variable<'a>>, Memory>
    ensures { IfOk result (λ vs. map variable_pair vs.items ≡ body_variables (func_of f.now)) }
{
    let mut all: Vec<Variable<'a>> = Vec::new(alloc);
    put_params(&mut all, f.params.as_slice())?;
    if let Some(body) = &f.body {
        put_locals(&mut all, body.locals.as_slice())?;
    }
    Ok(all)
}

fn put_params<'a>(
    all: &mut Vec<Variable<'a>>,
    params: &'a [(CType, Option<Name>)],
) -> Result<(), Memory>
    ensures { OnOk result (map variable_pair all.new.items ≡ map variable_pair all.old.items ++ params_of params.now) }
{
    for param in params {
        if let Some(name) = &param.1 {
            let name = name.as_slice();
            all.push(Variable { name, of: param.0 })?;
        }
    }
    Ok(())
}

fn put_locals<'a>(
    all: &mut Vec<Variable<'a>>,
    locals: &'a [(CType, Name, Num)],
) -> Result<(), Memory>
    ensures { OnOk result (map variable_pair all.new.items ≡ map variable_pair all.old.items ++ locals_of locals.now) }
{
    for local in locals {
        let name = local.1.as_slice();
        all.push(Variable { name, of: local.0 })?;
    }
    Ok(())
}

/// A table of variables, whose names are hashed by a key.
pub fn own_table(
    alloc: Global,
    salt: Salted,
    variables: &[Variable],
) -> Result<NameTable<CType>, Memory>
    ensures { IfOk result (λ table. Finds table (map variable_pair variables.now)) }
{
    let mut table = NameTable::new(alloc, salt);
    for variable in variables {
        enter_variable(alloc, &mut table, variable)?;
    }
    Ok(table)
}

fn enter_variable(
    alloc: Global,
    table: &mut NameTable<CType>,
    variable: &Variable,
) -> Result<(), Memory>
    ensures { OnOk result ((q : List ℕ) → named q table.new ≡ option_or (named q table.old) (if bytes_eq (variable_pair variable.now).0 q then Some (variable_pair variable.now).1 else None)) }
{
    table.enter(alloc, variable.name, variable.of)
}
