// Names of a function's own: its parameters and local variables (C11, 6.9.1, 6.2.1, 6.7).
ghost use Rattle.std.specs.Prelude.{◌≡◌, ◌&&◌, ◌<◌, ℕ, not, map, length, slice_get, Some, is_some, IfOk};
ghost use Rattle.std.specs.List.{list_all};
ghost use Rattle.w2c_base.specs.Lookup.{named};
ghost use Rattle.c_tree.specs.View.{item_of, func_of};
ghost use Rattle.c_tree.specs.Rules.{local_names, names_are_free, is_own_name, params_are_named, are_distinct, own_names_are_distinct, hides_none, body_variables};
ghost use Rattle.c_scope.specs.Tables.{Knows};
ghost use Rattle.c_rules.specs.UnitNames.{names_of};
ghost use Rattle.c_check.specs.Places.{alone, item_place};

use crate::shapes::{file_name_is_free, proper_params};
use c_scope::{FileScope, Variable, own_variables};
use c_tree::{CType, Func, Item, Name, is_own_name};
use name_table::{NameTable, Salted};
use std::alloc::Global;
use w2c_base::Memory;

/// The parameters and local variables of an item.
pub fn local_names<'a>(alloc: Global, item: &'a Item) -> Result<Vec<Variable<'a>>, Memory>
    ensures { IfOk result (λ vs. map (λ v. v.name.now) vs.items ≡ local_names (item_of item.now)) }
{
    match item {
        Item::Func(f) => function_names(alloc, f),
        Item::Array(_, _, _) | Item::Var(_, _, _) => Ok(Vec::new(alloc)),
    }
}

fn function_names<'a>(alloc: Global, f: &'a Func) -> Result<Vec<Variable<'a>>, Memory>
    ensures { IfOk result (λ vs. map (λ v. v.name.now) vs.items ≡ map (λ v. v.0) (body_variables (func_of f.now))) }
{
    let own = own_variables(alloc, f)?;
    Ok(own)
}

/// Whether none of the names that an item declares is reserved for something else.
#[tactic(auto, using(c_tree::proofs::Tested::list_all_map))]
pub fn names_are_free(item: &Item, own: &[Variable]) -> bool
    requires { map (λ v. v.name.now) own.now ≡ local_names (item_of item.now) }
    ensures { result ≡ names_are_free (alone item.now) }
{
    file_name_is_free(item) && are_own_names(own)
}

fn are_own_names(own: &[Variable]) -> bool
    ensures { result ≡ list_all (λ v. is_own_name v.name.now) own.now }
{
    for variable in own {
        if !is_own_name(variable.name) {
            return false;
        }
    }
    true
}

/// Whether the parameters of a definition have names.
fn params_are_named(f: &Func) -> bool
    ensures { result ≡ params_are_named (func_of f.now) }
{
    f.body.is_none() || have_names(proper_params(f.params.as_slice()))
}

fn have_names(params: &[(CType, Option<Name>)]) -> bool
    ensures { result ≡ list_all (λ p. is_some p.1) params.now }
{
    for param in params {
        if param.1.is_none() {
            return false;
        }
    }
    true
}

fn name_at<'a>(own: &[Variable<'a>], i: usize) -> &'a [u8]
    requires { i < length own.now }
    ensures { slice_get (map (λ v. v.name.now) own.now) i ≡ Some result.now }
{
    own[i].name
}

/// Whether no two names are one.
fn are_distinct(alloc: Global, salt: Salted, own: &[Variable]) -> Result<bool, Memory>
    ensures { IfOk result (λ b. b ≡ are_distinct (map (λ v. v.name.now) own.now)) }
{
    let mut behind: NameTable<()> = NameTable::new(alloc, salt);
    let mut i = own.len();
    while i > 0 {
        i -= 1;
        let name = name_at(own, i);
        if behind.has(name) {
            return Ok(false);
        }
        behind.enter(alloc, name, ())?;
    }
    Ok(true)
}

/// Whether no name hides one that the unit declares.
fn hide_none(file: &FileScope, names: &NameTable<()>, own: &[Variable]) -> bool
    requires { Knows names.now (names_of (map item_of file.now.items.now)) }
    ensures { result ≡ hides_none (map item_of file.now.items.now) (map (λ v. v.name.now) own.now) }
{
    are_in_none(names, own)
}

fn are_in_none(names: &NameTable<()>, own: &[Variable]) -> bool
    ensures { result ≡ list_all (λ v. not (is_some (named v.name.now names.now))) own.now }
{
    for variable in own {
        if names.has(variable.name) {
            return false;
        }
    }
    true
}

/// Whether the names of an item's own are distinct, and hide none of the unit.
pub fn own_names_are_distinct(
    alloc: Global,
    file: &FileScope,
    names: &NameTable<()>,
    item: &Item,
    own: &[Variable],
) -> Result<bool, Memory>
    requires names { Knows names.now (names_of (map item_of file.now.items.now)) }
    requires own { map (λ v. v.name.now) own.now ≡ local_names (item_of item.now) }
    ensures { IfOk result (λ b. b ≡ own_names_are_distinct (item_place file.now item.now)) }
{
    let distinct = are_distinct(alloc, file.salt, own)?;
    let hide_none = hide_none(file, names, own);
    match item {
        Item::Func(f) => Ok(params_are_named(f) && distinct && hide_none),
        Item::Array(_, _, _) | Item::Var(_, _, _) => Ok(true),
    }
}
