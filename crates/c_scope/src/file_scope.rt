// The names that a unit declares from its beginning up to some item.
ghost use Rattle.std.specs.Prelude.{◌≡◌, ℕ, ◌+◌, ◌<◌, ◌≤◌, ◌||◌, List, [], ◌∷◌, length, map, take, is_some, option_map, OnOk, IfOk};
ghost use Rattle.std.specs.Option.{option_or};
ghost use Rattle.std.specs.Borrow.{Bor};
ghost use Rattle.w2c_base.specs.Lookup.{named};
ghost use Rattle.c_tree.specs.declared.tree.Func.{Func};
ghost use Rattle.c_tree.specs.View.{func_of, item_of};
ghost use Rattle.c_tree.specs.Scope.{is_among, func_type_of};
ghost use Rattle.c_scope.specs.Tables.{Finds, Knows, FindsTypes, variables_of, arrays_of, functions_of};

use c_tree::{CType, Func, Item};
use name_table::{NameTable, Salted};
use std::alloc::Global;
use w2c_base::Memory;

/// The names of file scope that the first items of a unit declare, so many as are counted.
#[derive(Drop)]
pub struct FileScope<'a> {
    pub items: &'a [Item],
    pub count: usize,
    pub salt: Salted,
    variables: NameTable<CType>,
    arrays: NameTable<()>,
    functions: NameTable<&'a Func>,
    ghost variables_found: { Finds variables (variables_of (take count (map item_of items.now))) },
    ghost arrays_known: { Knows arrays (arrays_of (take count (map item_of items.now))) },
    ghost functions_found: { FindsTypes functions (functions_of (take count (map item_of items.now))) },
}

impl<'a> FileScope<'a> {
    ghost use Rattle.c_scope.specs.FileItems.{declared};

    /// The scope in front of a unit's first item, whose names are hashed by a key. It takes no memory.
    pub fn new(alloc: Global, salt: Salted, items: &'a [Item]) -> Self
        ensures items { result.items.now ≡ items.now }
        ensures count { result.count ≡ 0 }
    {
        FileScope {
            items,
            count: 0,
            salt,
            variables: NameTable::new(alloc, salt),
            arrays: NameTable::new(alloc, salt),
            functions: NameTable::new(alloc, salt),
        }
    }

    /// The scope behind the next item too.
    pub fn behind_next(self, alloc: Global) -> Result<Self, Memory>
        requires { self.count < length self.items.now }
        ensures items { IfOk result (λ scope. scope.items.now ≡ self.entry.items.now) }
        ensures count { IfOk result (λ scope. scope.count ≡ self.entry.count + 1) }
    {
        let FileScope {
            items,
            count,
            salt,
            mut variables,
            mut arrays,
            mut functions,
        } = self;
        let item = &items[count];
        enter_variable(alloc, &mut variables, item)?;
        enter_array(alloc, &mut arrays, item)?;
        enter_function(alloc, &mut functions, item)?;
        let count = count + 1;
        Ok(FileScope {
            items,
            count,
            salt,
            variables,
            arrays,
            functions,
        })
    }

    /// The type of a variable of file scope.
    pub fn variable(&self, name: &[u8]) -> Option<CType>
        ensures { result ≡ named name.now (variables_of (declared self.now)) }
    {
        self.variables.find(name)
    }

    /// Whether a name is an array's.
    pub fn has_array(&self, name: &[u8]) -> bool
        ensures { result ≡ is_among name.now (arrays_of (declared self.now)) }
    {
        self.arrays.has(name)
    }

    /// The function of a name: its first declaration.
    pub fn function(&self, name: &[u8]) -> Option<&'a Func>
        ensures { option_map (λ (f : Bor Func). func_type_of (func_of f.now)) result ≡ named name.now (functions_of (declared self.now)) }
    {
        self.functions.find(name)
    }
}

#[tactic(auto, using(w2c_base::proofs::Options::or_none))]
fn enter_variable(alloc: Global, table: &mut NameTable<CType>, item: &Item) -> Result<(), Memory>
    ensures { OnOk result ((q : List ℕ) → named q table.new ≡ option_or (named q table.old) (named q (variables_of (item_of item.now ∷ [])))) }
{
    match item {
        Item::Var(of, name, _) => table.enter(alloc, name.as_slice(), *of),
        Item::Array(_, _, _) | Item::Func(_) => Ok(()),
    }
}

fn enter_array(alloc: Global, table: &mut NameTable<()>, item: &Item) -> Result<(), Memory>
    ensures { OnOk result ((q : List ℕ) → is_some (named q table.new) ≡ (is_some (named q table.old) || is_among q (arrays_of (item_of item.now ∷ [])))) }
{
    match item {
        Item::Array(name, _, _) => table.enter(alloc, name.as_slice(), ()),
        Item::Var(_, _, _) | Item::Func(_) => Ok(()),
    }
}

fn enter_function<'a>(
    alloc: Global,
    table: &mut NameTable<&'a Func>,
    item: &'a Item,
) -> Result<(), Memory>
    ensures { OnOk result ((q : List ℕ) → option_map (λ (f : Bor Func). func_type_of (func_of f.now)) (named q table.new)
        ≡ option_or (option_map (λ (f : Bor Func). func_type_of (func_of f.now)) (named q table.old)) (named q (functions_of (item_of item.now ∷ [])))) }
{
    match item {
        Item::Func(f) => table.enter(alloc, f.name.as_slice(), f),
        Item::Var(_, _, _) | Item::Array(_, _, _) => Ok(()),
    }
}
