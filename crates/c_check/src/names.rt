// Sets of names.
ghost use Rattle.std.specs.Prelude.{◌≡◌, ℕ, ◌||◌, List, [], ◌∷◌, map, filter_map, is_some, option_copied, IfOk, OnOk};
ghost use Rattle.w2c_base.specs.Lookup.{named};
ghost use Rattle.c_tree.specs.View.{item_of, stmt_of};
ghost use Rattle.c_tree.specs.Scope.{is_among};
ghost use Rattle.c_tree.specs.Rules.{labels_of};
ghost use Rattle.c_scope.specs.Tables.{Knows};
ghost use Rattle.c_rules.specs.UnitNames.{defined_name, names_of, defined_of};

use c_tree::{Item, Stmt};
use name_table::{NameTable, Salted};
use std::alloc::Global;
use w2c_base::Memory;

/// Puts a name, where there is one, into a set.
#[tactic(auto, using(crate::proofs::Sets::or_nothing))]
pub fn put(alloc: Global, set: &mut NameTable<()>, name: Option<&[u8]>) -> Result<(), Memory>
    ensures { OnOk result ((q : List ℕ) → is_some (named q set.new) ≡ (is_some (named q set.old) || is_among q (filter_map (λ o. o) (option_copied name.entry ∷ [])))) }
{
    match name {
        Some(name) => set.enter(alloc, name, ()),
        None => Ok(()),
    }
}

/// The name of the function that an item defines.
pub fn defined_name(item: &Item) -> Option<&[u8]>
    ensures { option_copied result ≡ defined_name (item_of item.now) }
{
    if item.has_body() {
        Some(item.name())
    } else {
        None
    }
}

/// The names that items declare.
pub fn declared_names(alloc: Global, salt: Salted, items: &[Item]) -> Result<NameTable<()>, Memory>
    ensures { IfOk result (λ set. Knows set (names_of (map item_of items.now))) }
{
    let mut set = NameTable::new(alloc, salt);
    for item in items {
        put(alloc, &mut set, Some(item.name()))?;
    }
    Ok(set)
}

/// The names of the functions that items define.
pub fn defined_names(alloc: Global, salt: Salted, items: &[Item]) -> Result<NameTable<()>, Memory>
    ensures { IfOk result (λ set. Knows set (defined_of (map item_of items.now))) }
{
    let mut set = NameTable::new(alloc, salt);
    for item in items {
        put(alloc, &mut set, defined_name(item))?;
    }
    Ok(set)
}

/// The labels of statements.
pub fn label_names(alloc: Global, salt: Salted, stmts: &[Stmt]) -> Result<NameTable<()>, Memory>
    ensures { IfOk result (λ set. Knows set (labels_of (map stmt_of stmts.now))) }
{
    let mut set = NameTable::new(alloc, salt);
    for stmt in stmts {
        put(alloc, &mut set, stmt.label())?;
    }
    Ok(set)
}
