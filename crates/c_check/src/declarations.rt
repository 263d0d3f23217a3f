// Declarations of one name (C11, 6.7, 6.9).
ghost use Rattle.std.specs.Prelude.{◌≡◌, ◌&&◌, true, map, OnOk, not, ℕ, List, [], ◌∷◌, option_map};
ghost use Rattle.std.specs.Option.{option_or};
ghost use Rattle.std.specs.Borrow.{Bor};
ghost use Rattle.w2c_base.specs.Lookup.{named};
ghost use Rattle.c_tree.specs.declared.tree.Item.{Item};
ghost use Rattle.c_tree.specs.Tree as tree;
ghost use Rattle.c_tree.specs.View.{item_of, func_of};
ghost use Rattle.c_tree.specs.Runtime.{same_types, same_func_type};
ghost use Rattle.c_tree.specs.Rules.{are_alike, is_declared_once, is_defined_if_static, has_body};
ghost use Rattle.c_tree.specs.Scope.{func_type_of};
ghost use Rattle.c_scope.specs.FileItems.{declared};
ghost use Rattle.c_scope.specs.Tables.{Knows};
ghost use Rattle.c_rules.specs.UnitNames.{FindsFirst, by_names, defined_of, none_clash};
ghost use Rattle.c_check.specs.Places.{item_place};

use c_rules::same_type;
use c_scope::FileScope;
use c_tree::{CType, Func, Item, Name};
use name_table::{NameTable, Salted};
use std::alloc::Global;
use w2c_base::Memory;

/// The first declaration of each name, and the names that are defined.
#[derive(Drop)]
pub struct Earlier<'a> {
    pub first: NameTable<&'a Item>,
    pub defined: NameTable<()>,
}

impl<'a> Earlier<'a> {
    /// No declarations, whose names will be hashed by a key. It takes no memory.
    pub fn new(alloc: Global, salt: Salted) -> Self
        ensures first { result.first ≡ [] }
        ensures defined { result.defined ≡ [] }
    {
        Earlier {
            first: NameTable::new(alloc, salt),
            defined: NameTable::new(alloc, salt),
        }
    }
}

/// One item more, behind those that are declared.
pub fn enter_first<'a>(
    alloc: Global,
    first: &mut NameTable<&'a Item>,
    item: &'a Item,
) -> Result<(), Memory>
    ensures { OnOk result ((q : List ℕ) → option_map (λ (i : Bor Item). item_of i.now) (named q first.new)
        ≡ option_or (option_map (λ (i : Bor Item). item_of i.now) (named q first.old)) (named q (by_names (item_of item.now ∷ [])))) }
{
    first.enter(alloc, item.name(), item)
}

/// Whether an item may stand behind those that are declared.
pub fn is_declared_once(file: &FileScope, earlier: &Earlier, item: &Item) -> bool
    requires first { FindsFirst earlier.now.first (declared file.now) }
    requires defined { Knows earlier.now.defined (defined_of (declared file.now)) }
    requires kept { none_clash (declared file.now) ≡ true }
    ensures { result ≡ is_declared_once (item_place file.now item.now) }
{
    let own = item.name();
    match earlier.first.find(own) {
        Some(first) => may_both_stand(first, item, earlier.defined.has(own)),
        None => true,
    }
}

/// Whether an item may stand behind the first one of its name, where that name may be defined.
fn may_both_stand(first: &Item, item: &Item, is_defined: bool) -> bool
    ensures { result ≡ (are_alike (item_of first.now) (item_of item.now) && not (is_defined && has_body (item_of item.now))) }
{
    are_alike(first, item) && !(is_defined && item.has_body())
}

/// Whether both declare a function of one type and one linkage.
fn are_alike(a: &Item, b: &Item) -> bool
    ensures { result ≡ are_alike (item_of a.now) (item_of b.now) }
{
    match a {
        Item::Func(f) => is_alike(f, b),
        Item::Array(_, _, _) | Item::Var(_, _, _) => false,
    }
}

fn is_alike(f: &Func, b: &Item) -> bool
    ensures { result ≡ are_alike (tree.Function (func_of f.now)) (item_of b.now) }
{
    match b {
        Item::Func(g) => f.is_static == g.is_static && have_same_type(f, g),
        Item::Array(_, _, _) | Item::Var(_, _, _) => false,
    }
}

fn have_same_type(f: &Func, g: &Func) -> bool
    ensures { result ≡ same_func_type (func_type_of (func_of f.now)) (func_type_of (func_of g.now)) }
{
    same_types(f.params.as_slice(), g.params.as_slice()) && same_type(f.result, g.result)
}

fn same_types(a: &[(CType, Option<Name>)], b: &[(CType, Option<Name>)]) -> bool
    ensures { result ≡ same_types (map (λ p. p.0) a.now) (map (λ p. p.0) b.now) }
{
    if a.len() != b.len() {
        return false;
    }
    for (i, one) in a.iter().enumerate() {
        if !same_type(one.0, b[i].0) {
            return false;
        }
    }
    true
}

/// Whether a static function that an item declares is among those that the unit defines.
pub fn is_defined_if_static(file: &FileScope, defined: &NameTable<()>, item: &Item) -> bool
    requires { Knows defined.now (defined_of (map item_of file.now.items.now)) }
    ensures { result ≡ is_defined_if_static (item_place file.now item.now) }
{
    match item {
        Item::Func(f) => !f.is_static || defined.has(f.name.as_slice()),
        Item::Array(_, _, _) | Item::Var(_, _, _) => true,
    }
}
