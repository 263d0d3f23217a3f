// The pass over a unit: its items in order, and the statements of each.
ghost use Rattle.std.specs.Prelude.{◌≡◌, ◌+◌, map, option_map, Some, IfOk};
ghost use Rattle.c_tree.specs.Tree as tree;
ghost use Rattle.c_tree.specs.View.{item_of, func_of};
ghost use Rattle.c_rules.specs.FirstRule.{first_in_stmts, first_in_body, first_in_items};
ghost use Rattle.c_scope.specs.ScopeOf.{scope_of};
ghost use Rattle.c_check.specs.Broken.{broken_at};

use crate::items::item_rule;
use crate::names::{label_names, put};
use crate::progress::Progress;
use crate::statements::stmt_rule;
use c_scope::{FileScope, Scope, own_table, own_variables};
use c_tree::{Body, Func, Item};
use name_table::NameTable;
use std::alloc::Global;
use w2c_base::Memory;

/// A broken rule: the item from 0, the statement from 1, or 0 for the item itself, and the rule.
#[derive(Clone, Copy)]
pub struct Broken {
    pub item: usize,
    pub statement: usize,
    pub rule: u32,
}

/// The first rule that a statement of a function's body breaks.
fn broken_in_statements(alloc: Global, s: &Scope, item: usize) -> Result<Option<Broken>, Memory>
    ensures { IfOk result (λ r. option_map broken_at r ≡ first_in_stmts (scope_of s.now) item 0) }
{
    let stmts = s.body.stmts.as_slice();
    let salt = s.file.salt;
    let labels = label_names(alloc, salt, stmts)?;
    let mut earlier: NameTable<()> = NameTable::new(alloc, salt);
    for (i, stmt) in stmts.iter().enumerate() {
        let statement = i + 1;
        match stmt_rule(alloc, s, &labels, &earlier, statement, stmt)? {
            Some(rule) => {
                return Ok(Some(Broken {
                    item,
                    statement,
                    rule,
                }));
            }
            None => put(alloc, &mut earlier, stmt.label())?,
        }
    }
    Ok(None)
}

/// The first rule that a statement of an item breaks. The item is the last that is declared.
fn broken_in_item_body(
    alloc: Global,
    file: &FileScope,
    i: usize,
    item: &Item,
) -> Result<Option<Broken>, Memory>
    requires { file.now.count ≡ i + 1 }
    ensures { IfOk result (λ r. option_map broken_at r ≡ first_in_body (map item_of file.now.items.now) i (item_of item.now)) }
{
    match item.function() {
        Some(f) => broken_in_function(alloc, file, i, f),
        None => Ok(None),
    }
}

/// The same for a function: none without a body.
fn broken_in_function(
    alloc: Global,
    file: &FileScope,
    i: usize,
    f: &Func,
) -> Result<Option<Broken>, Memory>
    requires { file.now.count ≡ i + 1 }
    ensures { IfOk result (λ r. option_map broken_at r ≡ first_in_body (map item_of file.now.items.now) i (tree.Function (func_of f.now))) }
{
    match &f.body {
        Some(body) => broken_in_definition(alloc, file, i, f, body),
        None => Ok(None),
    }
}

/// The same for a function with its body.
fn broken_in_definition(
    alloc: Global,
    file: &FileScope,
    i: usize,
    f: &Func,
    body: &Body,
) -> Result<Option<Broken>, Memory>
    requires count { file.now.count ≡ i + 1 }
    requires body { f.now.body ≡ Some body.now }
    ensures { IfOk result (λ r. option_map broken_at r ≡ first_in_body (map item_of file.now.items.now) i (tree.Function (func_of f.now))) }
{
    let own = own_variables(alloc, f)?;
    let table = own_table(alloc, file.salt, own.as_slice())?;
    let scope = Scope::new(file, &table, f, body);
    let found = broken_in_statements(alloc, &scope, i)?;
    Ok(found)
}

/// The first rule that a unit breaks.
pub fn first_broken(alloc: Global, items: &[Item]) -> Result<Option<Broken>, Memory>
    ensures { IfOk result (λ r. option_map broken_at r ≡ first_in_items (map item_of items.now) 0) }
{
    let mut progress = Progress::new(alloc, items)?;
    for (i, item) in items.iter().enumerate() {
        match item_rule(alloc, &progress, item)? {
            Some(rule) => {
                return Ok(Some(Broken {
                    item: i,
                    statement: 0,
                    rule,
                }));
            }
            None => {}
        }
        progress = progress.behind_next(alloc, item)?;
        match broken_in_item_body(alloc, &progress.file, i, item)? {
            Some(broken) => return Ok(Some(broken)),
            None => {}
        }
    }
    Ok(None)
}
