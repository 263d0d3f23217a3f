// The functions of a unit that chains of names reach from its external functions.
ghost use Rattle.std.specs.Prelude.{◌≡◌, ℕ, length, slice_get, ◌∷◌, [], List, map, flat_map, if◌then◌else◌, Some, None, OnOk, IfOk};
ghost use Rattle.std.specs.Option.{option_or};
ghost use Rattle.w2c_base.specs.Lookup.{named};
ghost use Rattle.c_tree.specs.Rules.{defines};
ghost use Rattle.c_tree.specs.View.{arg_of, callee_of, stmt_of, maybe_body_of, item_of, unit_of};
ghost use Rattle.c_trim.specs.Trim.{arg_functions, callee_functions, stmt_functions, body_functions, item_functions};
ghost use Rattle.c_trim.specs.Marks.{AreAllReached, AreReached, BegunTo, KnowsDefiners, begins, functions_at, reached_by, with_item, with_names};

use c_rules::salt_of;
use c_tree::{Arg, Body, Callee, Item, Name, Stmt};
use name_table::NameTable;
use std::alloc::Global;
use w2c_base::Memory;

/// For each item whether it was reached, and the numbers of those that were, in their order.
#[derive(Drop)]
pub(crate) struct Marks {
    pub(crate) flags: Vec<bool>,
    pub(crate) order: Vec<usize>,
}

/// For each function that a unit defines the number of its item.
pub(crate) fn definers(alloc: Global, items: &[Item]) -> Result<NameTable<usize>, Memory>
    ensures { IfOk result (λ table. KnowsDefiners table (unit_of items.now)) }
{
    let mut table = NameTable::new(alloc, salt_of(items));
    for (i, item) in items.iter().enumerate() {
        enter_item(alloc, &mut table, item, i)?;
    }
    Ok(table)
}

fn enter_item(
    alloc: Global,
    table: &mut NameTable<usize>,
    item: &Item,
    i: usize,
) -> Result<(), Memory>
    ensures { OnOk result ((q : List ℕ) → named q table.new ≡ option_or (named q table.old)
        (if defines q (item_of item.now) then Some i else None)) }
{
    if item.has_body() {
        table.enter(alloc, item.name(), i)
    } else {
        Ok(())
    }
}

fn begins(item: &Item) -> bool
    ensures { result ≡ begins (item_of item.now) }
{
    match item {
        Item::Func(f) => !f.is_static && f.body.is_some(),
        Item::Array(_, _, _) => false,
        Item::Var(_, _, _) => false,
    }
}

/// Reaches all functions that chains of names reach from the external ones that a unit defines.
pub(crate) fn reach_all(
    alloc: Global,
    table: &NameTable<usize>,
    items: &[Item],
) -> Result<Marks, Memory>
    requires { KnowsDefiners table.now (unit_of items.now) }
    ensures { IfOk result (λ marks. AreAllReached (unit_of items.now) (reached_by marks)) }
{
    let mut marks = begin(alloc, items)?;
    let mut followed = 0;
    while followed < marks.order.len() {
        marks.follow(table, items, followed)?;
        followed += 1;
    }
    Ok(marks)
}

fn begin(alloc: Global, items: &[Item]) -> Result<Marks, Memory>
    ensures reached { IfOk result (λ marks. AreReached (unit_of items.now) (reached_by marks)) }
    ensures begun { IfOk result (λ marks. BegunTo (unit_of items.now) (length (unit_of items.now)) (reached_by marks)) }
{
    let mut marks = none_reached(alloc, items)?;
    for (i, item) in items.iter().enumerate() {
        marks.begin_with(item, i)?;
    }
    Ok(marks)
}

fn none_reached(alloc: Global, items: &[Item]) -> Result<Marks, Memory>
    ensures { IfOk result (λ marks. AreReached (unit_of items.now) (reached_by marks)) }
{
    let mut flags = Vec::new(alloc);
    while flags.len() < items.len() {
        flags.push(false)?;
    }
    Ok(Marks {
        flags,
        order: Vec::new(alloc),
    })
}

impl Marks {
    fn begin_with(&mut self, item: &Item, i: usize) -> Result<(), Memory>
        ensures { OnOk result (reached_by self.new ≡
            (if begins (item_of item.now) then with_item (Some i) (reached_by self.old) else reached_by self.old)) }
    {
        if begins(item) { self.reach(i) } else { Ok(()) }
    }

    /// Reaches what the item at a place of the order names.
    fn follow(&mut self, table: &NameTable<usize>, items: &[Item], at: usize) -> Result<(), Memory>
        ensures { OnOk result (reached_by self.new ≡ with_names table.now
            (functions_at (unit_of items.now) (slice_get self.old.order.items at)) (reached_by self.old)) }
    {
        match self.order.get(at) {
            None => Ok(()),
            Some(i) => match items.get(*i) {
                None => Ok(()),
                Some(item) => self.reach_item(table, item),
            },
        }
    }

    fn reach(&mut self, item: usize) -> Result<(), Memory>
        ensures { OnOk result (reached_by self.new ≡ with_item (Some item) (reached_by self.old)) }
    {
        if item < self.flags.len() && !self.flags[item] {
            self.flags[item] = true;
            self.order.push(item)?;
        }
        Ok(())
    }

    fn reach_name(&mut self, table: &NameTable<usize>, name: &Name) -> Result<(), Memory>
        ensures { OnOk result (reached_by self.new ≡ with_names table.now (name.now ∷ []) (reached_by self.old)) }
    {
        match table.find(name.as_slice()) {
            None => Ok(()),
            Some(item) => self.reach(item),
        }
    }

    #[tactic(auto, using(crate::proofs::Named::no_functions))]
    fn reach_argument(&mut self, table: &NameTable<usize>, argument: &Arg) -> Result<(), Memory>
        ensures { OnOk result (reached_by self.new ≡ with_names table.now (arg_functions (arg_of argument.now)) (reached_by self.old)) }
    {
        match argument {
            Arg::Value(_) => Ok(()),
            Arg::Address(_) => Ok(()),
            Arg::Function(name) => self.reach_name(table, name),
        }
    }

    fn reach_arguments(&mut self, table: &NameTable<usize>, arguments: &[Arg]) -> Result<(), Memory>
        ensures { OnOk result (reached_by self.new ≡ with_names table.now (flat_map arg_functions (map arg_of arguments.now))
            (reached_by self.old)) }
    {
        for argument in arguments {
            self.reach_argument(table, argument)?;
        }
        Ok(())
    }

    fn reach_callee(&mut self, table: &NameTable<usize>, callee: &Callee) -> Result<(), Memory>
        ensures { OnOk result (reached_by self.new ≡ with_names table.now (callee_functions (callee_of callee.now)) (reached_by self.old)) }
    {
        match callee {
            Callee::Named(name) => self.reach_name(table, name),
            Callee::Through(_, _) => Ok(()),
        }
    }

    #[tactic(auto, using(crate::proofs::Named::no_functions, crate::proofs::Named::neither_functions, crate::proofs::Named::call_functions))]
    fn reach_statement(&mut self, table: &NameTable<usize>, statement: &Stmt) -> Result<(), Memory>
        ensures { OnOk result (reached_by self.new ≡ with_names table.now (stmt_functions (stmt_of statement.now)) (reached_by self.old)) }
    {
        match statement {
            Stmt::Set(_, value) => self.reach_argument(table, value),
            Stmt::Call(_, callee, arguments) => {
                self.reach_callee(table, callee)?;
                self.reach_arguments(table, arguments.as_slice())
            }
            Stmt::Return(value) => self.reach_argument(table, value),
            Stmt::Label(_) => Ok(()),
            Stmt::Null => Ok(()),
            Stmt::SetStar(_, _) => Ok(()),
            Stmt::Goto(_) => Ok(()),
            Stmt::If(_, _, _, _) => Ok(()),
            Stmt::Switch(_, _, _) => Ok(()),
            Stmt::ReturnNone => Ok(()),
        }
    }

    fn reach_statements(
        &mut self,
        table: &NameTable<usize>,
        statements: &[Stmt],
    ) -> Result<(), Memory>
        ensures { OnOk result (reached_by self.new ≡ with_names table.now (flat_map stmt_functions (map stmt_of statements.now))
            (reached_by self.old)) }
    {
        for statement in statements {
            self.reach_statement(table, statement)?;
        }
        Ok(())
    }

    fn reach_body(&mut self, table: &NameTable<usize>, body: &Option<Body>) -> Result<(), Memory>
        ensures { OnOk result (reached_by self.new ≡ with_names table.now (body_functions (maybe_body_of body.now)) (reached_by self.old)) }
    {
        match body {
            None => Ok(()),
            Some(body) => self.reach_statements(table, body.stmts.as_slice()),
        }
    }

    fn reach_item(&mut self, table: &NameTable<usize>, item: &Item) -> Result<(), Memory>
        ensures { OnOk result (reached_by self.new ≡ with_names table.now (item_functions (item_of item.now)) (reached_by self.old)) }
    {
        match item {
            Item::Func(f) => self.reach_body(table, &f.body),
            Item::Array(_, _, _) => Ok(()),
            Item::Var(_, _, _) => Ok(()),
        }
    }
}
