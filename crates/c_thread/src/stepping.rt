// One statement of linked units.
ghost use Rattle.std.specs.Prelude.{◌≡◌, ◌==◌, ◌∷◌, ◌-◌, ◌^◌, ◌<◌, not, false, drop, length, map, option_map, slice_get, IfOk, List, Some};
ghost use Rattle.w2c_base.specs.Run.{Trail};
ghost use Rattle.w2c_base.specs.Values.{number_of};
ghost use Rattle.c_tree.specs.Tree as tree;
ghost use Rattle.c_tree.specs.View.{callee_of, expr_of, stmt_of, unit_of};
ghost use Rattle.c_meaning.specs.State.{CValue, Frame as Waiting, Is, Machine, Place, Running, then_evaluate};
ghost use Rattle.c_meaning.specs.Linking.{Program};
ghost use Rattle.c_meaning.specs.Step.{act, at_rest, c_step, call_callee, evaluate as evaluate_of};
ghost use Rattle.c_objects.specs.Stores.{AreStored};
ghost use Rattle.c_objects.specs.Views.{value_of as held_of, Naming};
ghost use Rattle.c_machine.specs.Scope.{evaluated};
ghost use Rattle.c_thread.specs.Sights.{sight_of, Sees};
ghost use Rattle.c_thread.specs.Linked.{below_in, failed, items_at, machine_in, place_in, resolved, running_in, state_in, step_in, waiting_in, AreObjectTables, HaveUnitTables, IsLinked};
ghost use Rattle.c_thread.specs.FuncTypes.{AreFuncTypes};
ghost use Rattle.c_machine.specs.Names.{is_label};
ghost use Rattle.c_machine.specs.Tables.{IsFunctionOf};
ghost use Rattle.c_machine.specs.Threads.{stmts_at};
ghost use Rattle.c_thread.specs.declared.linked.LinkedThread.{LinkedThread as AnyThread};

use crate::control::{LinkedUnit, unit_at};
use crate::linked::{LinkedStep, LinkedThread};
use crate::scope::UnitScope;
use crate::signatures::FuncTypes;
use crate::values::{held_by, held_by_all, value};
use c_machine::{Fault, Function, label_for, operate};
use c_objects::Held;
use c_tree::{COp, Callee, Expr, Stmt};
use std::alloc::Global;
use w2c_base::{Memory, Value};

impl LinkedThread {
    /// Runs one statement (C11, 6.8). Labels in front of it cost nothing.
    pub fn step(
        &mut self,
        alloc: Global,
        units: &[LinkedUnit],
        types: &FuncTypes,
    ) -> Result<LinkedStep, Memory>
        requires tables { HaveUnitTables units.now }
        ensures step { IfOk result (λ o. (names : Naming) (p : Program) (trail : Trail) → IsLinked names p units.now
            → AreFuncTypes names p types.now → AreStored names self.old.store.units.items
            → c_step p (state_in names p trail self.old) ≡ step_in names p trail o self.new) }
        ensures stored { IfOk result (λ o. (names : Naming) → AreStored names self.old.store.units.items → AreStored names self.new.store.units.items) }
    {
        let Some(own) = unit_at(units, self.top.unit) else {
            return Ok(LinkedStep::Stuck);
        };
        let Some(function) = own.function(self.top.item) else {
            return Ok(LinkedStep::Stuck);
        };
        let Some((place, stmt)) = function.table.statement_from(function.stmts, self.top.at) else {
            return Ok(LinkedStep::Stuck);
        };
        self.top.at = place + 1;
        Ok(self.execute(alloc, units, types, own, function, stmt)?)
    }

    // What the function on top sees.
    fn scope_of<'a>(&'a self, own: &'a LinkedUnit, function: Function<'a>) -> UnitScope<'a>
        requires function { IsFunctionOf (unit_of own.now.items.value) self.now.top.item function.result (map stmt_of function.stmts.now) function.table.now }
        ensures { (names : Naming) (p : Program) (trail : Trail) (rest : List tree.Stmt) → items_at p self.now.top.unit ≡ unit_of own.now.items.value
            → AreObjectTables names p self.now.top.unit own.now.objects → AreStored names self.now.store.units.items
            → Sees names (sight_of result) p (machine_in names trail self.now) (at_rest (running_in names p self.now.top) rest) }
    {
        UnitScope {
            depth: self.depth,
            unit: self.top.unit,
            items: own.unit(),
            objects: &own.objects,
            locals: &function.table.locals,
            values: self.top.values.as_slice(),
            store: &self.store,
        }
    }

    // The call of a primitive or a function (6.5.2.2).
    fn call(
        &mut self,
        alloc: Global,
        units: &[LinkedUnit],
        types: &FuncTypes,
        own: &LinkedUnit,
        callee: &Callee,
        pointer: Option<Held>,
        values: Vec<Held>,
    ) -> Result<LinkedStep, Memory>
        requires { HaveUnitTables units.now }
        ensures step { IfOk result (λ o. (names : Naming) (p : Program) (trail : Trail) → IsLinked names p units.now → AreFuncTypes names p types.now
            → AreObjectTables names p self.old.top.unit own.now.objects → AreStored names self.old.store.units.items
            → resolved p self.old.top.unit (callee_of callee.now) (option_map (held_of names) pointer) (place_in self.old.top)
            (machine_in names trail self.old) (map (held_of names) values.items)
            (waiting_in names p self.old.top ∷ below_in names p self.old.below.items)
            ≡ step_in names p trail o self.new) }
        ensures stored { IfOk result (λ o. (names : Naming) → AreStored names self.old.store.units.items → AreStored names self.new.store.units.items) }
    {
        match callee {
            Callee::Named(name) => {
                Ok(self.call_named(alloc, units, &own.objects, name.as_slice(), values)?)
            }
            Callee::Through(want, _) => {
                Ok(self.call_through(alloc, units, types, pointer, want, values)?)
            }
        }
    }

    // The statement in front of the position.
    fn execute(
        &mut self,
        alloc: Global,
        units: &[LinkedUnit],
        types: &FuncTypes,
        own: &LinkedUnit,
        function: Function<'_>,
        stmt: &Stmt,
    ) -> Result<LinkedStep, Memory>
        requires tables { HaveUnitTables units.now }
        requires unit { slice_get units.now self.old.top.unit ≡ Some own.now }
        requires function { IsFunctionOf (unit_of own.now.items.value) self.old.top.item function.result (map stmt_of function.stmts.now) function.table.now }
        requires count { length function.stmts.now < 2 ^ 64 }
        requires at { 0 < self.old.top.at }
        requires here { slice_get (stmts_at (unit_of own.now.items.value) self.old.top.item) (self.old.top.at - 1) ≡ Some (stmt_of stmt.now) }
        requires no_label { is_label (stmt_of stmt.now) ≡ false }
        ensures step { IfOk result (λ o. (names : Naming) (p : Program) (trail : Trail) (rest : List tree.Stmt)
            → IsLinked names p units.now → AreFuncTypes names p types.now → AreStored names self.old.store.units.items
            → act p (machine_in names trail self.old) (at_rest (running_in names p self.old.top) rest)
            (stmt_of stmt.now ∷ drop self.old.top.at (stmts_at (items_at p self.old.top.unit) self.old.top.item))
            (below_in names p self.old.below.items)
            ≡ step_in names p trail o self.new) }
        ensures stored { IfOk result (λ o. (names : Naming) → AreStored names self.old.store.units.items → AreStored names self.new.store.units.items) }
    {
        let scope = self.scope_of(own, function);
        match stmt {
            Stmt::Label(_) => Ok(LinkedStep::Stuck),
            Stmt::Null => Ok(LinkedStep::Next),
            Stmt::Set(name, arg) => match held_by(&scope, arg) {
                Ok(value) => Ok(self.assign(
                    &function.table.locals,
                    &own.objects,
                    name.as_slice(),
                    value,
                )),
                Err(fault) => Ok(faulted(fault)),
            },
            Stmt::SetStar(name, e) => match value(&scope, e) {
                Ok(value) => {
                    let pointer = scope.held(name.as_slice());
                    Ok(self.assign_to(pointer, value))
                }
                Err(fault) => Ok(faulted(fault)),
            },
            Stmt::Call(_, callee, args) => match held_by_all(alloc, &scope, args.as_slice())? {
                Ok(values) => {
                    let pointer = pointer_called(&scope, callee);
                    Ok(self.call(alloc, units, types, own, callee, pointer, values)?)
                }
                Err(fault) => Ok(faulted(fault)),
            },
            Stmt::Goto(name) => Ok(self.go_to(function, name.as_slice())),
            Stmt::If(op, left, right, name) => match holds(&scope, *op, left, right) {
                Ok(true) => Ok(self.go_to(function, name.as_slice())),
                Ok(false) => Ok(LinkedStep::Next),
                Err(fault) => Ok(faulted(fault)),
            },
            Stmt::Switch(e, cases, default) => match value(&scope, e) {
                Ok(value) => {
                    let name = label_for(value, cases.as_slice(), default.as_slice());
                    Ok(self.go_to(function, name))
                }
                Err(fault) => Ok(faulted(fault)),
            },
            Stmt::ReturnNone => Ok(self.give_back(units, function.result, None)),
            Stmt::Return(arg) => match held_by(&scope, arg) {
                Ok(value) => Ok(self.give_back(units, function.result, Some(value))),
                Err(fault) => Ok(faulted(fault)),
            },
        }
    }
}

fn faulted(fault: Fault) -> LinkedStep
    ensures { (names : Naming) (p : Program) (trail : Trail) (t : AnyThread) → failed (machine_in names trail t) (place_in t.top) fault ≡ step_in names p trail result t }
{
    match fault {
        Fault::Undefined(kind) => LinkedStep::Undefined(kind),
        Fault::NoRule => LinkedStep::Stuck,
    }
}

// Whether a comparison holds.
fn holds(scope: &UnitScope<'_>, op: COp, left: &Expr, right: &Expr) -> Result<bool, Fault>
    ensures { (names : Naming) (p : Program) (m : Machine) (r : Running) → Sees names (sight_of scope.now) p m r
        → evaluated result ≡ then_evaluate (evaluate_of p m r (tree.Op op (expr_of left.now) (expr_of right.now))) (λ v. Is (not (number_of v == 0))) }
{
    let x = value(scope, left)?;
    let y = value(scope, right)?;
    match operate(op, x, y)? {
        Value::I32(n) => Ok(n != 0),
        Value::I64(n) => Ok(n != 0),
    }
}

// The pointer that a call goes through.
fn pointer_called(scope: &UnitScope<'_>, callee: &Callee) -> Option<Held>
    ensures { (names : Naming) (p : Program) (m : Machine) (r : Running) (place : Place) (args : List CValue) (below : List Waiting) → Sees names (sight_of scope.now) p m r
        → call_callee p (callee_of callee.now) place m r args below ≡ resolved p r.unit (callee_of callee.now) (option_map (held_of names) result) place m args below }
{
    match callee {
        Callee::Named(_) => None,
        Callee::Through(_, name) => scope.held(name.as_slice()),
    }
}
