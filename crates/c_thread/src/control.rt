// Jumps and returns in linked units.
ghost use Rattle.std.specs.Prelude.{◌≡◌, ◌∷◌, IfOk, ◌-◌, ◌<◌, ◌^◌, length, map, option_map, slice_get, MatchOption, None, Some};
ghost use Rattle.w2c_base.specs.Run.{Trail};
ghost use Rattle.c_tree.specs.View.{body_of, func_of, stmt_of, unit_of};
ghost use Rattle.c_meaning.specs.State.{Running};
ghost use Rattle.c_meaning.specs.Linking.{Program};
ghost use Rattle.c_meaning.specs.Step.{give as give_of, jump as jump_of, returned, take_effect};
ghost use Rattle.c_objects.specs.Calls.{meaning_of};
ghost use Rattle.c_objects.specs.Stores.{AreStored};
ghost use Rattle.c_objects.specs.Views.{value_of, Naming};
ghost use Rattle.c_thread.specs.Linked.{below_in, items_at, machine_in, place_in, running_in, step_in, waiting_in, AreObjectTables, HaveUnitTables, IsLinked};
ghost use Rattle.c_machine.specs.Names.{label_in, number_in, Finds};
ghost use Rattle.c_machine.specs.Tables.{IsFunctionOf, IsTables};
ghost use Rattle.c_machine.specs.Threads.{definition_in, names_at, stmts_at, target_of};

use crate::linked::{LinkedFrame, LinkedStep, LinkedThread};
use crate::scope::ObjectTables;
use crate::types::is_returned;
use c_machine::{Function, NumberedNames, Tables, definition};
use c_objects::{Done, Held};
use c_tree::{Body, CType, Func, Primitive, Stmt, Unit};
use std::alloc::Global;
use std::rc::Rc;
use w2c_base::Memory;

/// A unit, which others may hold too, with its tables.
#[derive(Drop)]
pub struct LinkedUnit {
    pub items: Rc<Unit>,
    pub functions: Tables,
    pub objects: ObjectTables,
}

impl LinkedUnit {
    /// The items.
    pub fn unit(&self) -> &Unit
        ensures { result.now ≡ self.now.items.value }
    {
        &self.items
    }

    /// The function that an item defines, without statements where it defines none. None where there
    /// is no item.
    pub fn function(&self, item: usize) -> Option<Function<'_>>
        requires { IsTables self.now.functions (unit_of self.now.items.value) }
        ensures { MatchOption result (slice_get (unit_of self.now.items.value) item ≡ None)
            (λ f. IsFunctionOf (unit_of self.now.items.value) item f.result (map stmt_of f.stmts.now) f.table.now) }
    {
        self.functions.function(self.unit(), item)
    }

    /// The function that an item defines, and its body.
    pub fn definition(&self, item: usize) -> Option<(&Func, &Body)>
        ensures { option_map (λ x. record { item = item; func = func_of x.0.now; body = body_of x.1.now }) result
            ≡ definition_in (unit_of self.now.items.value) item }
    {
        definition(self.unit(), item)
    }
}

/// A function's table and those of its unit's objects, where a value goes to a name.
#[derive(Clone, Copy)]
struct Receiver<'a> {
    name: &'a [u8],
    locals: &'a NumberedNames,
    objects: &'a ObjectTables,
}

// The name that the value of the call in front of the position goes to, with its tables.
fn waiting_name<'a>(units: &'a [LinkedUnit], frame: &LinkedFrame) -> Option<Receiver<'a>>
    requires { HaveUnitTables units.now }
    ensures { (names : Naming) (p : Program) → IsLinked names p units.now → MatchOption result
        (target_of (slice_get (stmts_at (items_at p frame.now.unit) frame.now.item) (frame.now.at - 1)) ≡ None)
        (λ x. (target_of (slice_get (stmts_at (items_at p frame.now.unit) frame.now.item) (frame.now.at - 1)) ≡ Some x.name.now)
        × Finds x.locals.now (λ q. number_in q (names_at (items_at p frame.now.unit) frame.now.item))
        × AreObjectTables names p frame.now.unit x.objects.now) }
{
    let Some(unit) = unit_at(units, frame.unit) else {
        return None;
    };
    let Some(function) = unit.function(frame.item) else {
        return None;
    };
    let Some(name) = target_in(function.stmts, frame.at) else {
        return None;
    };
    Some(Receiver {
        name,
        locals: &function.table.locals,
        objects: &unit.objects,
    })
}

pub fn unit_at(units: &[LinkedUnit], unit: usize) -> Option<&LinkedUnit>
    ensures { MatchOption result (slice_get units.now unit ≡ None) (λ l. slice_get units.now unit ≡ Some l.now) }
{
    units.get(unit)
}

// The name that the value of the call in front of a position goes to.
fn target_in(stmts: &[Stmt], at: usize) -> Option<&[u8]>
    ensures { MatchOption result (target_of (slice_get (map stmt_of stmts.now) (at - 1)) ≡ None) (λ name. target_of (slice_get (map stmt_of stmts.now) (at - 1)) ≡ Some name.now) }
{
    match stmts.get(at.saturating_sub(1)) {
        Some(Stmt::Call(Some(name), _, _)) => Some(name.as_slice()),
        _ => None,
    }
}

impl LinkedThread {
    /// Return (6.8.6.4) from a function with a result of this type.
    pub fn give_back(&mut self, units: &[LinkedUnit], ty: CType, value: Option<Held>) -> LinkedStep
        requires { HaveUnitTables units.now }
        ensures step { (names : Naming) (p : Program) (trail : Trail) (r : Running) → r.result ≡ ty → IsLinked names p units.now → AreStored names self.old.store.units.items
            → returned (machine_in names trail self.old) r (option_map (value_of names) value) (below_in names p self.old.below.items) ≡ step_in names p trail result self.new }
        ensures stored { (names : Naming) → AreStored names self.old.store.units.items → AreStored names self.new.store.units.items }
    {
        if !is_returned(ty, value) {
            return LinkedStep::Stuck;
        }
        self.give(units, value)
    }

    /// The value goes to the function below, or from the one that was begun.
    pub fn give(&mut self, units: &[LinkedUnit], value: Option<Held>) -> LinkedStep
        requires { HaveUnitTables units.now }
        ensures step { (names : Naming) (p : Program) (trail : Trail) → IsLinked names p units.now → AreStored names self.old.store.units.items
            → give_of (machine_in names trail self.old) (option_map (value_of names) value) (below_in names p self.old.below.items) ≡ step_in names p trail result self.new }
        ensures stored { (names : Naming) → AreStored names self.old.store.units.items → AreStored names self.new.store.units.items }
    {
        let Some(frame) = self.below.pop() else {
            return LinkedStep::Back(value);
        };
        self.top = frame;
        self.receive(units, value)
    }

    /// The value of a call comes to the function that made it.
    pub fn receive(&mut self, units: &[LinkedUnit], value: Option<Held>) -> LinkedStep
        requires { HaveUnitTables units.now }
        ensures step { (names : Naming) (p : Program) (trail : Trail) → IsLinked names p units.now → AreStored names self.old.store.units.items
            → give_of (machine_in names trail self.old) (option_map (value_of names) value)
            (waiting_in names p self.old.top ∷ below_in names p self.old.below.items) ≡ step_in names p trail result self.new }
        ensures stored { (names : Naming) → AreStored names self.old.store.units.items → AreStored names self.new.store.units.items }
    {
        let Some(to) = waiting_name(units, &self.top) else {
            return LinkedStep::Next;
        };
        let Some(value) = value else {
            return LinkedStep::Stuck;
        };
        self.assign(to.locals, to.objects, to.name, value)
    }

    /// The call of a primitive (6.5.2.2).
    pub fn call_primitive(
        &mut self,
        alloc: Global,
        units: &[LinkedUnit],
        primitive: Primitive,
        values: &[Held],
    ) -> Result<LinkedStep, Memory>
        requires { HaveUnitTables units.now }
        ensures step { IfOk result (λ o. (names : Naming) (p : Program) (trail : Trail) → IsLinked names p units.now → AreStored names self.old.store.units.items
            → take_effect (meaning_of primitive (map (value_of names) values.now) (machine_in names trail self.old))
            (place_in self.old.top) (machine_in names trail self.old)
            (waiting_in names p self.old.top ∷ below_in names p self.old.below.items)
            ≡ step_in names p trail o self.new) }
        ensures stored { IfOk result (λ o. (names : Naming) → AreStored names self.old.store.units.items → AreStored names self.new.store.units.items) }
    {
        match self.store.apply(alloc, primitive, values)? {
            Done::Gives(value) => Ok(self.receive(units, value)),
            Done::Trapped(kind) => Ok(LinkedStep::Trapped(kind)),
            Done::Undefined(kind) => Ok(LinkedStep::Undefined(kind)),
            Done::NoEffect => Ok(LinkedStep::Stuck),
        }
    }

    /// Goto (6.8.6.1).
    pub fn go_to(&mut self, function: Function<'_>, name: &[u8]) -> LinkedStep
        requires labels { Finds function.table.now.labels (λ q. label_in q (map stmt_of function.stmts.now)) }
        requires count { length function.stmts.now < 2 ^ 64 }
        ensures step { (names : Naming) (p : Program) (trail : Trail) → stmts_at (items_at p self.old.top.unit) self.old.top.item ≡ map stmt_of function.entry.stmts.now
            → jump_of (machine_in names trail self.old) (running_in names p self.old.top) name.now (below_in names p self.old.below.items) ≡ step_in names p trail result self.new }
        ensures stored { (names : Naming) → AreStored names self.old.store.units.items → AreStored names self.new.store.units.items }
    {
        match function.table.labels.find(name) {
            Some(place) => {
                self.top.at = place + 1;
                LinkedStep::Next
            }
            None => LinkedStep::Stuck,
        }
    }
}
