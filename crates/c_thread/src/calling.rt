// Calls of functions of linked units and of hosts.
ghost use Rattle.std.specs.Prelude.{◌≡◌, ◌∷◌, IfOk, List, Some, true, map, option_map};
ghost use Rattle.w2c_base.specs.Run.{Ask, Event, Gave, Reply, Trail, asked};
ghost use Rattle.w2c_base.specs.Values.{is_result};
ghost use Rattle.c_meaning.specs.State.{UnitFunc};
ghost use Rattle.c_meaning.specs.Linking.{Program};
ghost use Rattle.c_meaning.specs.Step.{ask as ask_of, call as call_of, call_named as call_named_of, numbers as numbers_of, replied};
ghost use Rattle.c_objects.specs.Stores.{AreStored};
ghost use Rattle.c_objects.specs.Views.{func_of, item_name, value_of, Naming};
ghost use Rattle.c_thread.specs.Linked.{below_in, machine_in, place_in, called, step_in, waiting_in, AreObjectTables, HaveUnitTables, IsLinked};
ghost use Rattle.c_thread.specs.declared.linked.LinkedThread.{LinkedThread as AnyThread};
ghost use Rattle.w2c_base.specs.declared.signature.FuncType.{FuncType};

use crate::control::LinkedUnit;
use crate::linked::{HostCall, LinkedFrame, LinkedStep, LinkedThread};
use crate::scope::ObjectTables;
use c_objects::{FuncId, Held, primitive_named};
use std::alloc::Global;
use std::mem::replace;
use w2c_base::{Memory, Value};

impl LinkedThread {
    /// A primitive, else a function that the name stands for (6.5.2.2).
    pub fn call_named(
        &mut self,
        alloc: Global,
        units: &[LinkedUnit],
        objects: &ObjectTables,
        name: &[u8],
        values: Vec<Held>,
    ) -> Result<LinkedStep, Memory>
        requires { HaveUnitTables units.now }
        ensures step { IfOk result (λ o. (names : Naming) (p : Program) (trail : Trail) → IsLinked names p units.now
            → AreObjectTables names p self.old.top.unit objects.now → AreStored names self.old.store.units.items
            → call_named_of p self.old.top.unit name.now (place_in self.old.top) (machine_in names trail self.old)
            (map (value_of names) values.items) (waiting_in names p self.old.top ∷ below_in names p self.old.below.items)
            ≡ step_in names p trail o self.new) }
        ensures stored { IfOk result (λ o. (names : Naming) → AreStored names self.old.store.units.items → AreStored names self.new.store.units.items) }
    {
        match primitive_named(name) {
            Some(primitive) => {
                Ok(self.call_primitive(alloc, units, primitive, values.as_slice())?)
            }
            None => Ok(self.call_function(alloc, units, objects.func(name), values)?),
        }
    }

    /// The call of a function, where there is one.
    pub fn call_function(
        &mut self,
        alloc: Global,
        units: &[LinkedUnit],
        func: Option<FuncId>,
        values: Vec<Held>,
    ) -> Result<LinkedStep, Memory>
        ensures step { IfOk result (λ o. (names : Naming) (p : Program) (trail : Trail) → IsLinked names p units.now
            → called p (option_map (func_of names) func) (machine_in names trail self.old) (map (value_of names) values.items)
            (waiting_in names p self.old.top ∷ below_in names p self.old.below.items)
            ≡ step_in names p trail o self.new) }
        ensures stored { IfOk result (λ o. (names : Naming) → AreStored names self.old.store.units.items → AreStored names self.new.store.units.items) }
    {
        match func {
            Some(FuncId::Unit(unit, item)) => Ok(self.enter(units, unit, item, values)?),
            Some(FuncId::Host(host, function)) => {
                Ok(ask(alloc, host, function, values.as_slice())?)
            }
            None => Ok(LinkedStep::Stuck),
        }
    }

    // The call of a function that an item of a unit defines.
    fn enter(
        &mut self,
        units: &[LinkedUnit],
        unit: usize,
        item: usize,
        values: Vec<Held>,
    ) -> Result<LinkedStep, Memory>
        ensures step { IfOk result (λ o. (names : Naming) (p : Program) (trail : Trail) → IsLinked names p units.now
            → call_of p (UnitFunc unit (item_name names unit item)) (machine_in names trail self.old) (map (value_of names) values.items)
            (waiting_in names p self.old.top ∷ below_in names p self.old.below.items)
            ≡ step_in names p trail o self.new) }
        ensures stored { IfOk result (λ o. (names : Naming) → AreStored names self.old.store.units.items → AreStored names self.new.store.units.items) }
    {
        match LinkedFrame::begin(units, unit, item, values)? {
            Some(frame) => {
                self.below.push(replace(&mut self.top, frame))?;
                Ok(LinkedStep::Next)
            }
            None => Ok(LinkedStep::Stuck),
        }
    }

    /// The value that a host gave comes to the function that asked.
    pub fn take(&mut self, units: &[LinkedUnit], value: Option<Value>) -> LinkedStep
        requires { HaveUnitTables units.now }
        ensures step { (names : Naming) (p : Program) (trail : Trail) (ty : FuncType) (replies : List Reply) (before : List Event)
            (a : Ask) → IsLinked names p units.now → AreStored names self.old.store.units.items
            → is_result ty.result value ≡ true
            → replied ty (Gave value ∷ replies) before a (machine_in names trail self.old) (waiting_in names p self.old.top ∷ below_in names p self.old.below.items)
            ≡ step_in names p (asked before a (Some (Gave value)) replies) result self.new }
        ensures stored { (names : Naming) → AreStored names self.old.store.units.items → AreStored names self.new.store.units.items }
    {
        match value {
            Some(value) => self.receive(units, Some(Held::Number(value))),
            None => self.receive(units, None),
        }
    }
}

// The call of a host's function: its arguments are numbers.
fn ask(alloc: Global, host: usize, function: usize, values: &[Held]) -> Result<LinkedStep, Memory>
    ensures { IfOk result (λ o. (names : Naming) (p : Program) (trail : Trail) (t : AnyThread)
        → ask_of p host function (machine_in names trail t) (map (value_of names) values.now) (waiting_in names p t.top ∷ below_in names p t.below.items)
        ≡ step_in names p trail o t) }
{
    match numbers(alloc, values)? {
        Some(args) => Ok(LinkedStep::Asks(HostCall {
            host,
            function,
            args,
        })),
        None => Ok(LinkedStep::Stuck),
    }
}

fn numbers(alloc: Global, values: &[Held]) -> Result<Option<Vec<Value>>, Memory>
    ensures { IfOk result (λ o. (names : Naming) → numbers_of (map (value_of names) values.now) ≡ option_map (λ vs. vs.items) o) }
{
    let mut args = Vec::new(alloc);
    for value in values {
        match *value {
            Held::Number(number) => args.push(number)?,
            Held::Pointer(_) => return Ok(None),
            Held::FuncPointer(_) => return Ok(None),
        }
    }
    Ok(Some(args))
}
