// Functions of linked units that run, and those that wait for them.
ghost use Rattle.std.specs.Prelude.{◌≡◌, ◌<◌, length, slice_get, MatchOption, None, Some, option_map};
ghost use Rattle.w2c_base.specs.Lookup.{if_found, named};
ghost use Rattle.w2c_base.specs.Run.{Trail};
ghost use Rattle.c_meaning.specs.State.{Pointer as PointerTo};
ghost use Rattle.c_meaning.specs.Linking.{Program};
ghost use Rattle.c_meaning.specs.Step.{assign as assign_of};
ghost use Rattle.c_objects.specs.Stores.{AreStored};
ghost use Rattle.c_objects.specs.Views.{address_of, value_of, Naming};
ghost use Rattle.c_thread.specs.Linked.{assigned_in_unit, assigned_to, below_in, items_at, machine_in, place_in, put_at, running_in, step_in, AreObjectTables};
ghost use Rattle.c_machine.specs.Names.{Finds, number_in};
ghost use Rattle.c_machine.specs.Threads.{names_at};

use crate::scope::ObjectTables;
use crate::types::are_of_one_type;
use c_machine::NumberedNames;
use c_objects::{Held, Object, ObjectId, Store};
use c_tree::is_depth;
use w2c_base::{TrapKind, Value};

// The kind of what is undefined.
const NULL_POINTER: u32 = 4;

/// A function that runs: the numbers of its unit and item, the number of the next statement, and the
/// values of its parameters and locals in the order of their declarations.
#[derive(Drop)]
pub struct LinkedFrame {
    pub unit: usize,
    pub item: usize,
    pub at: usize,
    pub values: Vec<Held>,
}

/// The function that runs, those that wait below it, the innermost last, the objects of the units,
/// and w2c_depth.
#[derive(Drop)]
pub struct LinkedThread {
    pub depth: u32,
    pub store: Store,
    pub top: LinkedFrame,
    pub below: Vec<LinkedFrame>,
}

/// The call of a host's function, both by number from 0.
#[derive(Drop)]
pub struct HostCall {
    pub host: usize,
    pub function: usize,
    pub args: Vec<Value>,
}

/// What a statement came to.
#[derive(Drop)]
pub enum LinkedStep {
    /// The next statement.
    Next,
    /// The end of the function that was begun, with its value.
    Back(Option<Held>),
    /// A trap.
    Trapped(TrapKind),
    /// What is undefined, by its kind, at the statement in front of the position.
    Undefined(u32),
    /// No rule applies.
    Stuck,
    /// A host is asked by the function on top.
    Asks(HostCall),
}

impl LinkedThread {
    /// Assignment (6.5.16) to w2c_depth, a parameter or a local, or a variable of the unit, which
    /// hold a value of the same type.
    pub fn assign(
        &mut self,
        names: &NumberedNames,
        objects: &ObjectTables,
        name: &[u8],
        value: Held,
    ) -> LinkedStep
        ensures step { (naming : Naming) (p : Program) (trail : Trail)
            → Finds names.now (λ q. number_in q (names_at (items_at p self.old.top.unit) self.old.top.item))
            → AreObjectTables naming p self.old.top.unit objects.now → AreStored naming self.old.store.units.items
            → assign_of (machine_in naming trail self.old) (running_in naming p self.old.top) name.now (value_of naming value) (below_in naming p self.old.below.items)
            ≡ step_in naming p trail result self.new }
        ensures stored { (names : Naming) → AreStored names self.old.store.units.items → AreStored names self.new.store.units.items }
    {
        if is_depth(name) {
            return match value {
                Held::Number(Value::I32(n)) => {
                    self.depth = n;
                    LinkedStep::Next
                }
                Held::Number(Value::I64(_)) => LinkedStep::Stuck,
                Held::Pointer(_) => LinkedStep::Stuck,
                Held::FuncPointer(_) => LinkedStep::Stuck,
            };
        }
        match place_of(names, self.top.values.as_slice(), name) {
            Some(place) => {
                if !are_of_one_type(self.top.values[place], value) {
                    return LinkedStep::Stuck;
                }
                self.top.values[place] = value;
                LinkedStep::Next
            }
            None => self.assign_of_unit(objects, name, value),
        }
    }

    // Assignment to a variable of the unit.
    fn assign_of_unit(&mut self, objects: &ObjectTables, name: &[u8], value: Held) -> LinkedStep
        ensures step { (naming : Naming) (p : Program) (trail : Trail)
            → AreObjectTables naming p self.old.top.unit objects.now → AreStored naming self.old.store.units.items
            → assigned_in_unit (machine_in naming trail self.old) (running_in naming p self.old.top) name.now (value_of naming value) (below_in naming p self.old.below.items)
            ≡ step_in naming p trail result self.new }
        ensures stored { (names : Naming) → AreStored names self.old.store.units.items → AreStored names self.new.store.units.items }
    {
        let Some(number) = objects.vars.find(name) else {
            return LinkedStep::Stuck;
        };
        let at = ObjectId {
            unit: self.top.unit,
            object: Object::Variable(number),
        };
        self.put(at, value)
    }

    // A value goes to a variable that holds one of its type.
    fn put(&mut self, at: ObjectId, value: Held) -> LinkedStep
        ensures step { (naming : Naming) (p : Program) (trail : Trail) → AreStored naming self.old.store.units.items
            → put_at (machine_in naming trail self.old) (running_in naming p self.old.top) (address_of naming at) (value_of naming value) (below_in naming p self.old.below.items)
            ≡ step_in naming p trail result self.new }
        ensures stored { (names : Naming) → AreStored names self.old.store.units.items → AreStored names self.new.store.units.items }
    {
        let Some(held) = self.store.var(at) else {
            return LinkedStep::Stuck;
        };
        if !are_of_one_type(held, value) {
            return LinkedStep::Stuck;
        }
        self.store.set_var(at, value);
        LinkedStep::Next
    }

    /// Assignment of a number to what a pointer points to (6.5.3.2, 6.5.16).
    pub fn assign_to(&mut self, pointer: Option<Held>, value: Value) -> LinkedStep
        ensures step { (naming : Naming) (p : Program) (trail : Trail) → AreStored naming self.old.store.units.items
            → assigned_to (machine_in naming trail self.old) (running_in naming p self.old.top) (place_in self.old.top)
            (option_map (value_of naming) pointer) value (below_in naming p self.old.below.items)
            ≡ step_in naming p trail result self.new }
        ensures stored { (names : Naming) → AreStored names self.old.store.units.items → AreStored names self.new.store.units.items }
    {
        match pointer {
            Some(Held::Pointer(to)) => self.assign_at(to, value),
            Some(Held::Number(_)) => LinkedStep::Stuck,
            Some(Held::FuncPointer(_)) => LinkedStep::Stuck,
            None => LinkedStep::Stuck,
        }
    }

    fn assign_at(&mut self, to: Option<ObjectId>, value: Value) -> LinkedStep
        ensures step { (naming : Naming) (p : Program) (trail : Trail) → AreStored naming self.old.store.units.items
            → assigned_to (machine_in naming trail self.old) (running_in naming p self.old.top) (place_in self.old.top)
            (Some (PointerTo (option_map (address_of naming) to))) value (below_in naming p self.old.below.items)
            ≡ step_in naming p trail result self.new }
        ensures stored { (names : Naming) → AreStored names self.old.store.units.items → AreStored names self.new.store.units.items }
    {
        let Some(at) = to else {
            return LinkedStep::Undefined(NULL_POINTER);
        };
        self.put(at, Held::Number(value))
    }
}

// The number of a parameter or local with its value.
fn place_of(names: &NumberedNames, values: &[Held], name: &[u8]) -> Option<usize>
    ensures { MatchOption result (if_found (named name.now names.now) (λ i. slice_get values.now i) ≡ None) (λ i. (named name.now names.now ≡ Some i) × (i < length values.now)) }
{
    let place = names.find(name)?;
    if place < values.len() {
        Some(place)
    } else {
        None
    }
}
