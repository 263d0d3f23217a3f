// The objects of linked units.
ghost use Rattle.std.specs.Prelude.{◌≡◌, ℕ, true, false, Some, is_some, IfOk, map};
ghost use Rattle.c_meaning.specs.Machine.{with_var};
ghost use Rattle.w2c_base.specs.Run.{Trail};
ghost use Rattle.c_meaning.specs.State.{Pointer};
ghost use Rattle.c_objects.specs.Calls.{meaning_of, memory_effect, table_effect};
ghost use Rattle.c_objects.specs.Stores.{machine_of, var_at, AreStored};
ghost use Rattle.c_objects.specs.Views.{address_of, effect_of, value_of, Keeps, Naming};

use crate::done::Done;
use crate::held::{Held, Object, ObjectId};
use crate::memory::{MemoryCall, MemoryCell};
use crate::request::{Request, asked};
use crate::table::{TableCall, TableCell};
use c_tree::Primitive;
use std::alloc::Global;
use w2c_base::Memory;

/// The objects of a unit, each kind in the order of its items.
#[derive(Drop)]
pub struct UnitObjects {
    pub vars: Vec<Held>,
    pub memories: Vec<MemoryCell>,
    pub tables: Vec<TableCell>,
}

/// The objects of units in order.
#[derive(Drop)]
pub struct Store {
    pub units: Vec<UnitObjects>,
}

impl Store {
    /// Runs a primitive.
    #[tactic(auto, using(crate::proofs::Kept::keeps_same))]
    pub fn apply(
        &mut self,
        alloc: Global,
        primitive: Primitive,
        args: &[Held],
    ) -> Result<Done, Memory>
        ensures effect { IfOk result (λ d. (names : Naming) (depth : ℕ) (trail : Trail) → AreStored names self.old.units.items
            → meaning_of primitive (map (value_of names) args.now) (machine_of names depth trail self.old.units.items)
            ≡ effect_of names (machine_of names depth trail self.new.units.items) d) }
        ensures stored { IfOk result (λ d. (names : Naming) → AreStored names self.old.units.items → AreStored names self.new.units.items) }
        ensures kept { IfOk result (λ d. (names : Naming) (depth : ℕ) (trail : Trail) → AreStored names self.old.units.items
            → Keeps d (machine_of names depth trail self.old.units.items) (machine_of names depth trail self.new.units.items)) }
    {
        match asked(primitive, args) {
            Request::Ended(done) => Ok(done),
            Request::OnMemory(at, call) => Ok(self.on_memory(alloc, at, call)?),
            Request::OnTable(at, call) => Ok(self.on_table(alloc, at, call)?),
        }
    }

    /// What the variable there holds, None where no variable is.
    pub fn var(&self, at: ObjectId) -> Option<Held>
        ensures { result ≡ var_at self.now.units.items at }
    {
        let Object::Variable(number) = at.object else {
            return None;
        };
        self.units.get(at.unit)?.vars.get(number).copied()
    }

    /// Gives the variable there another value. False where no variable is.
    pub fn set_var(&mut self, at: ObjectId, value: Held) -> bool
        ensures found { result ≡ is_some (var_at self.old.units.items at) }
        ensures effect { (names : Naming) (depth : ℕ) (trail : Trail) → AreStored names self.old.units.items → result ≡ true
            → with_var (machine_of names depth trail self.old.units.items) (address_of names at) (value_of names value) ≡ machine_of names depth trail self.new.units.items }
        ensures stored { (names : Naming) → AreStored names self.old.units.items → AreStored names self.new.units.items }
        ensures kept { result ≡ false → self.new.units.items ≡ self.old.units.items }
    {
        let Object::Variable(number) = at.object else {
            return false;
        };
        let Some(unit) = self.units.get_mut(at.unit) else {
            return false;
        };
        let Some(place) = unit.vars.get_mut(number) else {
            return false;
        };
        *place = value;
        true
    }

    // On the memory that stands there.
    fn on_memory(&mut self, alloc: Global, at: ObjectId, call: MemoryCall) -> Result<Done, Memory>
        ensures effect { IfOk result (λ d. (names : Naming) (depth : ℕ) (trail : Trail) → AreStored names self.old.units.items
            → memory_effect call (Pointer (Some (address_of names at))) (machine_of names depth trail self.old.units.items)
            ≡ effect_of names (machine_of names depth trail self.new.units.items) d) }
        ensures stored { IfOk result (λ d. (names : Naming) → AreStored names self.old.units.items → AreStored names self.new.units.items) }
        ensures kept { IfOk result (λ d. (names : Naming) (depth : ℕ) (trail : Trail) → AreStored names self.old.units.items
            → Keeps d (machine_of names depth trail self.old.units.items) (machine_of names depth trail self.new.units.items)) }
    {
        let Object::Memory(number) = at.object else {
            return Ok(Done::NoEffect);
        };
        let Some(unit) = self.units.get_mut(at.unit) else {
            return Ok(Done::NoEffect);
        };
        let Some(cell) = unit.memories.get_mut(number) else {
            return Ok(Done::NoEffect);
        };
        Ok(cell.apply(alloc, call)?)
    }

    // On the table that stands there.
    fn on_table(&mut self, alloc: Global, at: ObjectId, call: TableCall) -> Result<Done, Memory>
        ensures effect { IfOk result (λ d. (names : Naming) (depth : ℕ) (trail : Trail) → AreStored names self.old.units.items
            → table_effect names call (Pointer (Some (address_of names at))) (machine_of names depth trail self.old.units.items)
            ≡ effect_of names (machine_of names depth trail self.new.units.items) d) }
        ensures stored { IfOk result (λ d. (names : Naming) → AreStored names self.old.units.items → AreStored names self.new.units.items) }
        ensures kept { IfOk result (λ d. (names : Naming) (depth : ℕ) (trail : Trail) → AreStored names self.old.units.items
            → Keeps d (machine_of names depth trail self.old.units.items) (machine_of names depth trail self.new.units.items)) }
    {
        let Object::Table(number) = at.object else {
            return Ok(Done::NoEffect);
        };
        let Some(unit) = self.units.get_mut(at.unit) else {
            return Ok(Done::NoEffect);
        };
        let Some(cell) = unit.tables.get_mut(number) else {
            return Ok(Done::NoEffect);
        };
        Ok(cell.apply(alloc, call)?)
    }
}
