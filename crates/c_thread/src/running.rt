// Runs of so many statements of linked units.
ghost use Rattle.std.specs.Prelude.{◌≡◌, ◌-◌, ◌≤◌, IfOk};
ghost use Rattle.w2c_base.specs.Run.{Trail};
ghost use Rattle.c_meaning.specs.Linking.{Program};
ghost use Rattle.c_meaning.specs.Run.{Going, Pending, go_on};
ghost use Rattle.c_meaning.specs.Reaches.{Reaches};
ghost use Rattle.c_objects.specs.Stores.{AreStored};
ghost use Rattle.c_objects.specs.Views.{Naming};
ghost use Rattle.c_thread.specs.FuncTypes.{AreFuncTypes};
ghost use Rattle.c_thread.specs.Linked.{state_in, step_in, HaveUnitTables, IsLinked};
ghost use Rattle.c_thread.specs.declared.linked.LinkedStep.TheVariants as outcome;

use crate::control::LinkedUnit;
use crate::linked::{LinkedStep, LinkedThread};
use crate::signatures::FuncTypes;
use std::alloc::Global;
use w2c_base::Memory;

impl LinkedThread {
    /// Runs statements until one comes to something else than the next statement, or the steps are
    /// spent. Next exactly where they are spent. Each statement takes one step.
    pub fn run(
        &mut self,
        alloc: Global,
        units: &[LinkedUnit],
        types: &FuncTypes,
        steps: &mut u64,
    ) -> Result<LinkedStep, Memory>
        requires tables { HaveUnitTables units.now }
        ensures reaches { IfOk result (λ o. (names : Naming) (p : Program) (trail : Trail) (pending : Pending)
            → IsLinked names p units.now → AreFuncTypes names p types.now → AreStored names self.old.store.units.items
            → Reaches p (steps.old - steps.new) (Going pending (state_in names p trail self.old)) (go_on p pending (step_in names p trail o self.new))) }
        ensures stored { IfOk result (λ o. (names : Naming) → AreStored names self.old.store.units.items → AreStored names self.new.store.units.items) }
        ensures spent { IfOk result (λ o. o ≡ outcome.Next → steps.new ≡ 0) }
        ensures fewer { steps.new ≤ steps.old }
    {
        while *steps > 0 {
            *steps -= 1;
            match self.step(alloc, units, types)? {
                LinkedStep::Next => {}
                other => return Ok(other),
            }
        }
        Ok(LinkedStep::Next)
    }
}
