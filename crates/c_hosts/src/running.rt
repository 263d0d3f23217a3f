// Functions that run with hosts.
ghost use Rattle.std.specs.Prelude.{◌≡◌, ◌≤◌, ◌-◌, ◌++◌, List, None, IfOk, OnErr};
ghost use Rattle.w2c_base.specs.Run.{Event, Reply, Trail};
ghost use Rattle.c_meaning.specs.Linking.{Program};
ghost use Rattle.c_meaning.specs.Step.{c_step};
ghost use Rattle.c_objects.specs.Stores.{AreStored};
ghost use Rattle.c_objects.specs.Views.{Naming};
ghost use Rattle.c_thread.specs.declared.linked.LinkedStep.TheVariants as step;
ghost use Rattle.c_thread.specs.declared.linked.LinkedThread.{LinkedThread as AnyThread};
ghost use Rattle.c_thread.specs.Linked.{state_in, step_in, HaveUnitTables, IsLinked};
ghost use Rattle.c_hosts.specs.declared.journal.Asked.{Asked};
ghost use Rattle.c_hosts.specs.Asking.{hosts_of};
ghost use Rattle.c_hosts.specs.Running.{settled_in, step_at, trail_before, trail_behind, Asks, IsThread, Runs, RunsPart};

use crate::asking::Hosts;
use crate::host::HostModule;
use c_meaning::HostReply;
use c_objects::Held;
use c_thread::{FuncTypes, HostCall, LinkedStep, LinkedThread, LinkedUnit};
use std::alloc::Global;
use w2c_base::{Memory, TrapKind};

/// What the function that was begun came to.
#[derive(Drop)]
pub enum Ending {
    /// It ended with this value, or with none.
    Back(Option<Held>),
    /// A trap, of its own or of a host.
    Trapped(TrapKind),
    /// What is undefined, by its kind, at the statement in front of the position.
    Undefined(u32),
    /// No rule applies.
    Stuck,
}

/// Runs statements until the function that was begun comes to an end, or the steps are spent: None
/// exactly where they are. Each statement takes one step, the call of a host too.
pub fn run<H: HostModule>(
    alloc: Global,
    units: &[LinkedUnit],
    types: &FuncTypes,
    thread: &mut LinkedThread,
    hosts: &mut Hosts<H>,
    steps: &mut u64,
) -> Result<Option<Ending>, Memory>
    requires tables { HaveUnitTables units.now }
    ensures ran { IfOk result (λ e. (asks : List Asked)
        × Asks H.HostModule hosts.old.list.items hosts.old.journal asks hosts.new.list.items hosts.new.journal
        × Runs H.HostModule units.now types.now hosts.old.list.items thread.old (steps.old - steps.new) asks e thread.new) }
    ensures wanting { OnErr result ((asks : List Asked)
        × Asks H.HostModule hosts.old.list.items hosts.old.journal asks hosts.new.list.items hosts.new.journal
        × RunsPart H.HostModule units.now types.now hosts.old.list.items thread.old steps.old asks) }
    ensures stored { IfOk result (λ e. (names : Naming) → AreStored names thread.old.store.units.items → AreStored names thread.new.store.units.items) }
    ensures spent { IfOk result (λ e. e ≡ None → steps.new ≡ 0) }
    ensures fewer { steps.new ≤ steps.old }
{
    while *steps > 0 {
        *steps -= 1;
        let came = match statement(alloc, units, types, thread, hosts) {
            Ok(came) => came,
            Err(Memory) => return Err(Memory),
        };
        match came {
            None => {}
            Some(ending) => return Ok(Some(ending)),
        }
    }
    Ok(None)
}

// Runs one statement.
fn statement<H: HostModule>(
    alloc: Global,
    units: &[LinkedUnit],
    types: &FuncTypes,
    thread: &mut LinkedThread,
    hosts: &mut Hosts<H>,
) -> Result<Option<Ending>, Memory>
    requires tables { HaveUnitTables units.now }
    ensures ran { IfOk result (λ e. (asks : List Asked)
        × Asks H.HostModule hosts.old.list.items hosts.old.journal asks hosts.new.list.items hosts.new.journal
        × ((names : Naming) (p : Program) (later : List Reply) (told : List Event)
        → IsThread H.HostModule names p units.now types.now hosts.old.list.items thread.old
        → c_step p (state_in names p (trail_before asks later told) thread.old)
        ≡ step_at names p (trail_behind asks later told) e thread.new)) }
    ensures wanting { OnErr result (hosts.new ≡ hosts.old) }
    ensures stored { IfOk result (λ e. (names : Naming) → AreStored names thread.old.store.units.items → AreStored names thread.new.store.units.items) }
{
    let step = match thread.step(alloc, units, types) {
        Ok(step) => step,
        Err(Memory) => return Err(Memory),
    };
    match step {
        LinkedStep::Asks(call) => Ok(answer(units, thread, hosts, call)?),
        other => Ok(ending_of(other)),
    }
}

// Calls the host that a statement asks.
fn answer<H: HostModule>(
    units: &[LinkedUnit],
    thread: &mut LinkedThread,
    hosts: &mut Hosts<H>,
    call: HostCall,
) -> Result<Option<Ending>, Memory>
    requires tables { HaveUnitTables units.now }
    ensures ran { IfOk result (λ e. (asks : List Asked)
        × Asks H.HostModule hosts.old.list.items hosts.old.journal asks hosts.new.list.items hosts.new.journal
        × ((names : Naming) (p : Program) (later : List Reply) (told : List Event)
        → IsLinked names p units.now → p.hosts ≡ hosts_of H.HostModule hosts.old.list.items → AreStored names thread.old.store.units.items
        → step_in names p (trail_before asks later told) (step.Asks call) thread.old
        ≡ step_at names p (trail_behind asks later told) e thread.new)) }
    ensures wanting { OnErr result (hosts.new ≡ hosts.old) }
    ensures stored { IfOk result (λ e. (names : Naming) → AreStored names thread.old.store.units.items → AreStored names thread.new.store.units.items) }
{
    let asked = match hosts.ask(call) {
        Ok(asked) => asked,
        Err(Memory) => return Err(Memory),
    };
    let Some(reply) = asked else {
        return Ok(Some(Ending::Stuck));
    };
    match reply {
        HostReply::Value(value) => Ok(ending_of(thread.take(units, value))),
        HostReply::Trap => Ok(Some(Ending::Trapped(TrapKind::HostTrap))),
    }
}

// What a statement came to; one that asks a second time has no rule.
fn ending_of(step: LinkedStep) -> Option<Ending>
    ensures { (names : Naming) (p : Program) (trail : Trail) (t : AnyThread) → step_at names p trail result t ≡ settled_in names p trail step t }
{
    match step {
        LinkedStep::Next => None,
        LinkedStep::Back(value) => Some(Ending::Back(value)),
        LinkedStep::Trapped(kind) => Some(Ending::Trapped(kind)),
        LinkedStep::Undefined(kind) => Some(Ending::Undefined(kind)),
        LinkedStep::Stuck => Some(Ending::Stuck),
        LinkedStep::Asks(_) => Some(Ending::Stuck),
    }
}
