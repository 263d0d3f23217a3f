// One function of linked units, run with hosts from its beginning to its end.
ghost use Rattle.std.specs.Prelude.{◌≡◌, ◌-◌, ◌≤◌, List, map, IfOk, OnErr};
ghost use Rattle.w2c_base.specs.Run.{Call};
ghost use Rattle.c_sound.specs.Typed.{Begins};
ghost use Rattle.c_hosts.specs.declared.journal.Asked.{Asked};
ghost use Rattle.c_hosts.specs.Running.{Asks};
ghost use Rattle.c_objects.specs.declared.held.Held.TheVariants.{Number};
ghost use Rattle.c_objects.specs.Stores.{AreStored};
ghost use Rattle.crun.specs.declared.outcome.Outcome.TheVariants as outcomes;
ghost use Rattle.crun.specs.Engines.{ended_with, entry_in, naming_in, outcome_in, program_in, BeginsWith, FunctionCame, FunctionCamePart, IfEnded, IsReady, SameProgram};

use crate::outcome::Outcome;
use c_hosts::{Ending, HostModule, Hosts, run};
use c_link::Linked;
use c_meaning::UndefinedAt;
use c_objects::{Held, Store};
use c_thread::{LinkedFrame, LinkedThread};
use crun_startup::Startup;
use lin_mem::LinMem;
use std::alloc::Global;
use std::mem::replace;
use w2c_base::{Memory, Value};

/// What lasts from one function's run to the next: the units with their tables and objects, w2c_depth,
/// the hosts with their journal, and the steps that are left. A memory that was not made is lent as
/// one without bytes whose maximum is 0.
#[derive(Drop)]
pub struct Engine<H: HostModule> {
    pub linked: Linked,
    pub startup: Startup,
    pub depth: u32,
    pub hosts: Hosts<H>,
    pub left: u64,
    pub not_made: LinMem,
}

impl<H: HostModule> Engine<H> {
    /// Runs the function that an item of a unit defines, with these arguments.
    pub fn run_function(
        &mut self,
        alloc: Global,
        unit: usize,
        item: usize,
        args: &[Value],
    ) -> Result<Outcome, Memory>
        requires ready { IsReady H.HostModule self.old }
        requires begins { Begins (program_in H.HostModule self.old) (entry_in self.old unit item args.now (Call 0)) }
        ensures came { IfOk result (λ o. (asks : List Asked)
            × Asks H.HostModule self.old.hosts.list.items self.old.hosts.journal asks self.new.hosts.list.items self.new.hosts.journal
            × FunctionCame H.HostModule self.old unit item args.now asks o (self.old.left - self.new.left) self.new) }
        ensures wanting { OnErr result ((asks : List Asked)
            × Asks H.HostModule self.old.hosts.list.items self.old.hosts.journal asks self.new.hosts.list.items self.new.hosts.journal
            × FunctionCamePart H.HostModule self.old unit item args.now asks self.old.left) }
        ensures ready { IfOk result (λ o. IfEnded o (IsReady H.HostModule self.new)) }
        ensures stored { IfOk result (λ o. AreStored (naming_in self.old) self.new.startup.store.units.items) }
        ensures same { SameProgram H.HostModule self.old self.new }
        ensures spent { IfOk result (λ o. o ≡ outcomes.OutOfSteps → self.new.left ≡ 0) }
        ensures fewer { self.new.left ≤ self.old.left }
    {
        let top = match self.first_frame(alloc, unit, item, args) {
            Ok(top) => top,
            Err(Memory) => return Err(Memory),
        };
        let empty = Store {
            units: Vec::new(alloc),
        };
        let mut thread = LinkedThread {
            depth: self.depth,
            store: replace(&mut self.startup.store, empty),
            top,
            below: Vec::new(alloc),
        };
        let came = run(
            alloc,
            self.startup.units.as_slice(),
            &self.startup.types,
            &mut thread,
            &mut self.hosts,
            &mut self.left,
        );
        self.depth = thread.depth;
        self.startup.store = thread.store;
        let ending = match came {
            Ok(ending) => ending,
            Err(Memory) => return Err(Memory),
        };
        let Some(outcome) = outcome_of(ending, &thread.top) else {
            unreachable!()
        };
        Ok(outcome)
    }

    // The function as it begins.
    fn first_frame(
        &self,
        alloc: Global,
        unit: usize,
        item: usize,
        args: &[Value],
    ) -> Result<LinkedFrame, Memory>
        requires ready { IsReady H.HostModule self.now }
        requires begins { Begins (program_in H.HostModule self.now) (entry_in self.now unit item args.now (Call 0)) }
        ensures { IfOk result (λ f. BeginsWith H.HostModule self.now unit item args.now f) }
    {
        let frame = match LinkedFrame::begin(
            self.startup.units.as_slice(),
            unit,
            item,
            held(alloc, args)?,
        ) {
            Ok(frame) => frame,
            Err(Memory) => return Err(Memory),
        };
        let Some(top) = frame else { unreachable!() };
        Ok(top)
    }
}

// What an ending is for those who called the function: no outcome where it was stuck, or came back with a pointer.
fn outcome_of(ending: Option<Ending>, top: &LinkedFrame) -> Option<Outcome>
    ensures { result ≡ outcome_in ending top.now }
{
    let Some(ending) = ending else {
        return Some(Outcome::OutOfSteps);
    };
    match ending {
        Ending::Back(value) => ended(value),
        Ending::Trapped(kind) => Some(Outcome::Trapped(kind)),
        Ending::Undefined(kind) => Some(Outcome::Undefined(UndefinedAt {
            kind,
            unit: top.unit,
            item: top.item,
            statement: top.at,
        })),
        Ending::Stuck => None,
    }
}

fn ended(value: Option<Held>) -> Option<Outcome>
    ensures { result ≡ ended_with value }
{
    let Some(value) = value else {
        return Some(Outcome::Ended(None));
    };
    match value {
        Held::Number(number) => Some(Outcome::Ended(Some(number))),
        Held::Pointer(_) => None,
        Held::FuncPointer(_) => None,
    }
}

// Arguments as parameters hold them.
fn held(alloc: Global, args: &[Value]) -> Result<Vec<Held>, Memory>
    ensures { IfOk result (λ values. values.items ≡ map Number args.now) }
{
    let mut values = Vec::new(alloc);
    for arg in args {
        values.push(Held::Number(*arg))?;
    }
    Ok(values)
}
