// Sessions.
ghost use Rattle.std.specs.Prelude.{◌≡◌, ◌≢◌, ◌∷◌, ◌++◌, ◌-◌, ◌≤◌, ◌<◌, [], ℕ, slice_get, Some, List, Option, length, map, true, Err, IfErr, IfOk, OnErr, None, option_map, option_copied};
ghost use Rattle.w2c_base.specs.declared.value.Value.{Value as AnyValue};
ghost use Rattle.w2c_base.specs.Lookup.{at_index, if_found};
ghost use Rattle.w2c_base.specs.Run.{asks_in, Ask, Call, Event, Init};
ghost use Rattle.c_tree.specs.View.{unit_of};
ghost use Rattle.c_meaning.specs.Linking.{fits, SymbolCall};
ghost use Rattle.c_meaning.specs.Run.{c_run};
ghost use Rattle.c_objects.specs.Stores.{AreStored};
ghost use Rattle.crun.specs.HostSymbols.{symbols_of_hosts};
ghost use Rattle.crun_startup.specs.Names.{naming_of};
ghost use Rattle.c_hosts.specs.declared.journal.Asked.{Asked};
ghost use Rattle.c_hosts.specs.Asking.{hosts_of};
ghost use Rattle.c_hosts.specs.Journals.{ask_of, events_in, replies_in};
ghost use Rattle.c_hosts.specs.Running.{Asks};
ghost use Rattle.crun.specs.declared.outcome.Kept.{Kept as AnyKept};
ghost use Rattle.crun.specs.declared.outcome.Kept.TheVariants as kept;
ghost use Rattle.crun.specs.declared.outcome.Outcome.TheVariants as outcomes;
ghost use Rattle.crun.specs.declared.outcome.Phase.TheVariants as phases;
ghost use Rattle.crun.specs.declared.outcome.Standing.TheVariants as standing;
ghost use Rattle.crun.specs.declared.outcome.Stop.TheVariants as stops;
ghost use Rattle.crun.specs.Shown.{bytes_in, bytes_of, element_seen, elements_count, max_in, max_of, memories_of, number_held, object_in, tables_of, vars_of};
ghost use Rattle.crun.specs.Sessions.{init_count, objects_of, phase_of, program_of, standing_of, told_by, AreBegun, IfOver, IsLast, IsOutcome, Stands};

use crate::engine::Engine;
use crate::outcome::{Kept, Outcome, Phase, Standing, Stop};
use crate::shown::Element;
use c_hosts::{HostModule, Hosts, Journal};
use c_link::Linked;
use c_objects::UnitObjects;
use crun_startup::init_functions;
use lin_mem::LinMem;
use std::alloc::Global;
use std::marker::Model;
use w2c_base::{Memory, Value};

/// Linked units that run with hosts: their init functions first, then calls, with so many statements in all.
#[derive(Drop)]
pub struct Session<H: HostModule> {
    alloc: Global,
    engine: Engine<H>,
    steps: u64,
    inits_run: usize,
    standing: Standing,
}

impl<H: HostModule> Model for Session<H> {
    ghost use Rattle.std.specs.Coded.{codes};
    ghost use Rattle.c_tree.specs.contracts.tree.Expr as expr;
    ghost use Rattle.crun.specs.Sessions.{state_of, Keeps, State};

    ghost Value = { State H };

    ghost coded = { Prim.hlevel (codes, expr.the_row.coded) };

    ghost view = { λ s. state_of s.engine s.steps s.inits_run s.standing };

    ghost invariant = { λ s. Keeps H.HostModule s.engine s.steps s.inits_run s.standing };
}

impl<H: HostModule> Session<H> {
    /// A session of linked units with the hosts whose symbols they were linked with, and so many
    /// statements in all. It runs nothing. After want of memory the hosts are dropped.
    pub fn start(
        alloc: Global,
        linked: Linked,
        hosts: Vec<H>,
        steps: u64,
    ) -> Result<Session<H>, Memory>
        requires { linked.1 ≡ symbols_of_hosts (hosts_of H.HostModule hosts.items) }
        ensures linked { IfOk result (λ s. s.linked ≡ linked) }
        ensures hosts { IfOk result (λ s. s.hosts ≡ hosts.items) }
        ensures steps { IfOk result (λ s. s.steps ≡ steps) }
        ensures standing { IfOk result (λ s. s.standing ≡ standing.Fresh) }
        ensures journal { IfOk result (λ s. s.journal ≡ []) }
        ensures inits { IfOk result (λ s. s.inits_run ≡ 0) }
    {
        let engine = Engine::start(alloc, linked, hosts, steps)?;
        Ok(Session {
            alloc,
            engine,
            steps,
            inits_run: 0,
            standing: Standing::Fresh,
        })
    }

    /// The session as at its start, with so many statements in all: its objects are made again, and what is made of its units alone
    /// is kept. The hosts stay in the states in which they are. After want of memory units and hosts are dropped.
    pub fn restart(self, steps: u64) -> Result<Session<H>, Memory>
        ensures linked { IfOk result (λ s. s.linked ≡ self.linked) }
        ensures hosts { IfOk result (λ s. s.hosts ≡ self.hosts) }
        ensures steps { IfOk result (λ s. s.steps ≡ steps) }
        ensures standing { IfOk result (λ s. s.standing ≡ standing.Fresh) }
        ensures journal { IfOk result (λ s. s.journal ≡ []) }
        ensures inits { IfOk result (λ s. s.inits_run ≡ 0) }
    {
        let alloc = self.alloc;
        let engine = self.engine.restart(alloc, steps)?;
        Ok(Session {
            alloc,
            engine,
            steps,
            inits_run: 0,
            standing: Standing::Fresh,
        })
    }

    /// Where the session stands: Fresh until `init` is called, then Ready exactly where every
    /// outcome so far was an end and memory was not wanting, else Over.
    pub fn phase(&self) -> Phase
        ensures { result ≡ phase_of self.now.standing }
    {
        match self.standing {
            Standing::Fresh => Phase::Fresh,
            Standing::Ready => Phase::Ready,
            Standing::Over(_) => Phase::Over,
        }
    }

    /// The units that run.
    pub fn linked(&self) -> &Linked
        ensures { result.now ≡ self.now.linked }
    {
        &self.engine.linked
    }

    /// How many init functions were begun: none before `init`, and each of them where that came to an end.
    pub fn inits_run(&self) -> usize
        ensures { result ≡ self.now.inits_run }
    {
        self.inits_run
    }

    /// The number of hosts.
    pub fn host_count(&self) -> usize
        ensures { result ≡ length self.now.hosts }
    {
        self.engine.hosts.list.len()
    }

    /// The host that was handed in at a place, counted from 0, in its present state.
    pub fn host(&self, k: usize) -> &H
        requires { k < length self.now.hosts }
        ensures { slice_get self.now.hosts k ≡ Some result.now }
    {
        &self.engine.hosts.list[k]
    }

    /// The hosts in their present state, and the objects of the units, each kind in the order of the declarations.
    pub fn hosts_and_objects(&self) -> (&[H], &[UnitObjects])
        ensures hosts { result.0.now ≡ self.now.hosts }
        ensures objects { result.1.now ≡ self.now.objects }
    {
        (
            self.engine.hosts.list.as_slice(),
            self.engine.startup.store.units.as_slice(),
        )
    }

    /// What hosts were asked and replied, in order.
    pub fn journal(&self) -> &Journal
        ensures { result.now ≡ self.now.journal }
    {
        &self.engine.hosts.journal
    }

    /// The number that a variable of a unit holds. None exactly where the unit has no variable of this
    /// name, or one that holds a pointer.
    pub fn variable(&self, unit: usize, name: &[u8]) -> Option<Value>
        ensures { result ≡ if_found (object_in (objects_of self.now) unit vars_of name.now) number_held }
    {
        self.engine.variable(unit, name)
    }

    /// A memory of a unit, one that was not made without bytes and with the maximum 0. None exactly where the
    /// unit has none of this name.
    pub fn memory(&self, unit: usize, name: &[u8]) -> Option<&LinMem>
        ensures bytes { option_map bytes_in (option_copied result) ≡ option_map bytes_of (object_in (objects_of self.now) unit memories_of name.now) }
        ensures maximum { option_map max_in (option_copied result) ≡ option_map max_of (object_in (objects_of self.now) unit memories_of name.now) }
    {
        self.engine.memory(unit, name)
    }

    /// The number of elements of a table of a unit. None exactly where the unit has none of this name.
    pub fn table_len(&self, unit: usize, name: &[u8]) -> Option<u64>
        ensures { result ≡ option_map elements_count (object_in (objects_of self.now) unit tables_of name.now) }
    {
        self.engine.table_len(unit, name)
    }

    /// An element of a table of a unit. None exactly where the unit has no table of this name, the number is
    /// not below its length, or the element is empty.
    pub fn element(&self, unit: usize, name: &[u8], i: u64) -> Option<Element>
        ensures { option_map (element_seen (naming_of (map unit_of self.now.linked.0))) result
            ≡ if_found (object_in (objects_of self.now) unit tables_of name.now) (λ t. at_index t.elements i) }
    {
        self.engine.element(unit, name, i)
    }

    /// Runs the init functions: those of external linkage whose names are init symbols, of type void
    /// without parameters, in the order of the units and in a unit in the order of its items. After want of
    /// memory the session is over, and its journal holds each ask that a host has answered.
    pub fn init(&mut self) -> Result<Outcome, Memory>
        requires { phase_of self.old.standing ≡ phases.Fresh }
        ensures ran { IfOk result (λ o. (rest : List SymbolCall) → IsLast o rest
            → IsOutcome o (Init (self.new.inits_run - 1)) self.new.journal (events_in self.new.journal) (objects_of self.new)
            (c_run (program_of H.HostModule self.old) rest self.old.steps (replies_in self.new.journal))) }
        ensures most { self.new.inits_run ≤ init_count (program_of H.HostModule self.old) }
        ensures begun { IfOk result (λ o. AreBegun o self.new.inits_run (init_count (program_of H.HostModule self.old))) }
        ensures stands { IfOk result (λ o. self.new.standing ≡ standing.Ready → Stands H.HostModule self.new [] (events_in self.new.journal)) }
        ensures standing { IfOk result (λ o. self.new.standing ≡ standing_of o) }
        ensures value { IfOk result (λ o. (v : Option AnyValue) → o ≡ outcomes.Ended v → v ≡ None) }
        ensures stored { IfOk result (λ o. AreStored (naming_of (map unit_of self.new.linked.0)) self.new.objects) }
        ensures answered { (asks : List Asked) × Asks H.HostModule self.old.hosts self.old.journal asks self.new.hosts self.new.journal }
        ensures memory { OnErr result (self.new.standing ≡ standing.Over kept.Memory) }
        ensures asked { OnErr result ((rest : List SymbolCall) → (more : List Ask)
            × (asks_in (c_run (program_of H.HostModule self.old) rest self.old.steps (replies_in self.new.journal)).events ≡ map ask_of self.new.journal ++ more)) }
        ensures linked { self.new.linked ≡ self.old.linked }
        ensures hosts { hosts_of H.HostModule self.new.hosts ≡ hosts_of H.HostModule self.old.hosts }
        ensures steps { self.new.steps ≡ self.old.steps }
    {
        self.standing = Standing::Over(Kept::Memory);
        let inits = match init_functions(self.alloc, &self.engine.linked) {
            Ok(inits) => inits,
            Err(Memory) => return Err(Memory),
        };
        let outcome = match self
            .engine
            .run_inits(self.alloc, inits.as_slice(), &mut self.inits_run)
        {
            Ok(outcome) => outcome,
            Err(Memory) => return Err(Memory),
        };
        self.standing = standing_behind(outcome);
        Ok(outcome)
    }

    /// Calls the function of a symbol that a unit defines for others, with arguments that fit. Over, with why, where
    /// the session was over before; then nothing changes. After want of memory the session is over, and its journal holds
    /// each ask that a host has answered.
    pub fn call(&mut self, symbol: &[u8], args: &[Value]) -> Result<Outcome, Stop>
        requires begun { phase_of self.old.standing ≢ phases.Fresh }
        requires fits { fits (program_of H.HostModule self.old) (record { symbol = symbol.now; args = args.now }) ≡ true }
        ensures over { IfOver self.old.standing (λ why. (result ≡ Err (stops.Over why)) × (self.new ≡ self.old)) }
        ensures only_over { IfErr result (λ stop. (why : AnyKept) → stop ≡ stops.Over why → self.old.standing ≡ standing.Over why) }
        ensures ran { IfOk result (λ o. (calls rest : List SymbolCall) (told : List Event) (asks : List Asked) → Stands H.HostModule self.old calls told
            → self.new.journal ≡ self.old.journal ++ asks → IsLast o rest
            → IsOutcome o (Call (length calls)) self.new.journal (told_by told asks o) (objects_of self.new)
            (c_run (program_of H.HostModule self.old) (calls ++ record { symbol = symbol.now; args = args.now } ∷ rest) self.old.steps (replies_in self.new.journal))) }
        ensures stands { IfOk result (λ o. self.new.standing ≡ standing.Ready → (calls : List SymbolCall) (told : List Event) (asks : List Asked)
            → Stands H.HostModule self.old calls told → self.new.journal ≡ self.old.journal ++ asks
            → Stands H.HostModule self.new (calls ++ record { symbol = symbol.now; args = args.now } ∷ []) (told_by told asks o)) }
        ensures standing { IfOk result (λ o. self.new.standing ≡ standing_of o) }
        ensures stored { IfOk result (λ o. AreStored (naming_of (map unit_of self.new.linked.0)) self.new.objects) }
        ensures answered { (asks : List Asked) × Asks H.HostModule self.old.hosts self.old.journal asks self.new.hosts self.new.journal }
        ensures memory { IfErr result (λ stop. stop ≡ stops.Memory → self.new.standing ≡ standing.Over kept.Memory) }
        ensures asked { IfErr result (λ stop. stop ≡ stops.Memory → (calls rest : List SymbolCall) (told : List Event)
            → Stands H.HostModule self.old calls told → (more : List Ask)
            × (asks_in (c_run (program_of H.HostModule self.old) (calls ++ record { symbol = symbol.now; args = args.now } ∷ rest) self.old.steps
            (replies_in self.new.journal)).events ≡ map ask_of self.new.journal ++ more)) }
        ensures inits { self.new.inits_run ≡ self.old.inits_run }
        ensures linked { self.new.linked ≡ self.old.linked }
        ensures hosts { hosts_of H.HostModule self.new.hosts ≡ hosts_of H.HostModule self.old.hosts }
        ensures steps { self.new.steps ≡ self.old.steps }
    {
        if let Standing::Over(why) = self.standing {
            return Err(Stop::Over(why));
        }
        self.standing = Standing::Over(Kept::Memory);
        let outcome = match self.engine.run_symbol(self.alloc, symbol, args) {
            Ok(outcome) => outcome,
            Err(Memory) => return Err(Stop::Memory),
        };
        self.standing = standing_behind(outcome);
        Ok(outcome)
    }

    /// Gives the session and its hosts up, and the linked units back, so that another session can run them.
    pub fn into_linked(self) -> Linked
        ensures { result ≡ self.linked }
    {
        self.engine.linked
    }

    /// Gives the session and its hosts up.
    pub fn close(self) {}
}

// Where an outcome leaves the session.
fn standing_behind(outcome: Outcome) -> Standing
    ensures { result ≡ standing_of outcome }
{
    match outcome {
        Outcome::Ended(_) => Standing::Ready,
        Outcome::Trapped(kind) => Standing::Over(Kept::Trapped(kind)),
        Outcome::Undefined(at) => Standing::Over(Kept::Undefined(at)),
        Outcome::OutOfSteps => Standing::Over(Kept::OutOfSteps),
    }
}
