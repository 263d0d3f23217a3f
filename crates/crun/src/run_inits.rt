// The init functions, one after another.
ghost use Rattle.std.specs.Prelude.{◌≡◌, ◌-◌, ◌≤◌, ◌++◌, [], List, map, IfOk, OnErr, None};
ghost use Rattle.w2c_base.specs.Run.{asks_in, Ask, Init};
ghost use Rattle.c_meaning.specs.Linking.{init_functions as functions_of, SymbolCall};
ghost use Rattle.c_meaning.specs.Run.{c_run, entries_of};
ghost use Rattle.c_objects.specs.Stores.{AreStored};
ghost use Rattle.crun_startup.specs.Inits.{address_in};
ghost use Rattle.c_hosts.specs.declared.journal.Asked.{Asked};
ghost use Rattle.c_hosts.specs.Journals.{ask_of, events_in, replies_in};
ghost use Rattle.c_hosts.specs.Running.{Asks};
ghost use Rattle.crun.specs.declared.outcome.Outcome.TheVariants as outcomes;
ghost use Rattle.crun.specs.Engines.{naming_in, program_in, units_at, IfEnded, IsReady, SameProgram};
ghost use Rattle.crun.specs.Sessions.{init_count, AreBegun, BehindAt, IsFirst, IsLast, IsOutcome};

use crate::engine::Engine;
use crate::outcome::Outcome;
use c_hosts::HostModule;
use std::alloc::Global;
use w2c_base::Memory;

impl<H: HostModule> Engine<H> {
    /// Runs the functions that run first, by the numbers of their units and items, until one does not end, and counts
    /// those that were begun, also before it wants memory.
    pub fn run_inits(
        &mut self,
        alloc: Global,
        inits: &[(usize, usize)],
        inits_run: &mut usize,
    ) -> Result<Outcome, Memory>
        requires ready { IsReady H.HostModule self.old }
        requires first { IsFirst H.HostModule self.old }
        requires inits { map (address_in (naming_in self.old)) inits.now ≡ functions_of (program_in H.HostModule self.old) }
        requires none { inits_run.old ≡ 0 }
        ensures ran { IfOk result (λ o. (rest : List SymbolCall) → IsLast o rest
            → IsOutcome o (Init (inits_run.new - 1)) self.new.hosts.journal (events_in self.new.hosts.journal) (units_at self.new)
            (c_run (program_in H.HostModule self.old) rest self.old.left (replies_in self.new.hosts.journal))) }
        ensures most { inits_run.new ≤ init_count (program_in H.HostModule self.old) }
        ensures begun { IfOk result (λ o. AreBegun o inits_run.new (init_count (program_in H.HostModule self.old))) }
        ensures ended { IfOk result (λ o. IfEnded o ((o ≡ outcomes.Ended None)
            × BehindAt (program_in H.HostModule self.old) self.new.depth (units_at self.new) self.new.hosts.journal (self.old.left - self.new.left)
            (entries_of (program_in H.HostModule self.old) []) (Init (inits_run.new - 1)) (events_in self.new.hosts.journal))) }
        ensures ready { IfOk result (λ o. IfEnded o (IsReady H.HostModule self.new)) }
        ensures stored { IfOk result (λ o. AreStored (naming_in self.old) self.new.startup.store.units.items) }
        ensures answered { (asks : List Asked)
            × Asks H.HostModule self.old.hosts.list.items self.old.hosts.journal asks self.new.hosts.list.items self.new.hosts.journal }
        ensures asked { OnErr result ((rest : List SymbolCall) → (more : List Ask)
            × (asks_in (c_run (program_in H.HostModule self.old) rest self.old.left (replies_in self.new.hosts.journal)).events
            ≡ map ask_of self.new.hosts.journal ++ more)) }
        ensures same { SameProgram H.HostModule self.old self.new }
        ensures fewer { self.new.left ≤ self.old.left }
    {
        for k in 0..inits.len() {
            *inits_run = k + 1;
            let outcome = match self.run_function(alloc, inits[k].0, inits[k].1, &[]) {
                Ok(outcome) => outcome,
                Err(Memory) => return Err(Memory),
            };
            match outcome {
                Outcome::Ended(_) => {}
                other => return Ok(other),
            }
        }
        Ok(Outcome::Ended(None))
    }
}
