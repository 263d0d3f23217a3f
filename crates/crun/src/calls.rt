// The call of a symbol.
ghost use Rattle.std.specs.Prelude.{◌≡◌, ◌-◌, ◌≤◌, true, List, IfOk, OnErr};
ghost use Rattle.c_meaning.specs.Linking.{fits};
ghost use Rattle.c_objects.specs.Stores.{AreStored};
ghost use Rattle.c_hosts.specs.declared.journal.Asked.{Asked};
ghost use Rattle.c_hosts.specs.Running.{Asks};
ghost use Rattle.crun.specs.declared.outcome.Outcome.TheVariants as outcomes;
ghost use Rattle.crun.specs.Engines.{naming_in, program_in, IfEnded, IsReady, SameProgram};
ghost use Rattle.crun.specs.Sessions.{SymbolCame, SymbolCamePart};

use crate::engine::Engine;
use crate::outcome::Outcome;
use c_hosts::HostModule;
use crun_startup::called_function;
use std::alloc::Global;
use w2c_base::{Memory, Value};

impl<H: HostModule> Engine<H> {
    /// Runs the function of a symbol that a unit defines for all units, with arguments that fit.
    pub fn run_symbol(
        &mut self,
        alloc: Global,
        symbol: &[u8],
        args: &[Value],
    ) -> Result<Outcome, Memory>
        requires ready { IsReady H.HostModule self.old }
        requires fits { fits (program_in H.HostModule self.old) (record { symbol = symbol.now; args = args.now }) ≡ true }
        ensures came { IfOk result (λ o. (asks : List Asked)
            × Asks H.HostModule self.old.hosts.list.items self.old.hosts.journal asks self.new.hosts.list.items self.new.hosts.journal
            × SymbolCame H.HostModule self.old (record { symbol = symbol.now; args = args.now }) asks o (self.old.left - self.new.left) self.new) }
        ensures wanting { OnErr result ((asks : List Asked)
            × Asks H.HostModule self.old.hosts.list.items self.old.hosts.journal asks self.new.hosts.list.items self.new.hosts.journal
            × SymbolCamePart H.HostModule self.old (record { symbol = symbol.now; args = args.now }) asks self.old.left) }
        ensures ready { IfOk result (λ o. IfEnded o (IsReady H.HostModule self.new)) }
        ensures stored { IfOk result (λ o. AreStored (naming_in self.old) self.new.startup.store.units.items) }
        ensures same { SameProgram H.HostModule self.old self.new }
        ensures spent { IfOk result (λ o. o ≡ outcomes.OutOfSteps → self.new.left ≡ 0) }
        ensures fewer { self.new.left ≤ self.old.left }
    {
        let Some((unit, item)) = called_function(&self.startup.symbols, symbol) else {
            unreachable!()
        };
        self.run_function(alloc, unit, item, args)
    }
}
