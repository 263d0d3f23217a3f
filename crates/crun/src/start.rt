// What a session begins with.
ghost use Rattle.std.specs.Prelude.{◌≡◌, ◌-◌, [], IfOk};
ghost use Rattle.c_hosts.specs.Asking.{hosts_of};
ghost use Rattle.crun_startup.specs.Entries.{HaveCounts};
ghost use Rattle.crun.specs.HostSymbols.{symbols_of_hosts};
ghost use Rattle.crun.specs.Engines.{IsReady, IsStarted};
ghost use Rattle.crun.specs.Sessions.{IsFirst};

use crate::engine::Engine;
use c_hosts::{HostModule, Hosts, Journal};
use c_link::Linked;
use crun_startup::{Startup, fresh_store, start_up};
use lin_mem::LinMem;
use std::alloc::Global;
use w2c_base::Memory;

impl<H: HostModule> Engine<H> {
    /// Linked units before their first statement, with the hosts whose symbols they were linked with.
    pub fn start(
        alloc: Global,
        linked: Linked,
        hosts: Vec<H>,
        left: u64,
    ) -> Result<Engine<H>, Memory>
        requires { linked.1 ≡ symbols_of_hosts (hosts_of H.HostModule hosts.items) }
        ensures linked { IfOk result (λ e. e.linked ≡ linked) }
        ensures hosts { IfOk result (λ e. e.hosts.list.items ≡ hosts.items) }
        ensures left { IfOk result (λ e. e.left ≡ left) }
        ensures depth { IfOk result (λ e. e.depth ≡ 0) }
        ensures ready { IfOk result (λ e. IsReady H.HostModule e) }
        ensures first { IfOk result (λ e. IsFirst H.HostModule e) }
    {
        let not_made = LinMem::new(alloc, 0, Some(0))?;
        let counts = function_counts(alloc, hosts.as_slice())?;
        let startup = start_up(alloc, &linked, counts.as_slice())?;
        // The units keep the rules and link: that is a clause of their number.
        let _ = linked.unit_count();
        Ok(Engine {
            linked,
            startup,
            depth: 0,
            hosts: Hosts {
                list: hosts,
                journal: Journal::new(alloc),
            },
            left,
            not_made,
        })
    }

    /// The same before its first statement: the objects are made again, and what is made of the units alone is kept. The hosts
    /// stay in the states in which they are.
    pub fn restart(self, alloc: Global, left: u64) -> Result<Engine<H>, Memory>
        requires { IsStarted H.HostModule self }
        ensures linked { IfOk result (λ e. e.linked ≡ self.linked) }
        ensures hosts { IfOk result (λ e. e.hosts.list.items ≡ self.hosts.list.items) }
        ensures left { IfOk result (λ e. e.left ≡ left) }
        ensures depth { IfOk result (λ e. e.depth ≡ 0) }
        ensures ready { IfOk result (λ e. IsReady H.HostModule e) }
        ensures first { IfOk result (λ e. IsFirst H.HostModule e) }
    {
        let Engine {
            linked,
            startup,
            depth: _,
            hosts,
            left: _,
            not_made,
        } = self;
        let Startup {
            units,
            symbols,
            types,
            store: _,
        } = startup;
        let Hosts { list, journal: _ } = hosts;
        let store = fresh_store(alloc, &linked)?;
        Ok(Engine {
            linked,
            startup: Startup {
                units,
                symbols,
                types,
                store,
            },
            depth: 0,
            hosts: Hosts {
                list,
                journal: Journal::new(alloc),
            },
            left,
            not_made,
        })
    }
}

// How many functions each host has.
fn function_counts<H: HostModule>(alloc: Global, hosts: &[H]) -> Result<Vec<usize>, Memory>
    ensures { IfOk result (λ counts. HaveCounts (hosts_of H.HostModule hosts.now) counts.items) }
{
    let mut counts = Vec::new(alloc);
    for host in hosts {
        counts.push(host.count())?;
    }
    Ok(counts)
}
