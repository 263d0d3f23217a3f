// The symbols that hosts offer.
ghost use Rattle.std.specs.Prelude.{◌≡◌, IfOk};
ghost use Rattle.c_meaning.specs.Linking.{symbols_of};
ghost use Rattle.c_link.specs.Offers.{c_symbols};
ghost use Rattle.c_hosts.specs.Asking.{hosts_of};
ghost use Rattle.crun.specs.HostSymbols.{symbols_of_hosts};
ghost use Rattle.crun_cli.specs.Ends.{AreOffered};

use c_hosts::HostModule;
use c_link::HostSymbol;
use crun::{HostsRefusal, host_symbols};
use std::alloc::Global;
use w2c_base::Memory;

/// The symbols of hosts, of which no two functions have one.
pub fn offered_symbols<H: HostModule>(alloc: Global, hosts: &[H]) -> Result<Vec<HostSymbol>, Memory>
    requires offered { AreOffered H.HostModule hosts.now }
    ensures symbols { IfOk result (λ symbols. symbols.items ≡ symbols_of_hosts (hosts_of H.HostModule hosts.now)) }
    ensures meaning { IfOk result (λ symbols. c_symbols symbols.items ≡ symbols_of (hosts_of H.HostModule hosts.now)) }
{
    match host_symbols(alloc, hosts) {
        Ok(symbols) => Ok(symbols),
        Err(HostsRefusal::Twice(_)) => unreachable!(),
        Err(HostsRefusal::Memory) => Err(Memory),
    }
}
