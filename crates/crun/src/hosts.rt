// The symbols of hosts' functions.
ghost use Rattle.std.specs.Prelude.{◌≡◌, false, ◌∷◌, ◌++◌, [], ℕ, Err, IfOk, OnOk, true};
ghost use Rattle.c_tree.specs.Rules.{are_distinct};
ghost use Rattle.c_tree.specs.Scope.{is_among};
ghost use Rattle.c_meaning.specs.Linking.{symbols_of};
ghost use Rattle.crun.specs.declared.hosts.HostsRefusal.TheVariants as refusal;
ghost use Rattle.c_link.specs.Offers.{c_symbols};
ghost use Rattle.c_link.specs.Resolved.{symbol_names};
ghost use Rattle.c_hosts.specs.Asking.{function_of, host_of, hosts_of};
ghost use Rattle.crun.specs.HostSymbols.{AreKnown, IsFirstTwice, IsTwiceAt, symbol_in, symbols_of_host, symbols_of_hosts};

use c_hosts::{HostFunction, HostModule};
use c_link::HostSymbol;
use c_machine::Numbers;
use name_table::Salted;
use std::alloc::Global;
use w2c_base::Memory;
use w2c_mangle::{SymbolKind, export_symbol};

/// Why hosts have no symbols.
#[derive(Clone, Copy, Debug, PartialEq, Eq)]
pub enum HostsRefusal {
    /// A symbol comes a second time, in the host with this number.
    Twice(usize),
    /// An allocation failed.
    Memory,
}

// Symbols that differ, and the table of them.
#[derive(Drop)]
pub struct SymbolList {
    pub numbers: Numbers,
    pub symbols: Vec<HostSymbol>,
}

// The key of all names of hosts and of their functions.
fn salt_of_hosts<H: HostModule>(hosts: &[H]) -> Salted {
    let mut salt = Salted::new();
    for host in hosts {
        absorb_host(&mut salt, host);
    }
    salt.sealed()
}

fn absorb_host<H: HostModule>(salt: &mut Salted, host: &H) {
    salt.absorb(host.name());
    for i in 0..host.count() {
        salt.absorb(host.function(i).name.as_slice());
    }
}

/// The symbols of the functions of hosts, host by host and function by function. Twice with the
/// host of the first symbol that an earlier function has, of the same host or of one before it.
pub fn host_symbols<H: HostModule>(
    alloc: Global,
    hosts: &[H],
) -> Result<Vec<HostSymbol>, HostsRefusal>
    ensures symbols { IfOk result (λ list. list.items ≡ symbols_of_hosts (hosts_of H.HostModule hosts.now)) }
    ensures distinct { IfOk result (λ list. are_distinct (symbol_names list.items) ≡ true) }
    ensures meaning { IfOk result (λ list. c_symbols list.items ≡ symbols_of (hosts_of H.HostModule hosts.now)) }
    ensures twice { (k : ℕ) → result ≡ Err (refusal.Twice k) → IsTwiceAt (hosts_of H.HostModule hosts.now) k }
{
    let mut list = SymbolList {
        numbers: Numbers::new(alloc, salt_of_hosts(hosts)),
        symbols: Vec::new(alloc),
    };
    for (k, host) in hosts.iter().enumerate() {
        match list.put_host(alloc, k, host) {
            Ok(()) => {}
            Err(refusal) => return Err(refusal),
        }
    }
    Ok(list.symbols)
}

impl SymbolList {
    // The symbols of a host at the end.
    fn put_host<H: HostModule>(
        &mut self,
        alloc: Global,
        k: usize,
        host: &H,
    ) -> Result<(), HostsRefusal>
        requires { AreKnown self.old.numbers self.old.symbols.items }
        ensures known { OnOk result (AreKnown self.new.numbers self.new.symbols.items) }
        ensures symbols { OnOk result (self.new.symbols.items
            ≡ self.old.symbols.items ++ symbols_of_host (host_of H.HostModule host.now)) }
        ensures twice { (n : ℕ) → result ≡ Err (refusal.Twice n)
            → (n ≡ k) × IsFirstTwice self.old.symbols.items (symbols_of_host (host_of H.HostModule host.now)) }
    {
        for i in 0..host.count() {
            let symbol = match symbol_of(alloc, host.name(), host.function(i)) {
                Ok(symbol) => symbol,
                Err(Memory) => return Err(HostsRefusal::Memory),
            };
            match self.put(alloc, symbol) {
                Ok(true) => {}
                Ok(false) => return Err(HostsRefusal::Twice(k)),
                Err(Memory) => return Err(HostsRefusal::Memory),
            }
        }
        Ok(())
    }

    // A symbol at the end, unless it is there: whether it was put.
    fn put(&mut self, alloc: Global, symbol: HostSymbol) -> Result<bool, Memory>
        requires { AreKnown self.old.numbers self.old.symbols.items }
        ensures known { OnOk result (AreKnown self.new.numbers self.new.symbols.items) }
        ensures put { IfOk result (λ b. b ≡ true → self.new.symbols.items ≡ self.old.symbols.items ++ symbol ∷ []) }
        ensures there { IfOk result (λ b. b ≡ false → is_among symbol.symbol (symbol_names self.old.symbols.items) ≡ true) }
    {
        if self.numbers.find(symbol.symbol.as_slice()).is_some() {
            return Ok(false);
        }
        let number = self.symbols.len();
        self.numbers
            .enter(alloc, Some(symbol.symbol.as_slice()), number)?;
        self.symbols.push(symbol)?;
        Ok(true)
    }
}

// The symbol of a function of the host with a name.
fn symbol_of(alloc: Global, host: &[u8], function: &HostFunction) -> Result<HostSymbol, Memory>
    ensures { IfOk result (λ s. s ≡ symbol_in host.now (function_of function.now)) }
{
    Ok(HostSymbol {
        symbol: export_symbol(alloc, host, SymbolKind::Func, function.name.as_slice())?,
        ty: function.ty.copy(alloc)?,
    })
}
