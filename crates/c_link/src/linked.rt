// Units that are linked.
ghost use Rattle.std.specs.Prelude.{◌≡◌, ◌<◌, length, map, slice_get, true, Some, None, IfOk, IfErr, option_copied, option_map};
ghost use Rattle.c_tree.specs.View.{func_type_of, unit_of};
ghost use Rattle.w2c_base.specs.Lookup.{if_found};
ghost use Rattle.c_meaning.specs.Linking.{Program, external_func, first_refusal, fits, func_named, link_refusal};
ghost use Rattle.c_link.specs.Offers.{c_symbols, owner_of};
ghost use Rattle.c_tree.specs.Rules.{are_distinct};
ghost use Rattle.c_link.specs.Resolved.{AreDefinedOnce, AreResolved, symbol_names};
ghost use Rattle.c_link.specs.Programs.{AllChecked, IsProgramOf, address_in};
ghost use Rattle.c_link.specs.Refusals.{IsRefusal};
ghost use Rattle.c_link.specs.Calls.{signature_of, takes_if_any};

use crate::calls::takes;
use crate::host_symbol::{HostSymbol, copies};
use crate::offers::{Offers, Owner};
use crate::own::own_tables;
use crate::passes::{define_all, resolve_all};
use crate::refusal::LinkRefusal;
use c_rules::CheckedUnit;
use c_tree::CFuncType;
use name_table::NameTable;
use std::alloc::Global;
use std::marker::Model;
use w2c_base::Value;

/// Units and the symbols of hosts, in which each symbol that a unit declares is defined once, with
/// the declared type. Contracts see the items of each unit, and the symbols.
#[derive(Drop)]
pub struct Linked {
    units: Vec<CheckedUnit>,
    hosts: Vec<HostSymbol>,
    table: Offers,
    own: Vec<NameTable<()>>,
}

impl Model for Linked {
    ghost use Rattle.std.specs.Prelude.{◌≡◌, List, map, None};
    ghost use Rattle.std.specs.Coded.{codes};
    ghost use Rattle.c_tree.specs.declared.tree.Item.{Item};
    ghost use Rattle.c_tree.specs.contracts.tree.Expr as expr;
    ghost use Rattle.c_tree.specs.View.{unit_of};
    ghost use Rattle.c_meaning.specs.Linking.{first_refusal};
    ghost use Rattle.c_link.specs.declared.host_symbol.HostSymbol.{HostSymbol};
    ghost use Rattle.c_link.specs.Offers.{Holds, c_symbols, offers};
    ghost use Rattle.c_link.specs.Programs.{AllChecked};
    ghost use Rattle.c_link.specs.Own.{HaveOwn};

    ghost Value = { List (List Item) × List HostSymbol };

    ghost coded = { Prim.hlevel (codes, expr.the_row.coded) };

    ghost view = { λ linked. (linked.units.items, linked.hosts.items) };

    ghost invariant = { λ linked. Holds linked.table (offers (map unit_of linked.units.items) (c_symbols linked.hosts.items))
        × (first_refusal (map unit_of linked.units.items) (c_symbols linked.hosts.items) ≡ None)
        × AllChecked (map unit_of linked.units.items)
        × HaveOwn linked.own.items (map unit_of linked.units.items) };
}

/// Links units with the symbols of hosts. The refusal is the first: unit by unit, a definition of
/// what a host or an earlier unit defines; then, unit by unit, a declaration of what nothing
/// defines, or of what is defined with another type.
pub fn link(
    alloc: Global,
    units: Vec<CheckedUnit>,
    hosts: &[HostSymbol],
) -> Result<Linked, LinkRefusal>
    ensures units { IfOk result (λ linked. linked.0 ≡ units.items) }
    ensures hosts { IfOk result (λ linked. linked.1 ≡ hosts.now) }
    ensures resolved { IfOk result (λ _. first_refusal (map unit_of units.items) (c_symbols hosts.now) ≡ None) }
    ensures once { IfOk result (λ _. are_distinct (symbol_names hosts.now) ≡ true → AreDefinedOnce (map unit_of units.items) hosts.now) }
    ensures typed { IfOk result (λ _. AreResolved (map unit_of units.items) hosts.now) }
    ensures first { IfErr result (λ r. IsRefusal r (first_refusal (map unit_of units.items) (c_symbols hosts.now))) }
    ensures links { IfOk result (λ _. (p : Program) → IsProgramOf p (map unit_of units.items) hosts.now → link_refusal p ≡ None) }
    ensures refused { IfErr result (λ r. (p : Program) → IsProgramOf p (map unit_of units.items) hosts.now → IsRefusal r (link_refusal p)) }
{
    let table = match define_all(alloc, units.as_slice(), hosts) {
        Ok(table) => table,
        Err(refusal) => return Err(refusal),
    };
    match resolve_all(alloc, &table, units.as_slice()) {
        Ok(()) => {}
        Err(refusal) => return Err(refusal),
    }
    let own = own_tables(alloc, units.as_slice())?;
    let hosts = copies(alloc, hosts)?;
    Ok(Linked {
        units,
        hosts,
        table,
        own,
    })
}

impl Linked {
    /// The number of units. Some text spells each, it keeps the rules, and they link.
    pub fn unit_count(&self) -> usize
        ensures count { result ≡ length self.now.0 }
        ensures checked { AllChecked (map unit_of self.now.0) }
        ensures links { (p : Program) → IsProgramOf p (map unit_of self.now.0) self.now.1 → link_refusal p ≡ None }
    {
        self.units.len()
    }

    /// The units that were handed in, in their order. Some text spells each, it keeps the rules, and
    /// nothing refuses to link them with the symbols.
    pub fn units(&self) -> &[CheckedUnit]
        ensures units { result.now ≡ self.now.0 }
        ensures checked { AllChecked (map unit_of self.now.0) }
        ensures resolved { first_refusal (map unit_of self.now.0) (c_symbols self.now.1) ≡ None }
    {
        self.units.as_slice()
    }

    /// Gives the units back, in the order in which they were handed in.
    pub fn into_units(self) -> Vec<CheckedUnit>
        ensures { result.items ≡ self.0 }
    {
        self.units
    }

    /// The unit that was handed in at a place, counted from 0.
    pub fn unit(&self, k: usize) -> &CheckedUnit
        requires { k < length self.now.0 }
        ensures { slice_get self.now.0 k ≡ Some result.now }
    {
        &self.units[k]
    }

    /// The type of the function of external linkage that a unit defines under a symbol. None
    /// exactly where no unit defines one.
    pub fn signature(&self, symbol: &[u8]) -> Option<&CFuncType>
        ensures { option_map func_type_of (option_copied result) ≡ signature_of (map unit_of self.now.0) symbol.now }
    {
        self.table.unit_type(symbol)
    }

    /// Whether a function under this symbol may be called with these values: a unit defines it with
    /// external linkage, its parameters have the types of the values, and its result is void, u32
    /// or u64.
    pub fn fits(&self, symbol: &[u8], args: &[Value]) -> bool
        ensures taken { result ≡ takes_if_any (signature_of (map unit_of self.now.0) symbol.now) args.now }
        ensures meaning { (p : Program) → p.units ≡ map unit_of self.now.0 → result ≡ fits p (record { symbol = symbol.now; args = args.now }) }
    {
        match self.table.unit_type(symbol) {
            None => false,
            Some(ty) => takes(ty, args),
        }
    }

    /// Who defines the function of a symbol, for all units. None where nothing does.
    pub fn owner(&self, symbol: &[u8]) -> Option<Owner>
        ensures owner { result ≡ owner_of (map unit_of self.now.0) (c_symbols self.now.1) symbol.now }
        ensures meaning { (p : Program) → IsProgramOf p (map unit_of self.now.0) self.now.1
            → if_found result (address_in p symbol.now) ≡ external_func p symbol.now }
    {
        self.table.owner(symbol)
    }

    /// Who defines the function that a name stands for in a unit, counted from 0: the unit itself,
    /// or else who defines it for all units. None where nothing does.
    pub fn func_named(&self, u: usize, name: &[u8]) -> Option<Owner>
        requires { u < length self.now.0 }
        ensures { (p : Program) → IsProgramOf p (map unit_of self.now.0) self.now.1
            → if_found result (address_in p name.now) ≡ func_named p u name.now }
    {
        if self.own[u].has(name) {
            Some(Owner::Unit(u))
        } else {
            self.table.owner(name)
        }
    }

    /// The symbols of hosts that were handed in, in their order.
    pub fn host_symbols(&self) -> &[HostSymbol]
        ensures { result.now ≡ self.now.1 }
    {
        self.hosts.as_slice()
    }
}
