// The two passes over the units: what is defined twice, then what is not resolved.
ghost use Rattle.std.specs.Prelude.{◌≡◌, flat_map, map, IfOk, IfErr, None};
ghost use Rattle.c_tree.specs.View.{func_of, item_of, unit_of};
ghost use Rattle.c_meaning.specs.Linking.{external_functions, first, twice, unresolved};
ghost use Rattle.c_link.specs.Offers.{Holds, c_symbols, offers as offers_of};
ghost use Rattle.c_link.specs.Refusals.{IsRefusal, first_twice, first_unresolved, in_item, types_in};
ghost use Rattle.c_link.specs.Programs.{AllChecked};

use crate::functions::{external_function, has_type};
use crate::host_symbol::HostSymbol;
use crate::offers::Offers;
use crate::refusal::LinkRefusal;
use c_rules::{CheckedUnit, absorb_unit};
use c_tree::{Func, Item};
use name_table::Salted;
use std::alloc::Global;

// The key of all names of hosts and units.
fn salt_of_all(units: &[CheckedUnit], hosts: &[HostSymbol]) -> Salted {
    let mut salt = Salted::new();
    for host in hosts {
        salt.absorb(host.symbol.as_slice());
    }
    for unit in units {
        absorb_unit(&mut salt, unit.unit().as_slice());
    }
    salt.sealed()
}

/// What hosts and units define, where no unit defines what a host or an earlier unit does.
pub fn define_all(
    alloc: Global,
    units: &[CheckedUnit],
    hosts: &[HostSymbol],
) -> Result<Offers, LinkRefusal>
    ensures table { IfOk result (λ table. Holds table (offers_of (map unit_of units.now) (c_symbols hosts.now))) }
    ensures once { IfOk result (λ _. first_twice (map unit_of units.now) (c_symbols hosts.now) ≡ None) }
    ensures kept { IfOk result (λ _. AllChecked (map unit_of units.now)) }
    ensures first { IfErr result (λ r. IsRefusal r (first_twice (map unit_of units.now) (c_symbols hosts.now))) }
{
    let mut table = Offers::of_hosts(alloc, salt_of_all(units, hosts), hosts)?;
    for (u, unit) in units.iter().enumerate() {
        let items = unit.unit().as_slice();
        match define_once(alloc, &table, u, items) {
            Ok(()) => table = table.with_unit(alloc, u, items)?,
            Err(refusal) => return Err(refusal),
        }
    }
    Ok(table)
}

// That nothing that a unit defines is in the table.
fn define_once(alloc: Global, table: &Offers, u: usize, items: &[Item]) -> Result<(), LinkRefusal>
    ensures once { IfOk result (λ _. first (flat_map (twice (types_in table.now) u) (external_functions (unit_of items.now))) ≡ None) }
    ensures first { IfErr result (λ r. IsRefusal r (first (flat_map (twice (types_in table.now) u) (external_functions (unit_of items.now))))) }
{
    for item in items {
        match define_item(alloc, table, u, item) {
            Ok(()) => {}
            Err(refusal) => return Err(refusal),
        }
    }
    Ok(())
}

fn define_item(alloc: Global, table: &Offers, u: usize, item: &Item) -> Result<(), LinkRefusal>
    ensures once { IfOk result (λ _. in_item (twice (types_in table.now) u) (item_of item.now) ≡ None) }
    ensures first { IfErr result (λ r. IsRefusal r (in_item (twice (types_in table.now) u) (item_of item.now))) }
{
    match external_function(item) {
        Some(f) => define(alloc, table, u, f),
        None => Ok(()),
    }
}

fn define(alloc: Global, table: &Offers, u: usize, f: &Func) -> Result<(), LinkRefusal>
    ensures once { IfOk result (λ _. first (twice (types_in table.now) u (func_of f.now)) ≡ None) }
    ensures first { IfErr result (λ r. IsRefusal r (first (twice (types_in table.now) u (func_of f.now)))) }
{
    if f.body.is_none() {
        return Ok(());
    }
    match table.find(f.name.as_slice()) {
        Some(_) => Err(LinkRefusal::Twice(u, f.name.to_bytes(alloc)?)),
        None => Ok(()),
    }
}

/// That all that units declare is in the table, with its type.
pub fn resolve_all(alloc: Global, table: &Offers, units: &[CheckedUnit]) -> Result<(), LinkRefusal>
    ensures resolved { IfOk result (λ _. first_unresolved (types_in table.now) (map unit_of units.now) ≡ None) }
    ensures first { IfErr result (λ r. IsRefusal r (first_unresolved (types_in table.now) (map unit_of units.now))) }
{
    for (u, unit) in units.iter().enumerate() {
        match resolve_unit(alloc, table, u, unit.unit().as_slice()) {
            Ok(()) => {}
            Err(refusal) => return Err(refusal),
        }
    }
    Ok(())
}

fn resolve_unit(alloc: Global, table: &Offers, u: usize, items: &[Item]) -> Result<(), LinkRefusal>
    ensures resolved { IfOk result (λ _. first (flat_map (unresolved (types_in table.now) u) (external_functions (unit_of items.now))) ≡ None) }
    ensures first { IfErr result (λ r. IsRefusal r (first (flat_map (unresolved (types_in table.now) u) (external_functions (unit_of items.now))))) }
{
    for item in items {
        match resolve_item(alloc, table, u, item) {
            Ok(()) => {}
            Err(refusal) => return Err(refusal),
        }
    }
    Ok(())
}

fn resolve_item(alloc: Global, table: &Offers, u: usize, item: &Item) -> Result<(), LinkRefusal>
    ensures resolved { IfOk result (λ _. in_item (unresolved (types_in table.now) u) (item_of item.now) ≡ None) }
    ensures first { IfErr result (λ r. IsRefusal r (in_item (unresolved (types_in table.now) u) (item_of item.now))) }
{
    match external_function(item) {
        Some(f) => resolve(alloc, table, u, f),
        None => Ok(()),
    }
}

fn resolve(alloc: Global, table: &Offers, u: usize, f: &Func) -> Result<(), LinkRefusal>
    ensures resolved { IfOk result (λ _. first (unresolved (types_in table.now) u (func_of f.now)) ≡ None) }
    ensures first { IfErr result (λ r. IsRefusal r (first (unresolved (types_in table.now) u (func_of f.now)))) }
{
    match table.find(f.name.as_slice()) {
        None => Err(LinkRefusal::Undefined(u, f.name.to_bytes(alloc)?)),
        Some(offer) => {
            if has_type(&offer.ty, f) {
                Ok(())
            } else {
                Err(LinkRefusal::TypeDiffers(u, f.name.to_bytes(alloc)?))
            }
        }
    }
}
