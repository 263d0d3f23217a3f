// The functions that units and hosts define for all units, found by their symbols.
ghost use Rattle.std.specs.Prelude.{◌≡◌, ◌∷◌, ◌++◌, [], ℕ, List, map, zip, filter_map, flat_map, IfOk, OnOk};
ghost use Rattle.std.specs.List.{range_with_len};
ghost use Rattle.w2c_base.specs.Lookup.{named, numbered as numbered_list};
ghost use Rattle.c_tree.specs.View.{item_of, unit_of};
ghost use Rattle.c_thread.specs.Sights.{symbol_in};
ghost use Rattle.c_objects.specs.declared.held.FuncId.TheVariants as func;
ghost use Rattle.crun_startup.specs.Entries.{entries, entry_of, host_ids as host_ids_of, item_entry, symbol_of, unit_entries};

use c_link::{HostSymbol, Linked, defined_function};
use c_machine::{Numbers, number_all};
use c_objects::FuncId;
use c_thread::Symbols;
use c_tree::Item;
use name_table::Salted;
use std::alloc::Global;
use w2c_base::Memory;

/// A function that all units see: its symbol, and its number.
#[derive(Clone, Copy)]
pub struct Seen<'a> {
    pub symbol: &'a [u8],
    pub func: FuncId,
}

/// The table of what units and hosts define for all units, where the hosts have so many functions each.
pub fn symbols(alloc: Global, linked: &Linked, counts: &[usize]) -> Result<Symbols, Memory>
    ensures { IfOk result (λ s. (q : List ℕ) → symbol_in s q
        ≡ named q (entries (map unit_of linked.now.0) linked.now.1 counts.now)) }
{
    let mut seen = of_units(alloc, linked)?;
    put_hosts(
        &mut seen,
        linked.host_symbols(),
        host_ids(alloc, counts)?.as_slice(),
    )?;
    let symbols = numbered(alloc, seen.as_slice())?;
    Ok(symbols)
}

fn of_units(alloc: Global, linked: &Linked) -> Result<Vec<Seen<'_>>, Memory>
    ensures { IfOk result (λ seen. map entry_of seen.items ≡ flat_map unit_entries (numbered_list (map unit_of linked.now.0))) }
{
    let mut seen = Vec::new(alloc);
    for unit in 0..linked.unit_count() {
        put_unit(&mut seen, unit, linked.unit(unit).unit().as_slice())?;
    }
    Ok(seen)
}

fn put_unit<'a>(seen: &mut Vec<Seen<'a>>, unit: usize, items: &'a [Item]) -> Result<(), Memory>
    ensures { OnOk result (map entry_of seen.new.items ≡ map entry_of seen.old.items ++ unit_entries (unit, map item_of items.now)) }
{
    for (i, item) in items.iter().enumerate() {
        put_item(seen, unit, i, item)?;
    }
    Ok(())
}

fn put_item<'a>(
    seen: &mut Vec<Seen<'a>>,
    unit: usize,
    number: usize,
    item: &'a Item,
) -> Result<(), Memory>
    ensures { OnOk result (map entry_of seen.new.items
        ≡ map entry_of seen.old.items ++ filter_map (item_entry unit) ((number, item_of item.now) ∷ [])) }
{
    match defined_function(item) {
        Some(f) => {
            seen.push(Seen {
                symbol: f.name.as_slice(),
                func: FuncId::Unit(unit, number),
            })?;
            Ok(())
        }
        None => Ok(()),
    }
}

// Hosts' symbols with their numbers, as long as there are both.
fn put_hosts<'a>(
    seen: &mut Vec<Seen<'a>>,
    hosts: &'a [HostSymbol],
    ids: &[FuncId],
) -> Result<(), Memory>
    ensures { OnOk result (map entry_of seen.new.items ≡ map entry_of seen.old.items ++ zip (map symbol_of hosts.now) ids.now) }
{
    for (i, host) in hosts.iter().enumerate() {
        let Some(id) = ids.get(i) else {
            return Ok(());
        };
        seen.push(Seen {
            symbol: host.symbol.as_slice(),
            func: *id,
        })?;
    }
    Ok(())
}

fn host_ids(alloc: Global, counts: &[usize]) -> Result<Vec<FuncId>, Memory>
    ensures { IfOk result (λ ids. ids.items ≡ host_ids_of counts.now) }
{
    let mut ids = Vec::new(alloc);
    for (host, count) in counts.iter().enumerate() {
        put_ids(&mut ids, host, *count)?;
    }
    Ok(ids)
}

fn put_ids(ids: &mut Vec<FuncId>, host: usize, count: usize) -> Result<(), Memory>
    ensures { OnOk result (ids.new.items ≡ ids.old.items ++ map (func.Host host) (range_with_len 0 count)) }
{
    for function in 0..count {
        ids.push(FuncId::Host(host, function))?;
    }
    Ok(())
}

// The key of the symbols.
fn salt_of_seen(seen: &[Seen<'_>]) -> Salted {
    let mut salt = Salted::new();
    for one in seen {
        salt.absorb(one.symbol);
    }
    salt.sealed()
}

// A table in which each symbol stands for the first of its functions.
fn numbered(alloc: Global, seen: &[Seen<'_>]) -> Result<Symbols, Memory>
    ensures { IfOk result (λ s. (q : List ℕ) → symbol_in s q ≡ named q (map entry_of seen.now)) }
{
    let mut numbers = Numbers::new(alloc, salt_of_seen(seen));
    let mut funcs = Vec::new(alloc);
    for (i, one) in seen.iter().enumerate() {
        numbers.enter(alloc, Some(one.symbol), i)?;
        funcs.push(one.func)?;
    }
    Ok(Symbols { numbers, funcs })
}
