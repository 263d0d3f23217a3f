// The types of functions by number.
ghost use Rattle.std.specs.Prelude.{◌≡◌, if◌then◌else◌, map, nat_lt, option_map, Some, IfOk};
ghost use Rattle.c_tree.specs.View.{func_type_of, item_of, unit_of};
ghost use Rattle.crun_startup.specs.Entries.{host_type, item_type as item_type_of, parts, types_in};

use c_link::{HostSymbol, Linked, function_type};
use c_thread::{FuncTypes, TypeList};
use c_tree::{CFuncType, Item, c_func_type};
use std::alloc::Global;
use w2c_base::Memory;

/// The types of the functions of units, and of hosts that have so many functions each.
pub fn func_types(alloc: Global, linked: &Linked, counts: &[usize]) -> Result<FuncTypes, Memory>
    ensures units { IfOk result (λ t. map types_in t.units.items ≡ map (map item_type_of) (map unit_of linked.now.0)) }
    ensures hosts { IfOk result (λ t. map types_in t.hosts.items ≡ map (map Some) (parts counts.now (map host_type linked.now.1))) }
{
    Ok(FuncTypes {
        units: of_units(alloc, linked)?,
        hosts: of_hosts(alloc, linked.host_symbols(), counts)?,
    })
}

fn of_units(alloc: Global, linked: &Linked) -> Result<Vec<TypeList>, Memory>
    ensures { IfOk result (λ lists. map types_in lists.items ≡ map (map item_type_of) (map unit_of linked.now.0)) }
{
    let mut lists = Vec::new(alloc);
    for unit in 0..linked.unit_count() {
        lists.push(of_unit(alloc, linked.unit(unit).unit().as_slice())?)?;
    }
    Ok(lists)
}

fn of_unit(alloc: Global, items: &[Item]) -> Result<TypeList, Memory>
    ensures { IfOk result (λ list. types_in list ≡ map item_type_of (map item_of items.now)) }
{
    let mut types = Vec::new(alloc);
    for item in items {
        types.push(item_type(alloc, item)?)?;
    }
    Ok(TypeList { types })
}

// The type of the function that an item defines.
fn item_type(alloc: Global, item: &Item) -> Result<Option<CFuncType>, Memory>
    ensures { IfOk result (λ o. option_map func_type_of o ≡ item_type_of (item_of item.now)) }
{
    match item {
        Item::Func(f) => {
            if f.body.is_some() {
                Ok(Some(function_type(alloc, f)?))
            } else {
                Ok(None)
            }
        }
        Item::Array(_, _, _) => Ok(None),
        Item::Var(_, _, _) => Ok(None),
    }
}

// The types of hosts' functions, host by host.
fn of_hosts(alloc: Global, hosts: &[HostSymbol], counts: &[usize]) -> Result<Vec<TypeList>, Memory>
    ensures { IfOk result (λ lists. map types_in lists.items ≡ map (map Some) (parts counts.now (map host_type hosts.now))) }
{
    let mut lists = Vec::new(alloc);
    let mut rest = hosts;
    for count in counts {
        let (front, behind) = rest.split_at(at_most(*count, rest.len()));
        lists.push(of_host(alloc, front)?)?;
        rest = behind;
    }
    Ok(lists)
}

fn at_most(count: usize, most: usize) -> usize
    ensures { result ≡ (if nat_lt count most then count else most) }
{
    if count < most { count } else { most }
}

fn of_host(alloc: Global, hosts: &[HostSymbol]) -> Result<TypeList, Memory>
    ensures { IfOk result (λ list. types_in list ≡ map Some (map host_type hosts.now)) }
{
    let mut types = Vec::new(alloc);
    for host in hosts {
        types.push(Some(c_func_type(alloc, &host.ty)?))?;
    }
    Ok(TypeList { types })
}
