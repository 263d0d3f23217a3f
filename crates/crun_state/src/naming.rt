// The names of hosts and their functions, and of functions of units, by number.
ghost use Rattle.std.specs.Prelude.{◌≡◌, [], get_or, map};
ghost use Rattle.c_tree.specs.Tree as tree;
ghost use Rattle.c_tree.specs.View.{func_of, item_of, unit_of};
ghost use Rattle.c_objects.specs.Views.{func_of as func_in, item_name as item_name_in};
ghost use Rattle.crun_startup.specs.Names.{function_name as name_of_function, naming_of};
ghost use Rattle.c_hosts.specs.Asking.{function_of, hosts_of};
ghost use Rattle.crun_lines.specs.HostLines.{function_name as function_name_in, host_name as host_name_in};
ghost use Rattle.crun_lines.specs.StateLines.{function_text};
ghost use Rattle.crun_lines.specs.Views.{owned_text};
ghost use Rattle.crun_state.specs.Showing.{name_among};

use crate::places::at;
use c_hosts::HostModule;
use c_objects::FuncId;
use c_rules::CheckedUnit;
use c_tree::{Func, Item};
use crun_lines::Function;

/// The name of the host with a number, which is empty where there is none.
pub fn host_name<H: HostModule>(hosts: &[H], host: usize) -> &[u8]
    ensures { result.now ≡ host_name_in (hosts_of H.HostModule hosts.now) host }
{
    match at(hosts, host) {
        Some(own) => own.name(),
        None => b"",
    }
}

/// The name of the function with a number that a host offers, which is empty where there is none.
pub fn function_name<H: HostModule>(hosts: &[H], host: usize, function: usize) -> &[u8]
    ensures { result.now ≡ function_name_in (hosts_of H.HostModule hosts.now) host function }
{
    match at(hosts, host) {
        Some(own) => name_in_host(own, function),
        None => b"",
    }
}

/// The function that an element of a table names.
pub fn function_in<'a, H: HostModule>(
    units: &'a [CheckedUnit],
    hosts: &'a [H],
    func: FuncId,
) -> Function<'a>
    ensures { owned_text result ≡ function_text (hosts_of H.HostModule hosts.now) (func_in (naming_of (map unit_of units.now)) func) }
{
    match func {
        FuncId::Unit(unit, item) => Function::OfUnit(unit, item_name(units, unit, item)),
        FuncId::Host(host, function) => {
            Function::OfHost(host, function_name(hosts, host, function))
        }
    }
}

// The name in C of the function that an item of a unit defines, which is empty where it defines none.
fn item_name(units: &[CheckedUnit], unit: usize, item: usize) -> &[u8]
    ensures { result.now ≡ item_name_in (naming_of (map unit_of units.now)) unit item }
{
    match at(units, unit) {
        Some(own) => name_in_unit(own.unit().as_slice(), item),
        None => b"",
    }
}

fn name_in_host<H: HostModule>(host: &H, function: usize) -> &[u8]
    ensures { result.now ≡ name_among (map function_of (H.HostModule.functions_of host.now)) function }
{
    if function < host.count() {
        host.function(function).name.as_slice()
    } else {
        b""
    }
}

fn name_in_unit(items: &[Item], item: usize) -> &[u8]
    ensures { result.now ≡ get_or (map name_of_function (map item_of items.now)) item [] }
{
    match items.get(item) {
        Some(item) => function_of_item(item),
        None => b"",
    }
}

fn function_of_item(item: &Item) -> &[u8]
    ensures { result.now ≡ name_of_function (item_of item.now) }
{
    match item {
        Item::Func(f) => function_with_body(f),
        Item::Array(_, _, _) => b"",
        Item::Var(_, _, _) => b"",
    }
}

fn function_with_body(f: &Func) -> &[u8]
    ensures { result.now ≡ name_of_function (tree.Function (func_of f.now)) }
{
    match &f.body {
        Some(_) => f.name.as_slice(),
        None => b"",
    }
}
