// The objects of units, as they are shown.
ghost use Rattle.std.specs.Prelude.{◌≡◌, option_copied, option_map, slice_get, MatchOption, None};
ghost use Rattle.w2c_base.specs.Lookup.{at_index, if_found};
ghost use Rattle.c_objects.specs.Objects.{element_of, memory_of, table_of};
ghost use Rattle.c_objects.specs.Views.{value_of, Naming};
ghost use Rattle.crun.specs.Engines.{naming_in, units_at, IsStarted};
ghost use Rattle.crun.specs.Shown.{bytes_in, bytes_of, element_seen, elements_count, max_in, max_of, memories_of, number_held, object_in, tables_of, vars_of, AreFound};

use crate::engine::Engine;
use c_hosts::HostModule;
use c_objects::{Entry, FuncId, Held, MemoryCell, TableCell, UnitObjects};
use c_thread::ObjectTables;
use lin_mem::LinMem;
use w2c_base::Value;

/// Who defines a function: the unit or the host with a number, counted from 0.
#[derive(Clone, Copy, Debug, PartialEq, Eq)]
pub enum Owner {
    Unit(usize),
    Host(usize),
}

/// An element of a table: a function, by who defines it and the number of its item or of the host's function,
/// and its signature number.
#[derive(Clone, Copy, Debug, PartialEq, Eq)]
pub struct Element {
    pub owner: Owner,
    pub item: usize,
    pub sig: u64,
}

impl<H: HostModule> Engine<H> {
    /// The number that a variable of a unit holds.
    pub fn variable(&self, unit: usize, name: &[u8]) -> Option<Value>
        requires { IsStarted H.HostModule self.now }
        ensures { result ≡ if_found (object_in (units_at self.now) unit vars_of name.now) number_held }
    {
        let held = self.held(unit, name)?;
        number_of(held)
    }

    /// A memory of a unit, one that was not made without bytes and with the maximum 0.
    pub fn memory(&self, unit: usize, name: &[u8]) -> Option<&LinMem>
        requires { IsStarted H.HostModule self.now }
        ensures bytes { option_map bytes_in (option_copied result) ≡ option_map bytes_of (object_in (units_at self.now) unit memories_of name.now) }
        ensures maximum { option_map max_in (option_copied result) ≡ option_map max_of (object_in (units_at self.now) unit memories_of name.now) }
    {
        let cell = self.cell(unit, name)?;
        match cell {
            MemoryCell::NotMade => Some(&self.not_made),
            MemoryCell::Made(memory) => Some(memory),
        }
    }

    /// The number of elements of a table of a unit.
    pub fn table_len(&self, unit: usize, name: &[u8]) -> Option<u64>
        requires { IsStarted H.HostModule self.now }
        ensures { result ≡ option_map elements_count (object_in (units_at self.now) unit tables_of name.now) }
    {
        let table = self.table(unit, name)?;
        Some(table.elements.len() as u64)
    }

    /// An element of a table of a unit.
    pub fn element(&self, unit: usize, name: &[u8], i: u64) -> Option<Element>
        requires { IsStarted H.HostModule self.now }
        ensures { option_map (element_seen (naming_in self.now)) result
            ≡ if_found (object_in (units_at self.now) unit tables_of name.now) (λ t. at_index t.elements i) }
    {
        let table = self.table(unit, name)?;
        let entry = at(table.elements.as_slice(), i as usize)?;
        let entry = (*entry)?;
        Some(shown(entry))
    }

    fn held(&self, unit: usize, name: &[u8]) -> Option<Held>
        requires { IsStarted H.HostModule self.now }
        ensures { option_map (value_of (naming_in self.now)) result ≡ object_in (units_at self.now) unit vars_of name.now }
    {
        let (tables, objects) = self.unit_objects(unit)?;
        let number = tables.vars.find(name)?;
        at(objects.vars.as_slice(), number).copied()
    }

    fn cell(&self, unit: usize, name: &[u8]) -> Option<&MemoryCell>
        requires { IsStarted H.HostModule self.now }
        ensures { option_map memory_of (option_copied result) ≡ object_in (units_at self.now) unit memories_of name.now }
    {
        let (tables, objects) = self.unit_objects(unit)?;
        let number = tables.memories.find(name)?;
        at(objects.memories.as_slice(), number)
    }

    fn table(&self, unit: usize, name: &[u8]) -> Option<&TableCell>
        requires { IsStarted H.HostModule self.now }
        ensures { option_map (table_of (naming_in self.now)) (option_copied result) ≡ object_in (units_at self.now) unit tables_of name.now }
    {
        let (tables, objects) = self.unit_objects(unit)?;
        let number = tables.tables.find(name)?;
        at(objects.tables.as_slice(), number)
    }

    // The tables that find a unit's objects by name, and the objects.
    fn unit_objects(&self, unit: usize) -> Option<(&ObjectTables, &UnitObjects)>
        requires { IsStarted H.HostModule self.now }
        ensures { MatchOption result (slice_get (units_at self.now) unit ≡ None) (λ x. AreFound (naming_in self.now) (units_at self.now) unit x.0.now x.1.now) }
    {
        let own = at(self.startup.units.as_slice(), unit)?;
        let objects = at(self.startup.store.units.as_slice(), unit)?;
        Some((&own.objects, objects))
    }
}

fn at<T>(items: &[T], i: usize) -> Option<&T>
    ensures { option_copied result ≡ slice_get items.now i }
{
    items.get(i)
}

fn number_of(held: Held) -> Option<Value>
    ensures { (names : Naming) → result ≡ number_held (value_of names held) }
{
    match held {
        Held::Number(number) => Some(number),
        Held::Pointer(_) => None,
        Held::FuncPointer(_) => None,
    }
}

fn shown(entry: Entry) -> Element
    ensures { (names : Naming) → element_seen names result ≡ element_of names entry }
{
    match entry.func {
        FuncId::Unit(unit, item) => Element {
            owner: Owner::Unit(unit),
            item,
            sig: entry.signature,
        },
        FuncId::Host(host, function) => Element {
            owner: Owner::Host(host),
            item: function,
            sig: entry.signature,
        },
    }
}
