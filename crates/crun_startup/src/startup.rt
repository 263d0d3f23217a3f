// Linked units, ready to run.
ghost use Rattle.std.specs.Prelude.{◌≡◌, ◌<◌, [], List, length, map, slice_get, Some, IfOk};
ghost use Rattle.w2c_base.specs.Run.{Reply};
ghost use Rattle.c_tree.specs.View.{unit_of};
ghost use Rattle.c_meaning.specs.Linking.{Program};
ghost use Rattle.c_meaning.specs.Machine.{fresh};
ghost use Rattle.c_link.specs.Programs.{AllChecked, IsProgramOf};
ghost use Rattle.c_objects.specs.Stores.{machine_of, AreStored};
ghost use Rattle.c_thread.specs.FuncTypes.{AreFuncTypes};
ghost use Rattle.c_thread.specs.Linked.{HaveUnitTables, IsLinked};
ghost use Rattle.crun_startup.specs.Called.{AreSymbols};
ghost use Rattle.crun_startup.specs.Entries.{HaveCounts};
ghost use Rattle.crun_startup.specs.Names.{naming_of};
ghost use Rattle.crun_startup.specs.Units.{AreAllFirst, AreTables, AreUnits, IsUnit};

use crate::names::{ObjectKind, array_numbers, object_numbers};
use crate::objects::first_objects;
use crate::symbols::symbols;
use crate::types::func_types;
use c_link::Linked;
use c_machine::{Tables, function_numbers};
use c_objects::Store;
use c_thread::{FuncTypes, LinkedUnit, ObjectTables, Symbols};
use c_tree::Item;
use std::alloc::Global;
use std::rc::Rc;
use w2c_base::Memory;

/// Linked units with the tables of their names, the table of symbols, which the units share, the types of
/// functions, and the objects before the first statement.
#[derive(Drop)]
pub struct Startup {
    pub units: Vec<LinkedUnit>,
    pub symbols: Rc<Symbols>,
    pub types: FuncTypes,
    pub store: Store,
}

/// What linked units need to run, where their hosts have so many functions each. The error is want of memory alone.
pub fn start_up(alloc: Global, linked: &Linked, counts: &[usize]) -> Result<Startup, Memory>
    ensures tables { IfOk result (λ s. HaveUnitTables s.units.items) }
    ensures linked { IfOk result (λ s. (p : Program) → IsProgramOf p (map unit_of linked.now.0) linked.now.1
        → HaveCounts p.hosts counts.now → IsLinked (naming_of p.units) p s.units.items) }
    ensures symbols { IfOk result (λ s. (p : Program) → IsProgramOf p (map unit_of linked.now.0) linked.now.1
        → HaveCounts p.hosts counts.now → AreSymbols (naming_of p.units) p s.symbols.value) }
    ensures types { IfOk result (λ s. (p : Program) → IsProgramOf p (map unit_of linked.now.0) linked.now.1
        → HaveCounts p.hosts counts.now → AreFuncTypes (naming_of p.units) p s.types) }
    ensures stored { IfOk result (λ s. AreStored (naming_of (map unit_of linked.now.0)) s.store.units.items) }
    ensures fresh { IfOk result (λ s. (p : Program) (replies : List Reply) → p.units ≡ map unit_of linked.now.0
        → machine_of (naming_of p.units) 0 (record { replies = replies; events = [] }) s.store.units.items ≡ fresh p replies) }
{
    let seen = shared(alloc, symbols(alloc, linked, counts)?)?;
    let units = linked_units(alloc, linked, &seen)?;
    let types = func_types(alloc, linked, counts)?;
    let store = fresh_store(alloc, linked)?;
    Ok(Startup {
        units,
        symbols: seen,
        types,
        store,
    })
}

fn shared(alloc: Global, symbols: Symbols) -> Result<Rc<Symbols>, Memory>
    ensures { IfOk result (λ s. s.value ≡ symbols) }
{
    match Rc::new(alloc, symbols) {
        Ok(shared) => Ok(shared),
        Err(_) => Err(Memory),
    }
}

fn linked_units(
    alloc: Global,
    linked: &Linked,
    symbols: &Rc<Symbols>,
) -> Result<Vec<LinkedUnit>, Memory>
    ensures units { IfOk result (λ us. AreUnits symbols.now.value (map unit_of linked.now.0) us.items) }
    ensures checked { IfOk result (λ _. AllChecked (map unit_of linked.now.0)) }
{
    let mut units = Vec::new(alloc);
    for k in 0..linked.unit_count() {
        units.push(linked_unit(alloc, linked, k, symbols)?)?;
    }
    Ok(units)
}

fn linked_unit(
    alloc: Global,
    linked: &Linked,
    k: usize,
    symbols: &Rc<Symbols>,
) -> Result<LinkedUnit, Memory>
    requires { k < length linked.now.0 }
    ensures { IfOk result (λ l. (slice_get linked.now.0 k ≡ Some l.items.value) × IsUnit symbols.now.value k l) }
{
    let items = linked.unit(k).shared()?;
    let functions = Tables::new(alloc, &items)?;
    let objects = object_tables(alloc, k, items.as_slice(), symbols)?;
    Ok(LinkedUnit {
        items,
        functions,
        objects,
    })
}

fn object_tables(
    alloc: Global,
    unit: usize,
    items: &[Item],
    symbols: &Rc<Symbols>,
) -> Result<ObjectTables, Memory>
    ensures { IfOk result (λ t. AreTables symbols.now.value unit (unit_of items.now) t) }
{
    Ok(ObjectTables {
        unit,
        vars: object_numbers(alloc, ObjectKind::Variable, items)?,
        memories: object_numbers(alloc, ObjectKind::Memory, items)?,
        tables: object_numbers(alloc, ObjectKind::Table, items)?,
        arrays: array_numbers(alloc, items)?,
        functions: function_numbers(alloc, items)?,
        symbols: Rc::clone(symbols)?,
    })
}

/// The objects of linked units before the first statement (5.1.2, 6.7.9). The error is want of memory alone.
pub fn fresh_store(alloc: Global, linked: &Linked) -> Result<Store, Memory>
    ensures stored { IfOk result (λ s. AreStored (naming_of (map unit_of linked.now.0)) s.units.items) }
    ensures fresh { IfOk result (λ s. (p : Program) (replies : List Reply) → p.units ≡ map unit_of linked.now.0
        → machine_of (naming_of p.units) 0 (record { replies = replies; events = [] }) s.units.items ≡ fresh p replies) }
{
    // That each unit keeps the rules is a clause of this.
    let _ = linked.unit_count();
    let store = first_store(alloc, linked)?;
    Ok(store)
}

fn first_store(alloc: Global, linked: &Linked) -> Result<Store, Memory>
    ensures { IfOk result (λ s. AreAllFirst (map unit_of linked.now.0) s.units.items) }
{
    let mut units = Vec::new(alloc);
    for k in 0..linked.unit_count() {
        units.push(first_objects(alloc, linked.unit(k).unit().as_slice())?)?;
    }
    Ok(Store { units })
}
