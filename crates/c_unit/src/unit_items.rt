// The items of a unit, one at a time.
ghost use Rattle.std.specs.Prelude.{◌≡◌, ◌+◌, map, slice_get, option_map, IfOk, OnErr};
ghost use Rattle.std.specs.List.{AllByRecursion};
ghost use Rattle.c_tree.specs.View.{item_of};
ghost use Rattle.packed_stmts.specs.PackedItems.{packed_item_of};
ghost use Rattle.c_tree.specs.DefinedNames.{global_name, pointer_name as pointer_name_of};
ghost use Rattle.c_helpers.specs.Needed.{helpers_of};
ghost use Rattle.c_symbols.specs.Symbols.{declared_symbols, global_imports};
ghost use Rattle.c_symbols.specs.Named.{pair_of};
ghost use Rattle.unit_definition.specs.Items as of;
ghost use Rattle.c_init.specs.Init.{parts_of};
ghost use Rattle.c_init.specs.Portions.{part_of, IsOf};
ghost use Rattle.c_init.specs.Sources.{module_of};
ghost use Rattle.c_unit.specs.OneProof.{own_all-prop, same_parts-prop};
ghost use Rattle.c_unit.specs.Pointers.{pointed};
ghost use Rattle.unit_definition.specs.Arrays.{bytes_of, byte_segments};

use crate::bodies::{body, prototype};
use crate::declarations::declared;
use crate::exports::export_func;
use crate::global_pointers::global_pointers;
use crate::items::{array, declaration, global_item, memory, table, variable};
use crate::with_bytes::with_bytes;
use c_helpers::{Helper, helper, helpers};
use c_init::{Portion, Source, portions_of};
use c_symbols::{MEMORY_NAME, Symbol, TABLE_NAME, pointer_name, pointer_to_global};
use c_tree::{CType, Item};
use packed_stmts::PackedItem;
use std::alloc::Global;
use w2c_base::Memory;
use wasm_tree::SegmentEntry;
use wasm_typing::ValidModule;

/// What the unit of a module has of each kind, where that is no list of the module's own.
#[derive(Drop)]
struct Listed<'a> {
    pointers: Vec<CType>,
    arrays: Vec<(usize, &'a SegmentEntry)>,
    declared: Vec<Symbol<'a>>,
    helpers: Vec<Helper>,
    parts: Vec<Portion<'a>>,
}

/// The items of a module's unit that were not given yet.
pub struct UnitItems<'a> {
    source: Source<'a>,
    listed: Listed<'a>,
    number: usize,
    ghost pointers_are: { listed.pointers.items ≡ map (pointed source.tree.now) (global_imports source.tree.now) },
    ghost arrays_are: { map bytes_of listed.arrays.items ≡ byte_segments source.tree.now },
    ghost declared_are: { map pair_of listed.declared.items ≡ declared_symbols (module_of source) },
    ghost helpers_are: { listed.helpers.items ≡ helpers_of source.tree.now },
    ghost parts_are: { map (part_of source.tree.now) listed.parts.items ≡ parts_of source.tree.now } by { same_parts-prop (map (part_of source.tree.now) listed.parts.items) (parts_of source.tree.now) },
    ghost parts_are_own: { AllByRecursion (IsOf source.tree.now) listed.parts.items } by { own_all-prop source.tree.now listed.parts.items },
}

// By hand, so that each place which drops it is proved by one call.
impl Drop for UnitItems<'_> {
    fn drop(self) {
        let UnitItems {
            source: _,
            listed: _,
            number: _,
        } = self;
    }
}

fn pointer(alloc: Global, ty: CType, object: &[u8]) -> Result<Item, Memory>
    ensures { IfOk result (λ item. item_of item ≡ of.variable ty (pointer_name_of object.now)) }
{
    Ok(variable(ty, pointer_name(alloc, object)?))
}

fn global_pointer(alloc: Global, ty: CType, number: usize) -> Result<Item, Memory>
    ensures { IfOk result (λ item. item_of item ≡ of.variable ty (pointer_name_of (global_name number))) }
{
    Ok(variable(ty, pointer_to_global(alloc, number)?))
}

fn declared_item(alloc: Global, symbol: &Symbol) -> Result<Item, Memory>
    ensures { IfOk result (λ item. item_of item ≡ of.declaration (pair_of symbol.now)) }
{
    let symbol = symbol.copy(alloc)?;
    declaration(alloc, symbol)
}

impl<'a> Listed<'a> {
    fn new(source: &Source<'a>) -> Result<Listed<'a>, Memory>
        ensures pointers { IfOk result (λ listed. listed.pointers.items ≡ map (pointed source.now.tree.now) (global_imports source.now.tree.now)) }
        ensures arrays { IfOk result (λ listed. map bytes_of listed.arrays.items ≡ byte_segments source.now.tree.now) }
        ensures declared { IfOk result (λ listed. map pair_of listed.declared.items ≡ declared_symbols (module_of source.now)) }
        ensures helpers { IfOk result (λ listed. listed.helpers.items ≡ helpers_of source.now.tree.now) }
        ensures parts { IfOk result (λ listed. map (part_of source.now.tree.now) listed.parts.items ≡ parts_of source.now.tree.now) }
        ensures own { IfOk result (λ listed. AllByRecursion (IsOf source.now.tree.now) listed.parts.items) }
    {
        let alloc = source.alloc;
        let pointers = global_pointers(alloc, source.tree)?;
        let arrays = with_bytes(alloc, source.tree)?;
        let declared = declared(alloc, source.symbols())?;
        let helpers = helpers(alloc, source.tree)?;
        let parts = portions_of(alloc, source.tree)?;
        Ok(Listed {
            pointers,
            arrays,
            declared,
            helpers,
            parts,
        })
    }
}

impl<'a> UnitItems<'a> {
    ghost use Rattle.unit_definition.specs.Items.{items};
    ghost use Rattle.unit_definition.specs.Tails as tail;
    ghost use Rattle.c_unit.specs.Left as given;

    /// The items of the unit of a module under a name. What all of them are made of is looked up here, once.
    pub fn new(alloc: Global, m: &'a ValidModule, name: &'a [u8]) -> Result<UnitItems<'a>, Memory>
        ensures module { IfOk result (λ u. module_of u.source ≡ record { name = name.now; tree = m.now }) }
        ensures left { IfOk result (λ u. given.left_of u ≡ of.items_of m.now name.now) }
    {
        let source = Source::new(alloc, m, name)?;
        let listed = Listed::new(&source)?;
        Ok(UnitItems {
            source,
            listed,
            number: 0,
        })
    }

    fn at_memories(&self, n: usize) -> Result<Option<PackedItem>, Memory>
        ensures { IfOk result (λ item. option_map packed_item_of item ≡ slice_get (tail.from_memories (module_of self.now.source)) n) }
    {
        let memories = self.source.tree.memories.as_slice();
        match memories.get(n) {
            Some(_) => Ok(Some(PackedItem::Whole(memory(self.source.alloc)?))),
            None => self.at_globals(n.saturating_sub(memories.len())),
        }
    }

    fn at_globals(&self, n: usize) -> Result<Option<PackedItem>, Memory>
        ensures { IfOk result (λ item. option_map packed_item_of item ≡ slice_get (tail.from_globals (module_of self.now.source)) n) }
    {
        let globals = self.source.tree.globals.as_slice();
        match globals.get(n) {
            Some(global) => Ok(Some(PackedItem::Whole(global_item(&self.source, n, global)?))),
            None => self.at_pointers(n.saturating_sub(globals.len())),
        }
    }

    fn at_pointers(&self, n: usize) -> Result<Option<PackedItem>, Memory>
        ensures { IfOk result (λ item. option_map packed_item_of item ≡ slice_get (tail.from_pointers (module_of self.now.source)) n) }
    {
        let alloc = self.source.alloc;
        let imports = self.source.reached();
        let memories = imports.memories.as_slice();
        match memories.get(n) {
            Some(_) => Ok(Some(PackedItem::Whole(pointer(alloc, CType::PtrMem, MEMORY_NAME)?))),
            None => self.at_table_pointers(n.saturating_sub(memories.len())),
        }
    }

    fn at_table_pointers(&self, n: usize) -> Result<Option<PackedItem>, Memory>
        ensures { IfOk result (λ item. option_map packed_item_of item ≡ slice_get (tail.from_table_pointers (module_of self.now.source)) n) }
    {
        let alloc = self.source.alloc;
        let imports = self.source.reached();
        let tables = imports.tables.as_slice();
        match tables.get(n) {
            Some(_) => Ok(Some(PackedItem::Whole(pointer(alloc, CType::PtrTab, TABLE_NAME)?))),
            None => self.at_global_pointers(n.saturating_sub(tables.len())),
        }
    }

    fn at_global_pointers(&self, n: usize) -> Result<Option<PackedItem>, Memory>
        ensures { IfOk result (λ item. option_map packed_item_of item ≡ slice_get (tail.from_global_pointers (module_of self.now.source)) n) }
    {
        let pointers = self.listed.pointers.as_slice();
        match pointers.get(n) {
            Some(ty) => Ok(Some(PackedItem::Whole(global_pointer(self.source.alloc, *ty, n)?))),
            None => self.at_data(n.saturating_sub(pointers.len())),
        }
    }

    fn at_data(&self, n: usize) -> Result<Option<PackedItem>, Memory>
        ensures { IfOk result (λ item. option_map packed_item_of item ≡ slice_get (tail.from_data (module_of self.now.source)) n) }
    {
        let arrays = self.listed.arrays.as_slice();
        match arrays.get(n) {
            Some(entry) => Ok(Some(PackedItem::Whole(array(self.source.alloc, entry.0, entry.1)?))),
            None => self.at_declared(n.saturating_sub(arrays.len())),
        }
    }

    fn at_declared(&self, n: usize) -> Result<Option<PackedItem>, Memory>
        ensures { IfOk result (λ item. option_map packed_item_of item ≡ slice_get (tail.from_declared (module_of self.now.source)) n) }
    {
        let declared = self.listed.declared.as_slice();
        match declared.get(n) {
            Some(symbol) => Ok(Some(PackedItem::Whole(declared_item(self.source.alloc, symbol)?))),
            None => self.at_prototypes(n.saturating_sub(declared.len())),
        }
    }

    fn at_prototypes(&self, n: usize) -> Result<Option<PackedItem>, Memory>
        ensures { IfOk result (λ item. option_map packed_item_of item ≡ slice_get (tail.from_prototypes (module_of self.now.source)) n) }
    {
        let count = self.source.tree.funcs.len();
        if n < count {
            Ok(Some(PackedItem::Whole(prototype(&self.source, n)?)))
        } else {
            self.at_helpers(n.saturating_sub(count))
        }
    }

    fn at_helpers(&self, n: usize) -> Result<Option<PackedItem>, Memory>
        ensures { IfOk result (λ item. option_map packed_item_of item ≡ slice_get (tail.from_helpers (module_of self.now.source)) n) }
    {
        let helpers = self.listed.helpers.as_slice();
        match helpers.get(n) {
            Some(which) => Ok(Some(PackedItem::Whole(Item::Func(helper(
                self.source.alloc,
                *which,
            )?)))),
            None => self.at_bodies(n.saturating_sub(helpers.len())),
        }
    }

    fn at_bodies(&self, n: usize) -> Result<Option<PackedItem>, Memory>
        ensures { IfOk result (λ item. option_map packed_item_of item ≡ slice_get (tail.from_bodies (module_of self.now.source)) n) }
    {
        let count = self.source.tree.funcs.len();
        if n < count {
            Ok(Some(PackedItem::Func(body(&self.source, n)?)))
        } else {
            self.at_exports(n.saturating_sub(count))
        }
    }

    fn at_exports(&self, n: usize) -> Result<Option<PackedItem>, Memory>
        ensures { IfOk result (λ item. option_map packed_item_of item ≡ slice_get (tail.from_exports (module_of self.now.source)) n) }
    {
        let exports = self.source.tree.exports.as_slice();
        match exports.get(n) {
            Some(export) => Ok(Some(PackedItem::Whole(Item::Func(export_func(
                &self.source,
                n,
                export,
            )?)))),
            None => self.at_parts(n.saturating_sub(exports.len())),
        }
    }

    #[tactic(auto, using(crate::proofs::Standing::own_at))]
    fn at_parts(&self, n: usize) -> Result<Option<PackedItem>, Memory>
        ensures { IfOk result (λ item. option_map packed_item_of item ≡ slice_get (tail.from_parts (module_of self.now.source)) n) }
    {
        let parts = self.listed.parts.as_slice();
        match parts.get(n) {
            Some(portion) => Ok(Some(PackedItem::Whole(Item::Func(
                self.source.part_func(n, *portion)?,
            )))),
            None => self.at_init(n.saturating_sub(parts.len())),
        }
    }

    #[tactic(auto, using(crate::proofs::Standing::as_many))]
    fn at_init(&self, n: usize) -> Result<Option<PackedItem>, Memory>
        ensures { IfOk result (λ item. option_map packed_item_of item ≡ slice_get (tail.from_init (module_of self.now.source)) n) }
    {
        if n == 0 {
            let parts = self.listed.parts.len();
            Ok(Some(PackedItem::Whole(Item::Func(self.source.init_func(parts)?))))
        } else {
            Ok(None)
        }
    }

    // The item with a number.
    fn at(&self, n: usize) -> Result<Option<PackedItem>, Memory>
        ensures { IfOk result (λ item. option_map packed_item_of item ≡ slice_get (items (module_of self.now.source)) n) }
    {
        let tables = self.source.tree.tables.as_slice();
        match tables.get(n) {
            Some(_) => Ok(Some(PackedItem::Whole(table(self.source.alloc)?))),
            None => self.at_memories(n.saturating_sub(tables.len())),
        }
    }

    /// The next item, its statements packed; None exactly where all were given. Where memory was wanting, it can be asked for again.
    pub fn next_packed(&mut self) -> Result<Option<PackedItem>, Memory>
        ensures given { IfOk result (λ item. given.Given (option_map packed_item_of item) (given.left_of self.old) (given.left_of self.new)) }
        ensures module { module_of self.new.source ≡ module_of self.old.source }
        ensures err { OnErr result (given.left_of self.new ≡ given.left_of self.old) }
    {
        match self.at(self.number)? {
            None => Ok(None),
            Some(item) => {
                self.number += 1;
                Ok(Some(item))
            }
        }
    }

    /// The next item, None exactly where all were given. Where memory was wanting, it can be asked for again.
    pub fn next(&mut self, _alloc: Global) -> Result<Option<Item>, Memory>
        ensures given { IfOk result (λ item. given.Given (option_map item_of item) (given.left_of self.old) (given.left_of self.new)) }
        ensures module { module_of self.new.source ≡ module_of self.old.source }
        ensures err { OnErr result (given.left_of self.new ≡ given.left_of self.old) }
    {
        match self.at(self.number)? {
            None => Ok(None),
            Some(packed) => {
                let item = packed.whole()?;
                self.number += 1;
                Ok(Some(item))
            }
        }
    }
}
