// The symbols of a module, each made once; what each is in the unit, and which may be used.
ghost use Rattle.std.specs.Prelude.{◌≡◌, ◌<◌, [], ◌∷◌, ◌++◌, length, map, option_map, slice_get, Some, IfOk, OnOk};
ghost use Rattle.c_symbols.specs.Reached.{usable_as};
ghost use Rattle.c_symbols.specs.Symbols.{exported_symbols, imported_symbols};
ghost use Rattle.c_symbols.specs.Named.{named_of, pair_of, typed_export, typed_import};
ghost use Rattle.wasm_tree.specs.declared.entries.Export.{Export};
ghost use Rattle.wasm_tree.specs.declared.entries.Import.{Import};
ghost use Rattle.c_symbols.specs.Found.{FindsTypes, FindsMore};
ghost use Rattle.c_symbols.specs.Typed.{type_of};

use crate::indexes::{Indexes, Symbol};
use crate::types::{SymbolType, accessor, same};
use c_tree::{CType, Name};
use name_table::{NameTable, Salted};
use std::alloc::Global;
use w2c_base::Memory;
use wasm_tree::Module;

/// The symbols of a module with their types in the unit: each name is found at once.
pub struct Symbols<'a> {
    pub(crate) indexes: Indexes<'a>,
    pub salt: Salted,
    exported: Vec<Symbol<'a>>,
    imported: Vec<Symbol<'a>>,
    types: NameTable<SymbolType<'a>>,
    ghost exported_are: { map pair_of exported.items ≡ exported_symbols (named_of indexes) },
    ghost imported_are: { map pair_of imported.items ≡ imported_symbols (named_of indexes) },
    ghost found: { FindsTypes types (exported_symbols (named_of indexes) ++ imported_symbols (named_of indexes)) },
}

// By hand, so that each place which drops it is proved by one call.
impl Drop for Symbols<'_> {
    fn drop(self) {
        let Symbols {
            indexes: _,
            salt: _,
            exported: _,
            imported: _,
            types: _,
        } = self;
    }
}

// The symbols of a module's exports, with their types.
fn symbols_of_exports<'a>(alloc: Global, indexes: &Indexes<'a>) -> Result<Vec<Symbol<'a>>, Memory>
    ensures { IfOk result (λ symbols. map pair_of symbols.items ≡ exported_symbols (named_of indexes.now)) }
{
    let mut symbols: Vec<Symbol<'a>> = Vec::new(alloc);
    for export in indexes.tree.exports.as_slice() {
        let symbol = indexes.export(alloc, export)?;
        symbols.push(symbol)?;
    }
    Ok(symbols)
}

// The same of its imports.
fn symbols_of_imports<'a>(alloc: Global, indexes: &Indexes<'a>) -> Result<Vec<Symbol<'a>>, Memory>
    ensures { IfOk result (λ symbols. map pair_of symbols.items ≡ imported_symbols (named_of indexes.now)) }
{
    let mut symbols: Vec<Symbol<'a>> = Vec::new(alloc);
    for import in indexes.tree.imports.as_slice() {
        let symbol = indexes.import(alloc, import)?;
        symbols.push(symbol)?;
    }
    Ok(symbols)
}

#[tactic(auto, using(crate::proofs::Founds::entered))]
fn enter<'a>(
    alloc: Global,
    table: &mut NameTable<SymbolType<'a>>,
    symbol: &Symbol<'a>,
) -> Result<(), Memory>
    ensures { OnOk result (FindsMore table.new table.old (pair_of symbol.now ∷ [])) }
{
    table.enter(alloc, symbol.name.as_slice(), symbol.ty)
}

fn enter_all<'a>(
    alloc: Global,
    table: &mut NameTable<SymbolType<'a>>,
    symbols: &[Symbol<'a>],
) -> Result<(), Memory>
    ensures { OnOk result (FindsMore table.new table.old (map pair_of symbols.now)) }
{
    for symbol in symbols {
        enter(alloc, table, symbol)?;
    }
    Ok(())
}

// The exports come first.
fn table_of<'a>(
    alloc: Global,
    salt: Salted,
    exported: &[Symbol<'a>],
    imported: &[Symbol<'a>],
) -> Result<NameTable<SymbolType<'a>>, Memory>
    ensures { IfOk result (λ table. FindsTypes table (map pair_of exported.now ++ map pair_of imported.now)) }
{
    let mut table = NameTable::new(alloc, salt);
    enter_all(alloc, &mut table, exported)?;
    enter_all(alloc, &mut table, imported)?;
    Ok(table)
}

// The key of the names that a module exports and imports. Each symbol is made of one of them and a kind.
fn salt_of_module(tree: &Module) -> Salted {
    let mut salt = Salted::new();
    for export in tree.exports.as_slice() {
        salt.absorb(export.name.as_slice());
    }
    for import in tree.imports.as_slice() {
        salt.absorb(import.module.as_slice());
        salt.absorb(import.field.as_slice());
    }
    salt.sealed()
}

impl<'a> Symbols<'a> {
    ghost use Rattle.c_symbols.specs.Symbols.{declared_type, symbol_type};
    ghost use Rattle.c_symbols.specs.Reached.{has_type};

    /// The symbols of a module under a name.
    pub fn new(alloc: Global, tree: &'a Module, name: &'a [u8]) -> Result<Self, Memory>
        ensures { IfOk result (λ symbols. named_of symbols.indexes ≡ record { name = name.now; tree = tree.now }) }
    {
        let indexes = Indexes::new(alloc, tree, name)?;
        let exported = symbols_of_exports(alloc, &indexes)?;
        let imported = symbols_of_imports(alloc, &indexes)?;
        let salt = salt_of_module(tree);
        let types = table_of(alloc, salt, exported.as_slice(), imported.as_slice())?;
        Ok(Symbols {
            indexes,
            salt,
            exported,
            imported,
            types,
        })
    }

    /// The module, and the index spaces of its functions and globals.
    pub fn indexes(&self) -> &Indexes<'a>
        ensures { result.now ≡ self.now.indexes }
    {
        &self.indexes
    }

    /// The symbol of the import at a place, counted from 0.
    pub fn imported(&self, place: usize) -> &Symbol<'a>
        requires { place < length self.now.indexes.tree.now.imports }
        ensures { (i : Import) → slice_get self.now.indexes.tree.now.imports place ≡ Some i → pair_of result.now ≡ typed_import self.now.indexes.tree.now i }
    {
        &self.imported[place]
    }

    /// The same of the export at a place.
    pub fn exported(&self, place: usize) -> &Symbol<'a>
        requires { place < length self.now.indexes.tree.now.exports }
        ensures { (e : Export) → slice_get self.now.indexes.tree.now.exports place ≡ Some e → pair_of result.now ≡ typed_export (named_of self.now.indexes) e }
    {
        &self.exported[place]
    }

    // The type of a symbol in the unit.
    fn find(&self, name: &[u8]) -> Option<SymbolType<'a>>
        ensures { option_map type_of result ≡ symbol_type (named_of self.now.indexes) name.now }
    {
        self.types.find(name)
    }

    /// The same of a symbol that the unit declares.
    pub fn declared_type(&self, name: &[u8]) -> SymbolType<'a>
        ensures { type_of result ≡ declared_type (symbol_type (named_of self.now.indexes) name.now) }
    {
        match self.find(name) {
            None => accessor(CType::Void),
            Some(ty) => ty,
        }
    }

    /// The name of a symbol, where the unit has it with its type.
    pub fn usable(&self, alloc: Global, symbol: &Symbol) -> Result<Option<Name>, Memory>
        ensures { IfOk result (λ name. name ≡ usable_as (named_of self.now.indexes) (pair_of symbol.now)) }
    {
        if self.is_usable(symbol) {
            Ok(Some(symbol.name.copy(alloc)?))
        } else {
            Ok(None)
        }
    }

    fn is_usable(&self, symbol: &Symbol) -> bool
        ensures { result ≡ has_type (symbol_type (named_of self.now.indexes) (pair_of symbol.now).0) (pair_of symbol.now).1 }
    {
        match self.find(symbol.name.as_slice()) {
            None => false,
            Some(ty) => same(ty, symbol.ty),
        }
    }
}
