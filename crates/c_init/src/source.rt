// What the init function is made of, and what bodies and exports read of their module.
ghost use Rattle.std.specs.Prelude.{◌≡◌, ◌<◌, ◌^◌, length, map, IfOk};
ghost use Rattle.c_symbols.specs.Spaces as index_spaces;
ghost use Rattle.c_symbols.specs.Symbols.{import_symbol, func_imports};
ghost use Rattle.c_symbols.specs.Named.{named_of};
ghost use Rattle.c_symbols.specs.Usable.{AreReached};
ghost use Rattle.c_init.specs.Entries.{entries};
ghost use Rattle.c_init.specs.Init.{parts_of};

use crate::import_symbols::func_symbols;
use c_symbols::{IndexSpaces, Reached, Symbols};
use c_tree::Name;
use std::alloc::Global;
use w2c_base::Memory;
use wasm_tree::Module;
use wasm_typing::ValidModule;

/// A module under its name, with what its bodies read of it, its symbols among that.
pub struct Source<'a> {
    pub alloc: Global,
    pub checked: &'a ValidModule,
    pub tree: &'a Module,
    pub name: &'a [u8],
    pub(crate) spaces: IndexSpaces<'a>,
    /// The symbols of the imported functions.
    pub(crate) func_symbols: Vec<Name>,
    ghost checked_is: { checked.now ≡ tree.now },
    ghost few_entries: { entries tree.now < 2 ^ 32 },
    ghost few_parts: { length (parts_of tree.now) < 2 ^ 62 },
    ghost spaces_are: { index_spaces.named_of spaces ≡ record { name = name.now; tree = tree.now } },
    ghost func_symbols_are: { func_symbols.items ≡ map import_symbol (func_imports tree.now) },
}

// By hand, so that each place which drops it is proved by one call.
impl Drop for Source<'_> {
    fn drop(self) {
        let Source {
            alloc: _,
            checked: _,
            tree: _,
            name: _,
            spaces: _,
            func_symbols: _,
        } = self;
    }
}

impl<'a> Source<'a> {
    ghost use Rattle.c_init.specs.Sources.{module_of};

    /// What is read of a module under its name, for all items of its unit.
    #[tactic(auto, using(c_symbols::proofs::FewParams::few_params_of))]
    pub fn new(alloc: Global, m: &'a ValidModule, name: &'a [u8]) -> Result<Self, Memory>
        ensures { IfOk result (λ source. module_of source ≡ record { name = name.now; tree = m.now }) }
    {
        let tree = m.module();
        let spaces = IndexSpaces::new(alloc, tree, name)?;
        let func_symbols = func_symbols(alloc, spaces.symbols())?;
        Ok(Source {
            alloc,
            checked: m,
            tree,
            name,
            spaces,
            func_symbols,
        })
    }

    /// The module's symbols, with their types in the unit.
    pub fn symbols(&self) -> &Symbols<'a>
        ensures { named_of result.now.indexes ≡ module_of self.now }
    {
        self.spaces.symbols()
    }

    /// The symbols of the module's imports, where they may be used.
    pub fn reached(&self) -> &Reached
        ensures { AreReached result.now (module_of self.now) }
    {
        self.spaces.reached()
    }

    /// How the module's functions, tables, memories and globals are reached by their indexes.
    pub fn spaces(&self) -> &IndexSpaces<'a>
        ensures { index_spaces.named_of result.now ≡ module_of self.now }
    {
        &self.spaces
    }
}
