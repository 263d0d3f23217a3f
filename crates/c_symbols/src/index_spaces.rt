// What is read of a module's index spaces to translate what it defines, made once.
ghost use Rattle.std.specs.Prelude.{◌≡◌, map, slice_get, is_some, option_map, IfOk, ◌<◌, ◌-◌};
ghost use Rattle.std.specs.Option.{option_copied};
ghost use Rattle.w2c_base.specs.Lookup.{at_index};
ghost use Rattle.wasm_tree.specs.IndexSpaces.{func_space, global_space, type_in, imported_funcs as imported_func_count, at_defined};
ghost use Rattle.c_tree.specs.View.{arg_of, expr_of, stmt_of};
ghost use Rattle.c_symbols.specs.Objects as objects;
ghost use Rattle.c_symbols.specs.Symbols.{global_imports, memory_imports, table_imports, func_imports};
ghost use Rattle.c_symbols.specs.Reached.{usable_symbol};
ghost use Rattle.c_symbols.specs.Named.{named_of as symbols_of};
ghost use Rattle.c_symbols.specs.Usable.{AreReached};
ghost use Rattle.c_symbols.specs.FewParams.{HaveFewParams};

use crate::own_names::{
    MEMORY_NAME, TABLE_NAME, func_name, global_name, pointer_name, pointer_to_global,
};
use crate::reached::Reached;
use crate::symbols::Symbols;
use c_tree::{Arg, Expr, Name, Stmt, copy_name, name_of};
use std::alloc::Global;
use w2c_base::{FuncType, Memory, ValType};
use wasm_tree::{BodyEntry, FuncEntry, Module};

/// The index spaces of a module under its name, and how its functions, globals, memory and table are reached from C,
/// so that nothing is searched for at an instruction.
#[derive(Drop)]
pub struct IndexSpaces<'a> {
    pub(crate) tree: &'a Module,
    pub(crate) name: &'a [u8],
    symbols: Symbols<'a>,
    reached: Reached,
    ghost few_params: { HaveFewParams tree.now },
    ghost tree_is: { symbols.indexes.tree.now ≡ tree.now },
    ghost name_is: { symbols.indexes.name.now ≡ name.now },
    ghost funcs_are: { reached.funcs.items ≡ map (usable_symbol (record { name = name.now; tree = tree.now })) (func_imports tree.now) },
    ghost tables_are: { reached.tables.items ≡ map (usable_symbol (record { name = name.now; tree = tree.now })) (table_imports tree.now) },
    ghost memories_are: { reached.memories.items ≡ map (usable_symbol (record { name = name.now; tree = tree.now })) (memory_imports tree.now) },
    ghost globals_are: { reached.globals.items ≡ map (usable_symbol (record { name = name.now; tree = tree.now })) (global_imports tree.now) },
}

impl<'a> IndexSpaces<'a> {
    ghost use Rattle.c_symbols.specs.Spaces.{named_of};

    /// What is read of a module under its name.
    pub fn new(alloc: Global, m: &'a Module, name: &'a [u8]) -> Result<IndexSpaces<'a>, Memory>
        requires { HaveFewParams m.now }
        ensures { IfOk result (λ s. named_of s ≡ record { name = name.now; tree = m.now }) }
    {
        let symbols = Symbols::new(alloc, m, name)?;
        let reached = Reached::new(alloc, &symbols)?;
        Ok(IndexSpaces {
            tree: m,
            name,
            symbols,
            reached,
        })
    }

    /// The symbols of the module, with their types in its unit.
    pub fn symbols(&self) -> &Symbols<'a>
        ensures { symbols_of result.now.indexes ≡ named_of self.now }
    {
        &self.symbols
    }

    /// The symbols of the imports, where they may be used.
    pub fn reached(&self) -> &Reached
        ensures { AreReached result.now (named_of self.now) }
    {
        &self.reached
    }

    /// How many functions are imported.
    #[tactic(auto, using(crate::proofs::LookedUp::as_many))]
    pub fn imported_funcs(&self) -> usize
        ensures { result ≡ imported_func_count self.now.tree.now }
    {
        self.reached.funcs.len()
    }

    /// The type with an index.
    #[tactic(auto, using(crate::proofs::LookedUp::type_found))]
    pub fn ty(&self, type_index: u32) -> Option<&'a FuncType>
        ensures { option_copied result ≡ slice_get (map (λ t. t.ty) self.now.tree.now.types) type_index }
    {
        self.symbols.indexes().ty(type_index)
    }

    /// The type of the function with an index.
    #[tactic(auto, using(crate::proofs::LookedUp::at_index_map))]
    pub fn func_type(&self, index: u32) -> Option<&'a FuncType>
        ensures { option_copied result ≡ at_index (map (type_in self.now.tree.now) (func_space self.now.tree.now)) index }
    {
        self.symbols.indexes().func_type(index)
    }

    /// The type of the global with an index.
    pub fn global_type(&self, index: u32) -> Option<ValType>
        ensures { result ≡ option_map (λ g. g.0) (slice_get (global_space self.now.tree.now) index) }
    {
        match self.symbols.indexes().global_type(index) {
            Some((ty, _)) => Some(ty),
            None => None,
        }
    }

    /// The name of the function with an index, where it may be called.
    #[tactic(auto, using(crate::proofs::LookedUp::callee_imported, crate::proofs::LookedUp::callee_own))]
    pub fn callee(&self, alloc: Global, index: u32) -> Result<Option<Name>, Memory>
        ensures { IfOk result (λ name. name ≡ objects.callee (named_of self.now) index) }
    {
        match self.reached.funcs.get(index as usize) {
            None => Ok(Some(func_name(alloc, index)?)),
            Some(name) => copy_name(alloc, name),
        }
    }

    #[tactic(auto, using(crate::proofs::LookedUp::reached_within, crate::proofs::LookedUp::reached_past))]
    fn imports_memory(&self) -> bool
        ensures { result ≡ is_some (slice_get (memory_imports self.now.tree.now) 0) }
    {
        0 < self.reached.memories.len()
    }

    #[tactic(auto, using(crate::proofs::LookedUp::reached_within, crate::proofs::LookedUp::reached_past))]
    fn imports_table(&self) -> bool
        ensures { result ≡ is_some (slice_get (table_imports self.now.tree.now) 0) }
    {
        0 < self.reached.tables.len()
    }

    /// A pointer to the memory.
    pub fn memory_arg(&self, alloc: Global) -> Result<Arg, Memory>
        ensures { IfOk result (λ a. arg_of a ≡ objects.memory_arg self.now.tree.now) }
    {
        if self.imports_memory() {
            Ok(Arg::Value(Expr::Name(pointer_name(alloc, MEMORY_NAME)?)))
        } else {
            Ok(Arg::Address(name_of(alloc, MEMORY_NAME)?))
        }
    }

    /// A pointer to the table.
    pub fn table_arg(&self, alloc: Global) -> Result<Arg, Memory>
        ensures { IfOk result (λ a. arg_of a ≡ objects.table_arg self.now.tree.now) }
    {
        if self.imports_table() {
            Ok(Arg::Value(Expr::Name(pointer_name(alloc, TABLE_NAME)?)))
        } else {
            Ok(Arg::Address(name_of(alloc, TABLE_NAME)?))
        }
    }

    #[tactic(auto, using(crate::proofs::LookedUp::reached_within, crate::proofs::LookedUp::reached_past))]
    fn is_imported_global(&self, index: u32) -> bool
        ensures { result ≡ is_some (slice_get (global_imports self.now.tree.now) index) }
    {
        (index as usize) < self.reached.globals.len()
    }

    /// The value of a global.
    pub fn global_value(&self, alloc: Global, index: u32) -> Result<Expr, Memory>
        ensures { IfOk result (λ e. expr_of e ≡ objects.global_value self.now.tree.now index) }
    {
        if self.is_imported_global(index) {
            Ok(Expr::Star(pointer_to_global(alloc, index as usize)?))
        } else {
            Ok(Expr::Name(global_name(alloc, index as usize)?))
        }
    }

    /// An assignment of an expression to a global.
    pub fn set_global(&self, alloc: Global, index: u32, value: Expr) -> Result<Stmt, Memory>
        ensures { IfOk result (λ s. stmt_of s ≡ objects.set_global self.now.tree.now index (expr_of value)) }
    {
        if self.is_imported_global(index) {
            let target = pointer_to_global(alloc, index as usize)?;
            Ok(Stmt::SetStar(target, value))
        } else {
            let target = global_name(alloc, index as usize)?;
            Ok(Stmt::Set(target, Arg::Value(value)))
        }
    }

    /// The declaration of the function that the module defines with an index.
    pub fn func_at(&self, index: u32) -> Option<&'a FuncEntry>
        ensures { option_copied result ≡ at_defined self.now.tree.now self.now.tree.now.funcs index }
    {
        self.at_defined(self.tree.funcs.as_slice(), index)
    }

    /// Its body.
    pub fn body_at(&self, index: u32) -> Option<&'a BodyEntry>
        ensures { option_copied result ≡ at_defined self.now.tree.now self.now.tree.now.bodies index }
    {
        self.at_defined(self.tree.bodies.as_slice(), index)
    }

    // What a list has for the function that the module defines with an index.
    fn at_defined<T>(&self, list: &'a [T], index: u32) -> Option<&'a T>
        ensures { option_copied result ≡ at_defined self.now.tree.now list.now index }
    {
        let index = index as usize;
        let imported = self.imported_funcs();
        if index < imported {
            None
        } else {
            list.get(index - imported)
        }
    }
}
