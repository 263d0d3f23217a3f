// The index spaces of a module under its name.
ghost use Rattle.std.specs.Prelude.{◌≡◌, IfOk};
ghost use Rattle.std.specs.Option.{option_copied};
ghost use Rattle.wasm_tree.specs.IndexSpaces.{func_space, global_space};

use crate::types::{SymbolType, accessor, func_symbol, global_kind, pointer_type};
use c_tree::{CType, Name};
use std::alloc::Global;
use w2c_base::{FuncType, Memory, ValType};
use w2c_mangle::{SymbolKind, export_symbol};
use wasm_tree::{Export, ExportKind, Import, ImportKind, Module};

/// A module's functions, by the indexes of their types, and its globals, by their types and whether
/// they are mutable, imports first. Made once, so that an index is looked up without a walk over the
/// imports (WebAssembly Core 1.0, 2.5.1 indices).
#[derive(Drop)]
pub struct Indexes<'a> {
    pub(crate) tree: &'a Module,
    pub(crate) name: &'a [u8],
    funcs: Vec<u32>,
    globals: Vec<(ValType, bool)>,
    ghost funcs_are: { funcs.items ≡ func_space tree.now },
    ghost globals_are: { globals.items ≡ global_space tree.now },
}

/// A symbol with the type of its function.
#[derive(Drop)]
pub struct Symbol<'a> {
    pub name: Name,
    pub ty: SymbolType<'a>,
}

impl<'a> Symbol<'a> {
    ghost use Rattle.c_symbols.specs.Named.{pair_of};

    /// The same symbol again. Its one error is want of memory.
    pub fn copy(&self, alloc: Global) -> Result<Symbol<'a>, Memory>
        ensures { IfOk result (λ s. pair_of s ≡ pair_of self.now) }
    {
        let name = self.name.copy(alloc)?;
        Ok(Symbol { name, ty: self.ty })
    }
}

// The index of each function's type.
fn func_indexes(alloc: Global, m: &Module) -> Result<Vec<u32>, Memory>
    ensures { IfOk result (λ space. space.items ≡ func_space m.now) }
{
    let mut space: Vec<u32> = Vec::new(alloc);
    for import in m.imports.as_slice() {
        if let ImportKind::Func(type_index) = import.kind {
            space.push(type_index)?;
        }
    }
    for func in m.funcs.as_slice() {
        space.push(func.type_index)?;
    }
    Ok(space)
}

// The type of each global, and whether it is mutable.
fn global_types(alloc: Global, m: &Module) -> Result<Vec<(ValType, bool)>, Memory>
    ensures { IfOk result (λ space. space.items ≡ global_space m.now) }
{
    let mut space: Vec<(ValType, bool)> = Vec::new(alloc);
    for import in m.imports.as_slice() {
        if let ImportKind::Global(ty, mutable) = import.kind {
            space.push((ty, mutable))?;
        }
    }
    for global in m.globals.as_slice() {
        space.push((global.ty, global.mutable))?;
    }
    Ok(space)
}

impl<'a> Indexes<'a> {
    ghost use Rattle.wasm_tree.specs.IndexSpaces.{type_in, func_type_in, global_type_in};
    ghost use Rattle.c_symbols.specs.Symbols as of;
    ghost use Rattle.c_symbols.specs.Named.{named_of, pair_of};

    /// The index spaces of a module under a name.
    pub fn new(alloc: Global, tree: &'a Module, name: &'a [u8]) -> Result<Self, Memory>
        ensures { IfOk result (λ indexes. named_of indexes ≡ record { name = name.now; tree = tree.now }) }
    {
        Ok(Indexes {
            tree,
            name,
            funcs: func_indexes(alloc, tree)?,
            globals: global_types(alloc, tree)?,
        })
    }

    /// The module.
    pub fn tree(&self) -> &'a Module
        ensures { result.now ≡ self.now.tree.now }
    {
        self.tree
    }

    /// Its name.
    pub fn name(&self) -> &'a [u8]
        ensures { result.now ≡ self.now.name.now }
    {
        self.name
    }

    /// The type with an index. None where the index is out of range.
    pub fn ty(&self, type_index: u32) -> Option<&'a FuncType>
        ensures { option_copied result ≡ type_in self.now.tree.now type_index }
    {
        match self.tree.types.as_slice().get(type_index as usize) {
            Some(entry) => Some(&entry.ty),
            None => None,
        }
    }

    /// The type of the function with an index. None where the index, or that of its type, is out of range.
    pub fn func_type(&self, index: u32) -> Option<&'a FuncType>
        ensures { option_copied result ≡ func_type_in self.now.tree.now index }
    {
        match self.funcs.get(index as usize) {
            Some(type_index) => self.ty(*type_index),
            None => None,
        }
    }

    /// The type of the global with an index, and whether it is mutable. None where the index is out of range.
    pub fn global_type(&self, index: u32) -> Option<(ValType, bool)>
        ensures { result ≡ global_type_in self.now.tree.now index }
    {
        self.globals.get(index as usize).copied()
    }

    /// The symbol of an import, with the import's own type.
    pub(crate) fn import(&self, alloc: Global, import: &Import) -> Result<Symbol<'a>, Memory>
        ensures { IfOk result (λ s. pair_of s ≡ (of.import_symbol import.now, of.import_type self.now.tree.now import.now)) }
    {
        let (kind, ty) = match import.kind {
            ImportKind::Func(index) => (SymbolKind::Func, func_symbol(self.ty(index))),
            ImportKind::Table(_) => (SymbolKind::Table, accessor(CType::PtrTab)),
            ImportKind::Memory(_) => (SymbolKind::Memory, accessor(CType::PtrMem)),
            ImportKind::Global(ty, mutable) => (global_kind(mutable), accessor(pointer_type(ty))),
        };
        let symbol = export_symbol(
            alloc,
            import.module.as_slice(),
            kind,
            import.field.as_slice(),
        )?;
        let name = Name::from_bytes(alloc, symbol)?;
        Ok(Symbol { name, ty })
    }

    /// The symbol of an export, with its type.
    pub fn export(&self, alloc: Global, export: &Export) -> Result<Symbol<'a>, Memory>
        ensures { IfOk result (λ s. pair_of s ≡ (of.export_symbol (named_of self.now) export.now, of.export_type self.now.tree.now export.now)) }
    {
        let (kind, ty) = match export.kind {
            ExportKind::Func => (SymbolKind::Func, func_symbol(self.func_type(export.index))),
            ExportKind::Table => (SymbolKind::Table, accessor(CType::PtrTab)),
            ExportKind::Memory => (SymbolKind::Memory, accessor(CType::PtrMem)),
            ExportKind::Global => match self.global_type(export.index) {
                None => (SymbolKind::Const, accessor(CType::PtrU32)),
                Some((ty, mutable)) => (global_kind(mutable), accessor(pointer_type(ty))),
            },
        };
        let symbol = export_symbol(alloc, self.name, kind, export.name.as_slice())?;
        let name = Name::from_bytes(alloc, symbol)?;
        Ok(Symbol { name, ty })
    }
}
