// A module as a tree (WebAssembly Core 1.0, 2.5), and the types of what its indexes name.
ghost use Rattle.std.specs.Prelude.{◌≡◌};
ghost use Rattle.std.specs.Option.{option_copied};

use crate::{
    BodyEntries, DataCount, ElementEntries, Exports, FuncEntries, GlobalEntries, ImportKind,
    Imports, LimitsEntries, SegmentEntries, Start, TypeEntries,
};
use w2c_base::{FuncType, ValType};

/// A module: the entries of its sections in binary order. Function entries and bodies belong together
/// by their order.
#[derive(Drop)]
pub struct Module {
    pub types: TypeEntries,
    pub imports: Imports,
    pub funcs: FuncEntries,
    pub tables: LimitsEntries,
    pub memories: LimitsEntries,
    pub globals: GlobalEntries,
    pub exports: Exports,
    pub start: Option<Start>,
    pub elements: ElementEntries,
    pub data_count: Option<DataCount>,
    pub segments: SegmentEntries,
    pub bodies: BodyEntries,
}

impl Module {
    ghost use Rattle.std.specs.Prelude.{◌-◌, ◌^◌, min, slice_get};
    ghost use Rattle.wasm_tree.specs.IndexSpaces.{func_space, func_type_in, global_type_in, imported_funcs, imported_globals};

    /// The type of a function by its index, imports first. None where the index, or that of its type,
    /// is out of range.
    pub fn func_type(&self, index: u32) -> Option<&FuncType>
        ensures { option_copied result ≡ func_type_in self.now index }
    {
        let type_index = self.type_index(index)?;
        match self.types.as_slice().get(type_index as usize) {
            Some(entry) => Some(&entry.ty),
            None => None,
        }
    }

    // The index of a function's type.
    fn type_index(&self, index: u32) -> Option<u32>
        ensures { result ≡ slice_get (func_space self.now) index }
    {
        let mut left = index as usize;
        for import in self.imports.as_slice() {
            if let ImportKind::Func(type_index) = import.kind {
                if left == 0 {
                    return Some(type_index);
                }
                left -= 1;
            }
        }
        match self.funcs.as_slice().get(left) {
            Some(func) => Some(func.type_index),
            None => None,
        }
    }

    /// A global's type by its index, imports first, and whether it is mutable. None where the index is
    /// out of range.
    pub fn global_type(&self, index: u32) -> Option<(ValType, bool)>
        ensures { result ≡ global_type_in self.now index }
    {
        let mut left = index as usize;
        for import in self.imports.as_slice() {
            if let ImportKind::Global(ty, mutable) = import.kind {
                if left == 0 {
                    return Some((ty, mutable));
                }
                left -= 1;
            }
        }
        match self.globals.as_slice().get(left) {
            Some(global) => Some((global.ty, global.mutable)),
            None => None,
        }
    }

    /// How many functions are imported, or the greatest u32 where there are more.
    pub fn imported_funcs(&self) -> u32
        ensures { result ≡ min (imported_funcs self.now) (2 ^ 32 - 1) }
    {
        let mut count = 0u32;
        for import in self.imports.as_slice() {
            if let ImportKind::Func(_) = import.kind {
                count = count.saturating_add(1);
            }
        }
        count
    }

    /// How many globals are imported, or the greatest u32 where there are more.
    pub fn imported_globals(&self) -> u32
        ensures { result ≡ min (imported_globals self.now) (2 ^ 32 - 1) }
    {
        let mut count = 0u32;
        for import in self.imports.as_slice() {
            if let ImportKind::Global(_, _) = import.kind {
                count = count.saturating_add(1);
            }
        }
        count
    }
}
