// The entries of sections (WebAssembly Core 1.0, 5.5).
ghost use Rattle.std.specs.Prelude.{◌≡◌};
ghost use Rattle.wasm_spelling.specs.Reading.{first_of_results, import_kind_at};
ghost use Rattle.wasm_binary.specs.View.{Gives, at, seen};

use crate::code::expression;
use crate::fields::{counted_bytes, exactly, name, number};
use crate::rest::Rest;
use crate::types::{flag, kind, memory_type, table_type, value_type};
use crate::vectors::{Entry, short_vector, vector};
use std::alloc::Global;
use w2c_base::{FuncType, PARAMETERS, RESULTS, ValType};
use wasm_spelling::{Cause, ReadFault, Which};
use wasm_tree::{
    ElementEntry, Export, ExportKind, FuncEntry, FuncRef, GlobalEntry, Import, ImportKind,
    LimitsEntry, SegmentEntry, TypeEntry,
};

impl Entry for ValType {
    ghost use Rattle.wasm_spelling.specs.Reading.{type_at};

    type Item = ValType;

    ghost reading = { type_at };

    fn read(_alloc: Global, rest: Rest) -> Result<(Self::Item, Rest), ReadFault> {
        value_type(rest)
    }
}

impl Entry for u32 {
    ghost use Rattle.wasm_spelling.specs.Steps.{number_at};

    type Item = u32;

    ghost reading = { number_at };

    fn read(_alloc: Global, rest: Rest) -> Result<(Self::Item, Rest), ReadFault> {
        number(rest)
    }
}

fn first_of(results: &[ValType]) -> Option<ValType>
    ensures { result ≡ first_of_results results.now }
{
    match results {
        [] => None,
        [ty, ..] => Some(*ty),
    }
}

impl Entry for TypeEntry {
    ghost use Rattle.wasm_spelling.specs.Reading.{type_entry_at};

    type Item = TypeEntry;

    ghost reading = { type_entry_at };

    #[tactic(auto, unfolding(wasm_spelling::specs::Steps::reads, wasm_spelling::specs::Reading::type_entry_at, wasm_spelling::specs::Reading::func_type_at, wasm_spelling::specs::Reading::limited_at))]
    fn read(alloc: Global, rest: Rest) -> Result<(Self::Item, Rest), ReadFault> {
        let place = rest.place;
        let rest = exactly(0x60, Cause::BadForm, rest)?;
        let (params, rest) = short_vector::<ValType>(alloc, PARAMETERS, Which::Parameters, rest)?;
        let (results, rest) = short_vector::<ValType>(alloc, RESULTS, Which::Results, rest)?;
        let result = first_of(results.as_slice());
        Ok((
            TypeEntry {
                place,
                ty: FuncType { params, result },
            },
            rest,
        ))
    }
}

/// What stands behind an import's kind.
#[tactic(auto, unfolding(wasm_spelling::specs::Steps::reads, wasm_spelling::specs::Reading::import_kind_at, wasm_spelling::specs::Reading::mutability_at))]
fn imported(kind: ExportKind, rest: Rest) -> Result<(ImportKind, Rest), ReadFault>
    ensures { Gives seen result (import_kind_at kind (at rest.entry)) }
{
    match kind {
        ExportKind::Func => match number(rest) {
            Ok((type_index, rest)) => Ok((ImportKind::Func(type_index), rest)),
            Err(fault) => Err(fault),
        },
        ExportKind::Table => match table_type(rest) {
            Ok((limits, rest)) => Ok((ImportKind::Table(limits), rest)),
            Err(fault) => Err(fault),
        },
        ExportKind::Memory => match memory_type(rest) {
            Ok((limits, rest)) => Ok((ImportKind::Memory(limits), rest)),
            Err(fault) => Err(fault),
        },
        ExportKind::Global => {
            let (ty, rest) = value_type(rest)?;
            let (mutable, rest) = flag(Cause::BadMutability, rest)?;
            Ok((ImportKind::Global(ty, mutable), rest))
        }
    }
}

impl Entry for Import {
    ghost use Rattle.wasm_spelling.specs.Reading.{import_at};

    type Item = Import;

    ghost reading = { import_at };

    #[tactic(auto, unfolding(wasm_spelling::specs::Steps::reads, wasm_spelling::specs::Reading::import_at))]
    fn read(alloc: Global, rest: Rest) -> Result<(Self::Item, Rest), ReadFault> {
        let (module, rest) = name(alloc, rest)?;
        let (field, rest) = name(alloc, rest)?;
        let (code, rest) = kind(rest)?;
        let place = rest.place;
        let (kind, rest) = imported(code, rest)?;
        Ok((
            Import {
                module,
                field,
                kind,
                place,
            },
            rest,
        ))
    }
}

impl Entry for FuncEntry {
    ghost use Rattle.wasm_spelling.specs.Reading.{func_entry_at};

    type Item = FuncEntry;

    ghost reading = { func_entry_at };

    #[tactic(auto, unfolding(wasm_spelling::specs::Steps::reads, wasm_spelling::specs::Reading::func_entry_at))]
    fn read(_alloc: Global, rest: Rest) -> Result<(Self::Item, Rest), ReadFault> {
        let place = rest.place;
        match number(rest) {
            Ok((type_index, rest)) => Ok((FuncEntry { type_index, place }, rest)),
            Err(fault) => Err(fault),
        }
    }
}

/// A table's entry.
pub struct TableEntry;

impl Entry for TableEntry {
    ghost use Rattle.wasm_spelling.specs.Reading.{table_entry_at};

    type Item = LimitsEntry;

    ghost reading = { table_entry_at };

    #[tactic(auto, unfolding(wasm_spelling::specs::Steps::reads, wasm_spelling::specs::Reading::table_entry_at))]
    fn read(_alloc: Global, rest: Rest) -> Result<(Self::Item, Rest), ReadFault> {
        let place = rest.place;
        match table_type(rest) {
            Ok((limits, rest)) => Ok((LimitsEntry { limits, place }, rest)),
            Err(fault) => Err(fault),
        }
    }
}

/// A memory's entry.
pub struct MemoryEntry;

impl Entry for MemoryEntry {
    ghost use Rattle.wasm_spelling.specs.Reading.{memory_entry_at};

    type Item = LimitsEntry;

    ghost reading = { memory_entry_at };

    #[tactic(auto, unfolding(wasm_spelling::specs::Steps::reads, wasm_spelling::specs::Reading::memory_entry_at))]
    fn read(_alloc: Global, rest: Rest) -> Result<(Self::Item, Rest), ReadFault> {
        let place = rest.place;
        match memory_type(rest) {
            Ok((limits, rest)) => Ok((LimitsEntry { limits, place }, rest)),
            Err(fault) => Err(fault),
        }
    }
}

impl Entry for GlobalEntry {
    ghost use Rattle.wasm_spelling.specs.Reading.{global_entry_at};

    type Item = GlobalEntry;

    ghost reading = { global_entry_at };

    #[tactic(auto, unfolding(wasm_spelling::specs::Steps::reads, wasm_spelling::specs::Reading::global_entry_at, wasm_spelling::specs::Reading::mutability_at))]
    fn read(alloc: Global, rest: Rest) -> Result<(Self::Item, Rest), ReadFault> {
        let (ty, rest) = value_type(rest)?;
        let (mutable, rest) = flag(Cause::BadMutability, rest)?;
        let place = rest.place;
        let (code, rest) = expression(alloc, rest)?;
        Ok((
            GlobalEntry {
                ty,
                mutable,
                code,
                place,
            },
            rest,
        ))
    }
}

impl Entry for Export {
    ghost use Rattle.wasm_spelling.specs.Reading.{export_entry_at};

    type Item = Export;

    ghost reading = { export_entry_at };

    #[tactic(auto, unfolding(wasm_spelling::specs::Steps::reads, wasm_spelling::specs::Reading::export_entry_at))]
    fn read(alloc: Global, rest: Rest) -> Result<(Self::Item, Rest), ReadFault> {
        let name_place = rest.place;
        let (name, rest) = name(alloc, rest)?;
        let (kind, rest) = kind(rest)?;
        let index_place = rest.place;
        let (index, rest) = number(rest)?;
        Ok((
            Export {
                name,
                kind,
                index,
                name_place,
                index_place,
            },
            rest,
        ))
    }
}

impl Entry for FuncRef {
    ghost use Rattle.wasm_spelling.specs.Reading.{func_ref_at};

    type Item = FuncRef;

    ghost reading = { func_ref_at };

    #[tactic(auto, unfolding(wasm_spelling::specs::Steps::reads, wasm_spelling::specs::Reading::func_ref_at))]
    fn read(_alloc: Global, rest: Rest) -> Result<(Self::Item, Rest), ReadFault> {
        let place = rest.place;
        match number(rest) {
            Ok((index, rest)) => Ok((FuncRef { index, place }, rest)),
            Err(fault) => Err(fault),
        }
    }
}

impl Entry for ElementEntry {
    ghost use Rattle.wasm_spelling.specs.Reading.{element_entry_at};

    type Item = ElementEntry;

    ghost reading = { element_entry_at };

    #[tactic(auto, unfolding(wasm_spelling::specs::Steps::reads, wasm_spelling::specs::Reading::element_entry_at))]
    fn read(alloc: Global, rest: Rest) -> Result<(Self::Item, Rest), ReadFault> {
        let place = rest.place;
        let (table, rest) = number(rest)?;
        let offset_place = rest.place;
        let (offset, rest) = expression(alloc, rest)?;
        let (funcs, rest) = vector::<FuncRef>(alloc, rest)?;
        Ok((
            ElementEntry {
                table,
                offset,
                funcs,
                place,
                offset_place,
            },
            rest,
        ))
    }
}

impl Entry for SegmentEntry {
    ghost use Rattle.wasm_spelling.specs.Reading.{segment_entry_at};

    type Item = SegmentEntry;

    ghost reading = { segment_entry_at };

    #[tactic(auto, unfolding(wasm_spelling::specs::Steps::reads, wasm_spelling::specs::Reading::segment_entry_at))]
    fn read(alloc: Global, rest: Rest) -> Result<(Self::Item, Rest), ReadFault> {
        let place = rest.place;
        let (memory, rest) = number(rest)?;
        let offset_place = rest.place;
        let (offset, rest) = expression(alloc, rest)?;
        let (bytes, rest) = counted_bytes(alloc, rest)?;
        Ok((
            SegmentEntry {
                memory,
                offset,
                bytes,
                place,
                offset_place,
            },
            rest,
        ))
    }
}
