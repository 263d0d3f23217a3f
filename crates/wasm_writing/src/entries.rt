// The entries of sections (WebAssembly Core 1.0, 5.5).
ghost use Rattle.std.specs.Prelude.{◌≡◌, ℕ};
ghost use Rattle.wasm_spelling.specs.Fields.{byte};
ghost use Rattle.wasm_spelling.specs.ModuleFields.{import_kind, export_code};
ghost use Rattle.wasm_writing.specs.Drafts.{Puts};

use crate::code::expression;
use crate::draft::Draft;
use crate::types::{func_type, memory_type, mutability, table_type};
use crate::vectors::{Entry, count, name, vector};
use wasm_tree::{
    ElementEntry, Export, ExportKind, FuncEntry, FuncRef, GlobalEntry, Import, ImportKind,
    SegmentEntry, Start, TypeEntry,
};

impl Entry for TypeEntry {
    ghost use Rattle.wasm_spelling.specs.ModuleFields.{type_entry};

    ghost fields = { type_entry };

    fn put(&self, draft: &mut Draft) {
        func_type(&self.ty, draft);
    }
}

/// Puts the kind, and what is imported.
fn imported(kind: ImportKind, draft: &mut Draft)
    ensures { (place : ℕ) → Puts (import_kind kind place) draft.old draft.new }
{
    match kind {
        ImportKind::Func(type_index) => {
            draft.byte(0x00);
            draft.number(type_index);
        }
        ImportKind::Table(limits) => {
            draft.byte(0x01);
            table_type(&limits, draft);
        }
        ImportKind::Memory(limits) => {
            draft.byte(0x02);
            memory_type(&limits, draft);
        }
        ImportKind::Global(ty, mutable) => {
            draft.byte(0x03);
            ty.put(draft);
            mutability(mutable, draft);
        }
    }
}

impl Entry for Import {
    ghost use Rattle.wasm_spelling.specs.ModuleFields.{import_entry};

    ghost fields = { import_entry };

    fn put(&self, draft: &mut Draft) {
        name(&self.module, draft);
        name(&self.field, draft);
        imported(self.kind, draft);
    }
}

impl Entry for FuncEntry {
    ghost use Rattle.wasm_spelling.specs.ModuleFields.{func_entry};

    ghost fields = { func_entry };

    fn put(&self, draft: &mut Draft) {
        draft.number(self.type_index);
    }
}

impl Entry for GlobalEntry {
    ghost use Rattle.wasm_spelling.specs.ModuleFields.{global_entry};

    ghost fields = { global_entry };

    fn put(&self, draft: &mut Draft) {
        self.ty.put(draft);
        mutability(self.mutable, draft);
        expression(&self.code, draft);
    }
}

fn export_kind(kind: ExportKind, draft: &mut Draft)
    ensures { Puts (byte (export_code kind)) draft.old draft.new }
{
    match kind {
        ExportKind::Func => draft.byte(0x00),
        ExportKind::Table => draft.byte(0x01),
        ExportKind::Memory => draft.byte(0x02),
        ExportKind::Global => draft.byte(0x03),
    }
}

impl Entry for Export {
    ghost use Rattle.wasm_spelling.specs.ModuleFields.{export_entry};

    ghost fields = { export_entry };

    fn put(&self, draft: &mut Draft) {
        name(&self.name, draft);
        export_kind(self.kind, draft);
        draft.number(self.index);
    }
}

impl Entry for Start {
    ghost use Rattle.wasm_spelling.specs.ModuleFields.{start_entry};

    ghost fields = { start_entry };

    fn put(&self, draft: &mut Draft) {
        draft.number(self.index);
    }
}

impl Entry for FuncRef {
    ghost use Rattle.wasm_spelling.specs.ModuleFields.{func_ref};

    ghost fields = { func_ref };

    fn put(&self, draft: &mut Draft) {
        draft.number(self.index);
    }
}

impl Entry for ElementEntry {
    ghost use Rattle.wasm_spelling.specs.ModuleFields.{element_entry};

    ghost fields = { element_entry };

    fn put(&self, draft: &mut Draft) {
        draft.number(self.table);
        expression(&self.offset, draft);
        vector(self.funcs.as_slice(), draft);
    }
}

impl Entry for SegmentEntry {
    ghost use Rattle.wasm_spelling.specs.ModuleFields.{segment_entry};

    ghost fields = { segment_entry };

    fn put(&self, draft: &mut Draft) {
        draft.number(self.memory);
        expression(&self.offset, draft);
        count(self.bytes.len(), draft);
        draft.text(self.bytes.as_slice());
    }
}
