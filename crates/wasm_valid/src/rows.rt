// The faults of a module outside its bodies (WebAssembly Core 1.0, 3.2 and 3.4), row by row of the table of causes.
ghost use Rattle.std.specs.Prelude.{◌≡◌, [], flat_map, is_none, OnOk};
ghost use Rattle.wasm_tree.specs.declared.tree.Module.{Module as Tree};
ghost use Rattle.wasm_tree.specs.IndexSpaces.{type_in, table_space, memory_space, func_space};
ghost use Rattle.wasm_typing.specs.declared.fault.ValidCause.TheVariants as causes;
ghost use Rattle.wasm_typing.specs.ModuleFaults.{fault_if, is_out, is_no_first, module_faults, unknown_import_type, too_many, min_above_max, too_many_pages, unknown_export, duplicate_exports, start_faults, unknown_elements};
ghost use Rattle.body_check.specs.Seen.{type_seen, AreSpacesOf};
ghost use Rattle.wasm_valid.specs.Entered.{entered};

use crate::expressions::{ExpressionRow, enter_expressions};
use crate::first::FirstFault;
use body_check::Spaces;
use std::alloc::Global;
use std::collections::BTreeSet;
use w2c_base::Memory;
use wasm_tree::{ElementEntry, Export, ExportKind, Import, ImportKind, Limits, Module};
use wasm_typing::ValidCause;

/// The most pages that a memory's maximum names.
const MOST_PAGES: u32 = 65_536;

/// Enters all faults outside the bodies.
pub(crate) fn enter_module_faults(
    alloc: Global,
    m: &Module,
    spaces: &Spaces,
    first: &mut FirstFault,
) -> Result<(), Memory>
    requires { AreSpacesOf spaces.now m.now }
    ensures { OnOk result (first.new.found ≡ entered first.old.found (module_faults m.now)) }
{
    enter_import_types(m, spaces, first);
    enter_func_types(m, spaces, first);
    let tables = spaces.tables.as_slice();
    let memories = spaces.memories.as_slice();
    enter_too_many(ValidCause::TooManyTables, tables, first);
    enter_too_many(ValidCause::TooManyMemories, memories, first);
    enter_min_above_max(tables, first);
    enter_min_above_max(memories, first);
    enter_too_many_pages(memories, first);
    enter_expressions(m, spaces, ExpressionRow::ConstantExpected, first);
    enter_expressions(m, spaces, ExpressionRow::UnknownGlobal, first);
    enter_expressions(m, spaces, ExpressionRow::TypeMismatch, first);
    enter_unknown_exports(m, spaces, first);
    enter_duplicate_exports(alloc, m.exports.as_slice(), first)?;
    enter_start(m, spaces, first);
    enter_unknown_tables(m, spaces, first);
    enter_unknown_memories(m, spaces, first);
    enter_unknown_elements(m, spaces, first);
    Ok(())
}

#[tactic(auto, using(crate::proofs::Entered::entered_step))]
fn enter_import_types(m: &Module, spaces: &Spaces, first: &mut FirstFault)
    requires { AreSpacesOf spaces.now m.now }
    ensures { first.new.found ≡ entered first.old.found (flat_map (unknown_import_type m.now) m.now.imports) }
{
    for import in m.imports.as_slice() {
        enter_import_type(import, spaces, first);
    }
}

#[tactic(auto, using(crate::proofs::Entered::entered_step))]
fn enter_func_types(m: &Module, spaces: &Spaces, first: &mut FirstFault)
    requires { AreSpacesOf spaces.now m.now }
    ensures { first.new.found ≡ entered first.old.found
        (flat_map (λ f. fault_if (is_none (type_in m.now f.type_index)) f.place causes.UnknownType) m.now.funcs) }
{
    for func in m.funcs.as_slice() {
        let unknown = is_unknown_type(spaces, func.type_index);
        first.enter_if(unknown, func.place, ValidCause::UnknownType);
    }
}

fn is_unknown_type(spaces: &Spaces, type_index: u32) -> bool
    ensures { result ≡ is_none (type_seen spaces.now type_index) }
{
    spaces.func_type(type_index).is_none()
}

fn enter_import_type(import: &Import, spaces: &Spaces, first: &mut FirstFault)
    ensures { (m : Tree) → AreSpacesOf spaces.now m
        → first.new.found ≡ entered first.old.found (unknown_import_type m import.now) }
{
    if let ImportKind::Func(type_index) = import.kind {
        let unknown = is_unknown_type(spaces, type_index);
        first.enter_if(unknown, import.place, ValidCause::UnknownType);
    }
}

fn enter_too_many(cause: ValidCause, limits: &[Limits], first: &mut FirstFault)
    ensures { first.new.found ≡ entered first.old.found (too_many cause limits.now) }
{
    if let [_, second, ..] = limits {
        first.enter(second.place, cause);
    }
}

#[tactic(auto, using(crate::proofs::Entered::entered_step))]
fn enter_min_above_max(all: &[Limits], first: &mut FirstFault)
    ensures { first.new.found ≡ entered first.old.found (flat_map min_above_max all.now) }
{
    for limits in all {
        enter_min_above(limits, first);
    }
}

fn enter_min_above(limits: &Limits, first: &mut FirstFault)
    ensures { first.new.found ≡ entered first.old.found (min_above_max limits.now) }
{
    if let Some(max) = limits.max {
        first.enter_if(max < limits.min, limits.place, ValidCause::MinAboveMax);
    }
}

#[tactic(auto, using(crate::proofs::Entered::entered_step))]
fn enter_too_many_pages(memories: &[Limits], first: &mut FirstFault)
    ensures { first.new.found ≡ entered first.old.found (flat_map too_many_pages memories.now) }
{
    for limits in memories {
        enter_pages(limits, first);
    }
}

fn enter_pages(limits: &Limits, first: &mut FirstFault)
    ensures { first.new.found ≡ entered first.old.found (too_many_pages limits.now) }
{
    if let Some(max) = limits.max {
        first.enter_if(MOST_PAGES < max, limits.place, ValidCause::TooManyPages);
    }
}

#[tactic(auto, using(crate::proofs::Entered::entered_step))]
fn enter_unknown_exports(m: &Module, spaces: &Spaces, first: &mut FirstFault)
    requires { AreSpacesOf spaces.now m.now }
    ensures { first.new.found ≡ entered first.old.found (flat_map (unknown_export m.now) m.now.exports) }
{
    for export in m.exports.as_slice() {
        enter_unknown_export(export, spaces, first);
    }
}

fn enter_unknown_export(export: &Export, spaces: &Spaces, first: &mut FirstFault)
    ensures { (m : Tree) → AreSpacesOf spaces.now m
        → first.new.found ≡ entered first.old.found (unknown_export m export.now) }
{
    let index = export.index;
    let place = export.index_place;
    match export.kind {
        ExportKind::Func => {
            let unknown = spaces.type_index(index).is_none();
            first.enter_if(unknown, place, ValidCause::UnknownFunction);
        }
        ExportKind::Table => {
            let unknown = spaces.tables.get(index as usize).is_none();
            first.enter_if(unknown, place, ValidCause::UnknownTable);
        }
        ExportKind::Memory => {
            let unknown = spaces.memories.get(index as usize).is_none();
            first.enter_if(unknown, place, ValidCause::UnknownMemory);
        }
        ExportKind::Global => {
            let unknown = spaces.global(index).is_none();
            first.enter_if(unknown, place, ValidCause::UnknownGlobal);
        }
    }
}

// The names so far are kept in an ordered set.
fn enter_duplicate_exports(
    alloc: Global,
    exports: &[Export],
    first: &mut FirstFault,
) -> Result<(), Memory>
    ensures { OnOk result (first.new.found ≡ entered first.old.found (duplicate_exports [] exports.now)) }
{
    let mut names: BTreeSet<&[u8]> = BTreeSet::new(alloc);
    for export in exports {
        let is_new = names.insert(export.name.as_slice())?;
        first.enter_if(!is_new, export.name_place, ValidCause::DuplicateExport);
    }
    Ok(())
}

fn enter_start(m: &Module, spaces: &Spaces, first: &mut FirstFault)
    requires { AreSpacesOf spaces.now m.now }
    ensures { first.new.found ≡ entered first.old.found (start_faults m.now m.now.start) }
{
    let Some(start) = m.start else {
        return;
    };
    let Some(type_index) = spaces.type_index(start.index) else {
        first.enter(start.place, ValidCause::UnknownFunction);
        return;
    };
    if let Some(ty) = spaces.func_type(type_index) {
        let other = ty.params.len() != 0 || ty.result.is_some();
        first.enter_if(other, start.place, ValidCause::StartType);
    }
}

#[tactic(auto, using(crate::proofs::Entered::entered_step))]
fn enter_unknown_tables(m: &Module, spaces: &Spaces, first: &mut FirstFault)
    requires { AreSpacesOf spaces.now m.now }
    ensures { first.new.found ≡ entered first.old.found
        (flat_map (λ e. fault_if (is_no_first (table_space m.now) e.table) e.place causes.UnknownTable) m.now.elements) }
{
    let tables = spaces.tables.as_slice();
    for element in m.elements.as_slice() {
        let unknown = is_no_first(tables, element.table);
        first.enter_if(unknown, element.place, ValidCause::UnknownTable);
    }
}

#[tactic(auto, using(crate::proofs::Entered::entered_step))]
fn enter_unknown_memories(m: &Module, spaces: &Spaces, first: &mut FirstFault)
    requires { AreSpacesOf spaces.now m.now }
    ensures { first.new.found ≡ entered first.old.found
        (flat_map (λ s. fault_if (is_no_first (memory_space m.now) s.memory) s.place causes.UnknownMemory) m.now.segments) }
{
    let memories = spaces.memories.as_slice();
    for segment in m.segments.as_slice() {
        let unknown = is_no_first(memories, segment.memory);
        first.enter_if(unknown, segment.place, ValidCause::UnknownMemory);
    }
}

fn is_no_first(space: &[Limits], index: u32) -> bool
    ensures { result ≡ is_no_first space.now index }
{
    index != 0 || space.is_empty()
}

#[tactic(auto, using(crate::proofs::Entered::entered_step))]
fn enter_unknown_elements(m: &Module, spaces: &Spaces, first: &mut FirstFault)
    requires { AreSpacesOf spaces.now m.now }
    ensures { first.new.found ≡ entered first.old.found (unknown_elements m.now) }
{
    for element in m.elements.as_slice() {
        enter_unknown_funcs(element, spaces, first);
    }
}

#[tactic(auto, using(crate::proofs::Entered::entered_step))]
fn enter_unknown_funcs(element: &ElementEntry, spaces: &Spaces, first: &mut FirstFault)
    ensures { (m : Tree) → AreSpacesOf spaces.now m → first.new.found ≡ entered first.old.found
        (flat_map (λ f. fault_if (is_out (func_space m) f.index) f.place causes.UnknownFunction) element.now.funcs) }
{
    for func in element.funcs.as_slice() {
        let unknown = spaces.type_index(func.index).is_none();
        first.enter_if(unknown, func.place, ValidCause::UnknownFunction);
    }
}
