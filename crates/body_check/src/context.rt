// What stands around a body: the index spaces of its module, its locals and its result.
ghost use Rattle.std.specs.Prelude.{◌≡◌, ◌++◌, map, slice_get, take, IfOk, OnOk};
ghost use Rattle.std.specs.Option.{option_copied};
ghost use Rattle.wasm_tree.specs.IndexSpaces.{declared_locals};
ghost use Rattle.body_check.specs.Seen.{type_seen, AreEmptyOf, HasOneMore, AreSpacesOf};

use std::alloc::Global;
use w2c_base::{FuncType, Memory, ValType};
use wasm_tree::{
    BodyEntry, FuncEntry, GlobalEntry, Import, ImportKind, Limits, LimitsEntry, Module, TypeEntry,
};

/// The index spaces of a module (WebAssembly Core 1.0, 2.5.1), imports first. They are made once, so that an index is
/// looked up without a search.
#[derive(Drop)]
pub struct Spaces<'a> {
    pub types: &'a [TypeEntry],
    /// The index of each function's type.
    pub funcs: Vec<u32>,
    pub tables: Vec<Limits>,
    pub memories: Vec<Limits>,
    /// Each global's type, and whether it is mutable.
    pub globals: Vec<(ValType, bool)>,
    pub imported_globals: usize,
}

impl<'a> Spaces<'a> {
    /// The index spaces of a module.
    pub fn new(alloc: Global, m: &'a Module) -> Result<Spaces<'a>, Memory>
        ensures { IfOk result (λ s. AreSpacesOf s m.now) }
    {
        let mut spaces = Spaces {
            types: m.types.as_slice(),
            funcs: Vec::new(alloc),
            tables: Vec::new(alloc),
            memories: Vec::new(alloc),
            globals: Vec::new(alloc),
            imported_globals: 0,
        };
        spaces.fill(m)?;
        Ok(spaces)
    }

    // What the module imports, and then what it declares.
    fn fill(&mut self, m: &Module) -> Result<(), Memory>
        requires { AreEmptyOf self.old m.now }
        ensures { OnOk result (AreSpacesOf self.new m.now) }
    {
        for import in m.imports.as_slice() {
            self.enter(import)?;
        }
        self.imported_globals = self.globals.len();
        add_funcs(&mut self.funcs, m.funcs.as_slice())?;
        add_limits(&mut self.tables, m.tables.as_slice())?;
        add_limits(&mut self.memories, m.memories.as_slice())?;
        add_globals(&mut self.globals, m.globals.as_slice())?;
        Ok(())
    }

    fn enter(&mut self, import: &Import) -> Result<(), Memory>
        ensures { OnOk result (HasOneMore self.old self.new import.now) }
    {
        match import.kind {
            ImportKind::Func(type_index) => self.funcs.push(type_index)?,
            ImportKind::Table(limits) => self.tables.push(limits)?,
            ImportKind::Memory(limits) => self.memories.push(limits)?,
            ImportKind::Global(ty, mutable) => self.globals.push((ty, mutable))?,
        }
        Ok(())
    }

    /// The type with an index.
    pub fn func_type(&self, type_index: u32) -> Option<&'a FuncType>
        ensures { option_copied result ≡ type_seen self.now type_index }
    {
        match self.types.get(type_index as usize) {
            Some(entry) => Some(&entry.ty),
            None => None,
        }
    }

    /// The index of a function's type.
    pub fn type_index(&self, func: u32) -> Option<u32>
        ensures { result ≡ slice_get self.now.funcs.items func }
    {
        self.funcs.get(func as usize).copied()
    }

    /// A global's type, and whether it is mutable.
    pub fn global(&self, index: u32) -> Option<(ValType, bool)>
        ensures { result ≡ slice_get self.now.globals.items index }
    {
        self.globals.get(index as usize).copied()
    }

    /// The same of a global that is imported.
    pub fn imported_global(&self, index: u32) -> Option<(ValType, bool)>
        ensures { result ≡ slice_get (take self.now.imported_globals self.now.globals.items) index }
    {
        if (index as usize) < self.imported_globals {
            self.global(index)
        } else {
            None
        }
    }
}

fn add_funcs(space: &mut Vec<u32>, funcs: &[FuncEntry]) -> Result<(), Memory>
    ensures { OnOk result (space.new.items ≡ space.old.items ++ map (λ f. f.type_index) funcs.now) }
{
    for func in funcs {
        space.push(func.type_index)?;
    }
    Ok(())
}

fn add_limits(space: &mut Vec<Limits>, entries: &[LimitsEntry]) -> Result<(), Memory>
    ensures { OnOk result (space.new.items ≡ space.old.items ++ map (λ t. t.limits) entries.now) }
{
    for entry in entries {
        space.push(entry.limits)?;
    }
    Ok(())
}

fn add_globals(space: &mut Vec<(ValType, bool)>, globals: &[GlobalEntry]) -> Result<(), Memory>
    ensures { OnOk result (space.new.items ≡ space.old.items ++ map (λ g. (g.ty, g.mutable)) globals.now) }
{
    for global in globals {
        space.push((global.ty, global.mutable))?;
    }
    Ok(())
}

/// The types of the parameters and of the declared locals.
pub(crate) fn locals_of(
    alloc: Global,
    ty: &FuncType,
    body: &BodyEntry,
) -> Result<Vec<ValType>, Memory>
    ensures { IfOk result (λ locals. locals.items ≡ ty.now.params ++ declared_locals body.now.runs) }
{
    let mut locals = Vec::from_slice(alloc, ty.params.as_slice())?;
    for run in body.runs.as_slice() {
        for _ in 0..run.count {
            locals.push(run.ty)?;
        }
    }
    Ok(locals)
}
