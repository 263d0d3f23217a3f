// The symbols of a module's imports by their kinds.
ghost use Rattle.std.specs.Prelude.{IfOk, OnOk};
ghost use Rattle.c_symbols.specs.Named.{named_of};
ghost use Rattle.c_symbols.specs.Usable.{AreReached, HasOneMore};

use crate::symbols::Symbols;
use c_tree::Name;
use std::alloc::Global;
use w2c_base::Memory;
use wasm_tree::{Import, ImportKind};

/// The symbols of the imports of each kind, in order, each where its import may be used.
#[derive(Drop)]
pub struct Reached {
    pub funcs: Vec<Option<Name>>,
    pub tables: Vec<Option<Name>>,
    pub memories: Vec<Option<Name>>,
    pub globals: Vec<Option<Name>>,
}

impl Reached {
    /// The symbols of a module's imports.
    pub fn new(alloc: Global, symbols: &Symbols) -> Result<Reached, Memory>
        ensures { IfOk result (λ reached. AreReached reached (named_of symbols.now.indexes)) }
    {
        let mut reached = Reached {
            funcs: Vec::new(alloc),
            tables: Vec::new(alloc),
            memories: Vec::new(alloc),
            globals: Vec::new(alloc),
        };
        let imports = symbols.indexes.tree.imports.as_slice();
        for (place, import) in imports.iter().enumerate() {
            let name = symbols.usable(alloc, symbols.imported(place))?;
            reached.enter(import, name)?;
        }
        Ok(reached)
    }

    fn enter(&mut self, import: &Import, name: Option<Name>) -> Result<(), Memory>
        ensures { OnOk result (HasOneMore self.old self.new import.now name) }
    {
        match import.kind {
            ImportKind::Func(_) => self.funcs.push(name)?,
            ImportKind::Table(_) => self.tables.push(name)?,
            ImportKind::Memory(_) => self.memories.push(name)?,
            ImportKind::Global(_, _) => self.globals.push(name)?,
        }
        Ok(())
    }
}
