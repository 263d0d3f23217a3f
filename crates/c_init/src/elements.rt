// The init function writes the elements of tables.
ghost use Rattle.std.specs.Prelude.{◌≡◌, ◌++◌, ◌∷◌, [], flat_map, map, OnOk, IfOk};
ghost use Rattle.wasm_tree.specs.IndexSpaces.{func_type_in};
ghost use Rattle.c_tree.specs.Tree as tree;
ghost use Rattle.c_tree.specs.View.{arg_of, stmt_of};
ghost use Rattle.c_symbols.specs.Objects as objects;
ghost use Rattle.c_init.specs.Init as of;

use crate::source::Source;
use c_symbols::func_name;
use c_tree::{Arg, Args, Name, Primitive, Stmt, Stmts, call_primitive, n64, one_arg};
use w2c_base::{Memory, sig_number};
use wasm_tree::{Code, ElementEntry};

impl<'a> Source<'a> {
    fn function_name(&self, index: u32) -> Result<Name, Memory>
        ensures { IfOk result (λ name. name ≡ objects.function_name self.now.tree.now index) }
    {
        match self.func_symbols.get(index as usize) {
            None => func_name(self.alloc, index),
            Some(symbol) => symbol.copy(self.alloc),
        }
    }

    fn signature(&self, func: u32) -> u64
        ensures { result ≡ of.signature (func_type_in self.now.tree.now func) }
    {
        match self.symbols().indexes().func_type(func) {
            None => 1,
            Some(ty) => sig_number(ty),
        }
    }

    // A function, and the number of its signature, as arguments.
    fn put_function(&self, args: &mut Args, func: u32) -> Result<(), Memory>
        ensures { OnOk result (map arg_of args.new ≡ (map arg_of args.old ++ tree.OfFunction (objects.function_name self.now.tree.now func) ∷ []) ++ tree.Value (of.n64 (of.signature (func_type_in self.now.tree.now func))) ∷ []) }
    {
        args.push(Arg::Function(self.function_name(func)?))?;
        args.push(Arg::Value(n64(self.signature(func))))
    }

    /// The function with an index, written at a number of a segment with this offset.
    pub(crate) fn element(&self, offset: &Code, number: usize, func: u32) -> Result<Stmt, Memory>
        ensures { IfOk result (λ s. stmt_of s ≡ of.write_element self.now.tree.now offset.now number func) }
    {
        let alloc = self.alloc;
        let mut args = one_arg(alloc, self.spaces.table_arg(alloc)?)?;
        args.push(Arg::Value(self.place(offset, number as u64)?))?;
        self.put_function(&mut args, func)?;
        call_primitive(alloc, None, Primitive::TabSet, args)
    }

    fn put_segment(&self, stmts: &mut Stmts, segment: &ElementEntry) -> Result<(), Memory>
        ensures { OnOk result (map stmt_of stmts.new ≡ map stmt_of stmts.old ++ of.write_elements self.now.tree.now segment.now) }
    {
        let mut number = 0usize;
        for func in segment.funcs.as_slice() {
            stmts.push(self.element(&segment.offset, number, func.index)?)?;
            number += 1;
        }
        Ok(())
    }

    /// The elements of all segments.
    pub(crate) fn put_elements(&self, stmts: &mut Stmts) -> Result<(), Memory>
        ensures { OnOk result (map stmt_of stmts.new ≡ map stmt_of stmts.old ++ flat_map (of.write_elements self.now.tree.now) self.now.tree.now.elements) }
    {
        for segment in self.tree.elements.as_slice() {
            self.put_segment(stmts, segment)?;
        }
        Ok(())
    }
}
