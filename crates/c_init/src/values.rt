// The init function makes what the module defines: tables, memories and globals.
ghost use Rattle.std.specs.Prelude.{◌≡◌, ◌<◌, ◌≤◌, option_map, ◌+◌, length, None, ◌++◌, ◌∷◌, [], map, IfOk, OnOk};
ghost use Rattle.c_tree.specs.Tree as tree;
ghost use Rattle.c_tree.specs.View.{expr_of, stmt_of};
ghost use Rattle.c_tree.specs.Primitives.{primitive_name};
ghost use Rattle.c_tree.specs.DefinedNames.{global_name as global_name_of};
ghost use Rattle.wasm_tree.specs.IndexSpaces.{imported_globals};
ghost use Rattle.std.specs.Option.{option_copied};
ghost use Rattle.wasm_tree.specs.Views.{kind_tree};
ghost use Rattle.c_init.specs.Init as of;
ghost use Rattle.c_init.specs.Portions.{numbered_from};
ghost use Rattle.c_init.specs.Single.{single_of};

use crate::source::Source;
use crate::statements::max_number;
use c_helpers::{pattern_32, pattern_64};
use c_symbols::{MEMORY_NAME, TABLE_NAME, global_name};
use c_tree::{
    Arg, COp, Expr, Name, Primitive, Stmt, Stmts, call_primitive, n32, n64, name_of, operation,
    set, three_args, to_64,
};
use std::alloc::Global;
use w2c_base::Memory;
use wasm_tree::{Code, GlobalEntry, Kind, Limits};

// A new table or memory.
fn made(alloc: Global, maker: Primitive, object: &[u8], limits: Limits) -> Result<Stmt, Memory>
    ensures { IfOk result (λ s. stmt_of s ≡ of.primitive None (primitive_name maker) (tree.Address object.now ∷ tree.Value (of.n32 limits.min) ∷ tree.Value (of.n64 (of.max_number limits.max)) ∷ [])) }
{
    let address = Arg::Address(name_of(alloc, object)?);
    let least = Arg::Value(n32(limits.min));
    let most = Arg::Value(n64(max_number(limits.max)));
    let args = three_args(alloc, address, least, most)?;
    call_primitive(alloc, None, maker, args)
}

// The one instruction of an expression.
#[tactic(auto, using(crate::proofs::Constants::one_instruction, crate::proofs::Constants::other_lengths))]
fn only(code: &Code) -> Option<&Kind>
    ensures { option_map kind_tree (option_copied result) ≡ single_of code.now }
{
    if code.len() == 1 {
        Some(&code.at(0).kind)
    } else {
        None
    }
}

impl<'a> Source<'a> {
    ghost use Rattle.c_init.specs.Single.{constant_by};

    /// The tables.
    pub(crate) fn put_tables(&self, stmts: &mut Stmts) -> Result<(), Memory>
        ensures { OnOk result (map stmt_of stmts.new ≡ map stmt_of stmts.old ++ map (λ t. of.make_table t.limits) self.now.tree.now.tables) }
    {
        for table in self.tree.tables.as_slice() {
            stmts.push(made(self.alloc, Primitive::TabNew, TABLE_NAME, table.limits)?)?;
        }
        Ok(())
    }

    /// The memories.
    pub(crate) fn put_memories(&self, stmts: &mut Stmts) -> Result<(), Memory>
        ensures { OnOk result (map stmt_of stmts.new ≡ map stmt_of stmts.old ++ map (λ t. of.make_memory t.limits) self.now.tree.now.memories) }
    {
        for memory in self.tree.memories.as_slice() {
            stmts.push(made(self.alloc, Primitive::MemNew, MEMORY_NAME, memory.limits)?)?;
        }
        Ok(())
    }

    fn constant_of(&self, only: Option<&Kind>) -> Result<Expr, Memory>
        ensures { IfOk result (λ e. expr_of e ≡ constant_by self.now.tree.now (option_map kind_tree (option_copied only.entry))) }
    {
        match only {
            None => Ok(n32(0)),
            Some(Kind::I32Const(number)) => Ok(n32(pattern_32(*number))),
            Some(Kind::I64Const(number)) => Ok(n64(pattern_64(*number))),
            Some(Kind::GlobalGet(index)) => self.spaces.global_value(self.alloc, *index),
            Some(_) => Ok(n32(0)),
        }
    }

    /// The value of an initial or offset expression.
    pub(crate) fn constant(&self, code: &Code) -> Result<Expr, Memory>
        ensures { IfOk result (λ e. expr_of e ≡ of.constant_expr self.now.tree.now code.now) }
    {
        self.constant_of(only(code))
    }

    /// The offset of a segment, as a u64.
    pub(crate) fn start(&self, offset: &Code) -> Result<Expr, Memory>
        ensures { IfOk result (λ e. expr_of e ≡ tree.To64 (of.constant_expr self.now.tree.now offset.now)) }
    {
        to_64(self.alloc, self.constant(offset)?)
    }

    /// A place in a segment, as a u64.
    pub(crate) fn place(&self, offset: &Code, number: u64) -> Result<Expr, Memory>
        ensures { IfOk result (λ e. expr_of e ≡ of.place_expr self.now.tree.now offset.now (of.n64 number)) }
    {
        let start = self.start(offset)?;
        operation(self.alloc, COp::Add, start, n64(number))
    }

    /// The name of the own global with a number.
    #[tactic(auto, using(crate::proofs::Countable::few_globals, crate::proofs::Counts::counted))]
    pub fn own_global(&self, number: usize) -> Result<Name, Memory>
        requires { number < length self.now.tree.now.globals }
        ensures { IfOk result (λ name. name ≡ global_name_of (imported_globals self.now.tree.now + number)) }
    {
        global_name(self.alloc, self.reached().globals.len() + number)
    }

    /// Globals that the module defines, of which the first has this number.
    pub(crate) fn put_globals(
        &self,
        stmts: &mut Stmts,
        from: usize,
        globals: &[GlobalEntry],
    ) -> Result<(), Memory>
        requires { from + length globals.now ≤ length self.now.tree.now.globals }
        ensures { OnOk result (map stmt_of stmts.new ≡ map stmt_of stmts.old ++ map (of.make_global self.now.tree.now) (numbered_from from globals.now)) }
    {
        let mut number = from;
        for global in globals {
            let name = self.own_global(number)?;
            let value = self.constant(&global.code)?;
            stmts.push(set(name, value))?;
            number += 1;
        }
        Ok(())
    }
}
