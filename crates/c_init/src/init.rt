// The init function of a unit.
ghost use Rattle.std.specs.Prelude.{◌≡◌, ◌++◌, ◌∷◌, [], length, map, None, OnOk, IfOk};
ghost use Rattle.c_tree.specs.Tree as tree;
ghost use Rattle.c_tree.specs.View.{func_of, stmt_of};
ghost use Rattle.c_init.specs.Init as of;
ghost use Rattle.c_init.specs.InitParts.{making, writing, ending, put_locals};

use crate::needs::{loops, tests_bounds, tests_limits};
use crate::parts::put_calls;
use crate::source::Source;
use crate::statements::put_trap;
use c_tree::{Args, Body, CType, Callee, Func, Locals, Name, Num, Stmt, Stmts, name_of, no_params};
use std::alloc::Global;
use w2c_base::{Memory, TrapKind};
use w2c_mangle::init_symbol;
use wasm_tree::Module;

fn call_start(alloc: Global, name: Option<Name>) -> Stmt
    ensures { stmt_of result ≡ of.call_start name }
{
    match name {
        None => Stmt::Null,
        Some(name) => Stmt::Call(None, Callee::Named(name), Args::new(alloc)),
    }
}

fn put_local(alloc: Global, locals: &mut Locals, used: bool, name: &[u8]) -> Result<(), Memory>
    ensures { OnOk result (locals.new ≡ locals.old ++ of.local_if used name.now) }
{
    if used {
        locals.push((CType::U64, name_of(alloc, name)?, Num::N64(0)))
    } else {
        Ok(())
    }
}

fn put_locals(alloc: Global, locals: &mut Locals, m: &Module) -> Result<(), Memory>
    ensures { OnOk result (locals.new ≡ put_locals m.now locals.old) }
{
    let tests = tests_limits(m) || tests_bounds(m);
    put_local(alloc, locals, tests, b"n")?;
    put_local(alloc, locals, loops(m), b"k")
}

/// The local variables of the init function and of its parts.
pub(crate) fn locals(alloc: Global, m: &Module) -> Result<Locals, Memory>
    ensures { IfOk result (λ locals. locals ≡ of.own_locals m.now) }
{
    let mut locals = Locals::new(alloc);
    put_locals(alloc, &mut locals, m)?;
    Ok(locals)
}

impl<'a> Source<'a> {
    ghost use Rattle.c_init.specs.Sources.{module_of};

    fn put_start(&self, stmts: &mut Stmts) -> Result<(), Memory>
        ensures { OnOk result (map stmt_of stmts.new ≡ map stmt_of stmts.old ++ of.start_stmts (module_of self.now) self.now.tree.now.start) }
    {
        match self.tree.start {
            None => Ok(()),
            Some(start) => {
                let callee = self.spaces.callee(self.alloc, start.index)?;
                stmts.push(call_start(self.alloc, callee))
            }
        }
    }

    // What is imported, the tables and the memories.
    fn put_making(&self, stmts: &mut Stmts) -> Result<(), Memory>
        ensures { OnOk result (map stmt_of stmts.new ≡ making (module_of self.now) (map stmt_of stmts.old)) }
    {
        stmts.push(Stmt::Null)?;
        self.put_takes(stmts)?;
        self.put_tables(stmts)?;
        self.put_memories(stmts)
    }

    fn put_writing(&self, stmts: &mut Stmts) -> Result<(), Memory>
        ensures { OnOk result (map stmt_of stmts.new ≡ writing (module_of self.now) (map stmt_of stmts.old)) }
    {
        self.put_globals(stmts, 0, self.tree.globals.as_slice())?;
        self.put_element_bounds(stmts, self.tree.elements.as_slice())?;
        self.put_data_bounds(stmts, self.tree.segments.as_slice())?;
        self.put_elements(stmts)?;
        self.put_bytes(stmts, 0, self.tree.segments.as_slice())
    }

    fn put_ending(&self, stmts: &mut Stmts, bounds: bool) -> Result<(), Memory>
        ensures { OnOk result (map stmt_of stmts.new ≡ ending (module_of self.now) bounds (map stmt_of stmts.old)) }
    {
        self.put_start(stmts)?;
        stmts.push(Stmt::ReturnNone)?;
        let alloc = self.alloc;
        put_trap(
            alloc,
            stmts,
            tests_limits(self.tree),
            0,
            TrapKind::ImportLimits,
        )?;
        put_trap(alloc, stmts, bounds, 1, TrapKind::SegmentOut)
    }

    // All in one function.
    fn whole_stmts(&self) -> Result<Stmts, Memory>
        ensures { IfOk result (λ stmts. map stmt_of stmts ≡ of.whole_stmts (module_of self.now)) }
    {
        let mut stmts = Stmts::new(self.alloc);
        self.put_making(&mut stmts)?;
        self.put_writing(&mut stmts)?;
        self.put_ending(&mut stmts, tests_bounds(self.tree))?;
        Ok(stmts)
    }

    // With so many parts that are called.
    fn calling_stmts(&self, parts: usize) -> Result<Stmts, Memory>
        ensures { IfOk result (λ stmts. map stmt_of stmts ≡ of.calling_stmts (module_of self.now) parts) }
    {
        let mut stmts = Stmts::new(self.alloc);
        self.put_making(&mut stmts)?;
        put_calls(self.alloc, &mut stmts, parts)?;
        self.put_ending(&mut stmts, false)?;
        Ok(stmts)
    }

    #[tactic(auto, using(crate::proofs::InitParts::with_none, crate::proofs::InitParts::with_some))]
    fn init_stmts(&self, parts: usize) -> Result<Stmts, Memory>
        ensures { IfOk result (λ stmts. map stmt_of stmts ≡ of.stmts_with (module_of self.now) parts) }
    {
        if parts > 0 {
            self.calling_stmts(parts)
        } else {
            self.whole_stmts()
        }
    }

    /// The init function, which calls so many parts.
    #[tactic(auto, using(crate::proofs::InitParts::all_called))]
    pub fn init_func(&self, parts: usize) -> Result<Func, Memory>
        requires { parts ≡ length (of.parts_of self.now.tree.now) }
        ensures { IfOk result (λ f. func_of f ≡ of.init_func (module_of self.now)) }
    {
        let stmts = self.init_stmts(parts)?;
        let name = Name::from_bytes(self.alloc, init_symbol(self.alloc, self.name)?)?;
        let params = no_params(self.alloc)?;
        let locals = locals(self.alloc, self.tree)?;
        Ok(Func {
            is_static: false,
            result: CType::Void,
            name,
            params,
            body: Some(Body { locals, stmts }),
        })
    }
}
