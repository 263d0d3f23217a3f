// The functions that the init function of a large module calls.
ghost use Rattle.std.specs.Prelude.{◌≡◌, ◌++◌, drop, map, take, IfOk, OnOk};
ghost use Rattle.std.specs.List.{range_with_len};
ghost use Rattle.c_tree.specs.View.{func_of, stmt_of};
ghost use Rattle.c_init.specs.Init as of;
ghost use Rattle.c_init.specs.Portions.{part_of, tests_of, elements_behind, IsOf};

use crate::init::locals;
use crate::pieces::{MOST, some_from};
use crate::portion::Portion;
use crate::source::Source;
use crate::statements::put_trap;
use c_tree::{Args, Body, CType, Callee, Func, Stmt, Stmts, no_params, with_number};
use std::alloc::Global;
use w2c_base::{Memory, TrapKind};
use wasm_tree::ElementEntry;

fn call_part(alloc: Global, number: usize) -> Result<Stmt, Memory>
    ensures { IfOk result (λ s. stmt_of s ≡ of.call_part number) }
{
    let name = with_number(alloc, b"init_", number)?;
    Ok(Stmt::Call(None, Callee::Named(name), Args::new(alloc)))
}

/// So many parts are called in order.
pub(crate) fn put_calls(alloc: Global, stmts: &mut Stmts, parts: usize) -> Result<(), Memory>
    ensures { OnOk result (map stmt_of stmts.new ≡ map stmt_of stmts.old ++ map of.call_part (range_with_len 0 parts)) }
{
    for number in 0..parts {
        stmts.push(call_part(alloc, number)?)?;
    }
    Ok(())
}

impl<'a> Source<'a> {
    // The elements of a segment from the one with a number on, so many at most.
    fn put_some(
        &self,
        stmts: &mut Stmts,
        segment: &ElementEntry,
        start: usize,
        left: usize,
    ) -> Result<(), Memory>
        ensures { OnOk result (map stmt_of stmts.new ≡ map stmt_of stmts.old ++ map (of.write_one self.now.tree.now) (take left (drop start (of.elements_in segment.now)))) }
    {
        let funcs = segment.funcs.as_slice();
        let begin = funcs.len().min(start);
        let some = some_from(funcs, begin, left);
        let mut number = begin;
        for func in some {
            stmts.push(self.element(&segment.offset, number, func.index)?)?;
            number += 1;
        }
        Ok(())
    }

    // A hundred elements at most, from the one with a number on.
    fn put_elements_from(
        &self,
        stmts: &mut Stmts,
        segments: &[ElementEntry],
        number: usize,
    ) -> Result<(), Memory>
        ensures { OnOk result (map stmt_of stmts.new ≡ map stmt_of stmts.old ++ map (of.write_one self.now.tree.now) (take of.most (elements_behind number segments.now))) }
    {
        let mut start = number;
        let mut left = MOST;
        for segment in segments {
            if left == 0 {
                return Ok(());
            }
            self.put_some(stmts, segment, start, left)?;
            let count = segment.funcs.len();
            left = left.saturating_sub(count.saturating_sub(start));
            start = start.saturating_sub(count);
        }
        Ok(())
    }

    fn put_portion(&self, stmts: &mut Stmts, portion: Portion) -> Result<(), Memory>
        requires { IsOf self.now.tree.now portion }
        ensures { OnOk result (map stmt_of stmts.new ≡ map stmt_of stmts.old ++ (part_of self.now.tree.now portion.entry).stmts) }
    {
        match portion {
            Portion::Globals(from, globals) => self.put_globals(stmts, from, globals),
            Portion::ElementBounds(elements) => self.put_element_bounds(stmts, elements),
            Portion::DataBounds(segments) => self.put_data_bounds(stmts, segments),
            Portion::Elements(elements, number) => self.put_elements_from(stmts, elements, number),
            Portion::Bytes(from, segments) => self.put_bytes(stmts, from, segments),
        }
    }

    fn part_stmts(&self, portion: Portion) -> Result<Stmts, Memory>
        requires { IsOf self.now.tree.now portion }
        ensures { IfOk result (λ stmts. map stmt_of stmts ≡ of.part_stmts (part_of self.now.tree.now portion.entry)) }
    {
        let mut stmts = Stmts::new(self.alloc);
        self.put_portion(&mut stmts, portion)?;
        stmts.push(Stmt::ReturnNone)?;
        let tests = tests(portion);
        put_trap(self.alloc, &mut stmts, tests, 1, TrapKind::SegmentOut)?;
        Ok(stmts)
    }

    /// The part with a number.
    pub fn part_func(&self, number: usize, portion: Portion) -> Result<Func, Memory>
        requires { IsOf self.now.tree.now portion }
        ensures { IfOk result (λ f. func_of f ≡ of.part_func self.now.tree.now (number, part_of self.now.tree.now portion.entry)) }
    {
        let stmts = self.part_stmts(portion)?;
        let name = with_number(self.alloc, b"init_", number)?;
        let params = no_params(self.alloc)?;
        let locals = locals(self.alloc, self.tree)?;
        Ok(Func {
            is_static: true,
            result: CType::Void,
            name,
            params,
            body: Some(Body { locals, stmts }),
        })
    }
}

// Whether a part tests bounds.
fn tests(portion: Portion) -> bool
    ensures { result ≡ tests_of portion.entry }
{
    match portion {
        Portion::Globals(_, _) => false,
        Portion::ElementBounds(_) => true,
        Portion::DataBounds(_) => true,
        Portion::Elements(_, _) => false,
        Portion::Bytes(_, _) => false,
    }
}
