// The init function tests the bounds of all segments, and then writes them.
ghost use Rattle.std.specs.Prelude.{◌≡◌, ◌+◌, ◌<◌, ◌≤◌, ◌^◌, ◌∷◌, [], ◌++◌, flat_map, length, map, OnOk, IfOk};
ghost use Rattle.c_tree.specs.Tree as tree;
ghost use Rattle.c_tree.specs.View.{arg_of, expr_of, stmt_of};
ghost use Rattle.c_tree.specs.Primitives.{primitive_name};
ghost use Rattle.c_tree.specs.DefinedNames.{label_name as label_name_of};
ghost use Rattle.c_init.specs.Init as of;
ghost use Rattle.c_init.specs.Loops.{byte_parts, byte_put, byte_next, byte_test};
ghost use Rattle.c_init.specs.Portions.{numbered_from};

use crate::source::Source;
use crate::statements::{jump, put_label, reading};
use c_tree::{
    Arg, Args, COp, Expr, Primitive, Stmt, Stmts, Width, call_primitive, label_name, n64, name_of,
    one_arg, operation, set, to_32, with_number,
};
use std::alloc::Global;
use std::boxed::Box;
use w2c_base::Memory;
use wasm_tree::{Code, ElementEntry, SegmentEntry};

// The number of the next byte.
fn byte(alloc: Global) -> Result<Expr, Memory>
    ensures { IfOk result (λ e. expr_of e ≡ tree.Name of.byte_name) }
{
    Ok(Expr::Name(name_of(alloc, b"k")?))
}

// The byte of a segment's array, as an argument.
fn put_byte(alloc: Global, args: &mut Args, number: usize) -> Result<(), Memory>
    ensures { OnOk result (map arg_of args.new ≡ map arg_of args.old ++ tree.Value (tree.To32 (tree.At (of.data_name number) (tree.Name of.byte_name))) ∷ []) }
{
    let array = with_number(alloc, b"d", number)?;
    let index = Box::new(alloc, byte(alloc)?)?;
    args.push(Arg::Value(to_32(alloc, Expr::At(array, index))?))
}

fn byte_next(alloc: Global) -> Result<Stmt, Memory>
    ensures { IfOk result (λ s. stmt_of s ≡ byte_next) }
{
    let target = name_of(alloc, b"k")?;
    let next = operation(alloc, COp::Add, byte(alloc)?, n64(1))?;
    Ok(set(target, next))
}

fn put_mark(alloc: Global, stmts: &mut Stmts, mark: usize) -> Result<(), Memory>
    ensures { OnOk result (map stmt_of stmts.new ≡ map stmt_of stmts.old ++ of.set of.byte_name (of.n64 0) ∷ tree.Label (label_name_of mark) ∷ []) }
{
    stmts.push(set(name_of(alloc, b"k")?, n64(0)))?;
    put_label(alloc, stmts, mark)
}

fn put_test(alloc: Global, stmts: &mut Stmts, count: usize, mark: usize) -> Result<(), Memory>
    ensures { OnOk result (map stmt_of stmts.new ≡ map stmt_of stmts.old ++ byte_test count mark ∷ []) }
{
    let label = label_name(alloc, mark)?;
    stmts.push(jump(COp::Lt, byte(alloc)?, n64(count as u64), label))
}

impl<'a> Source<'a> {
    // So many items are put from an offset on.
    fn put_bounds(
        &self,
        stmts: &mut Stmts,
        len_of: Primitive,
        object: Arg,
        offset: &Code,
        count: usize,
    ) -> Result<(), Memory>
        ensures { OnOk result (map stmt_of stmts.new ≡ map stmt_of stmts.old ++ of.test_bounds (primitive_name len_of) (arg_of object) (of.place_expr self.now.tree.now offset.now (of.n64 count))) }
    {
        stmts.push(reading(self.alloc, len_of, object)?)?;
        let size = name_of(self.alloc, b"n")?;
        let label = label_name(self.alloc, 1)?;
        let end = self.place(offset, count as u64)?;
        stmts.push(jump(COp::Gt, end, Expr::Name(size), label))
    }

    /// The bounds of element segments.
    pub(crate) fn put_element_bounds(
        &self,
        stmts: &mut Stmts,
        elements: &[ElementEntry],
    ) -> Result<(), Memory>
        ensures { OnOk result (map stmt_of stmts.new ≡ map stmt_of stmts.old ++ flat_map (of.test_elements self.now.tree.now) elements.now) }
    {
        for element in elements {
            let table = self.spaces.table_arg(self.alloc)?;
            self.put_bounds(
                stmts,
                Primitive::TabLen,
                table,
                &element.offset,
                element.funcs.len(),
            )?;
        }
        Ok(())
    }

    /// The bounds of data segments.
    pub(crate) fn put_data_bounds(
        &self,
        stmts: &mut Stmts,
        segments: &[SegmentEntry],
    ) -> Result<(), Memory>
        ensures { OnOk result (map stmt_of stmts.new ≡ map stmt_of stmts.old ++ flat_map (of.test_data self.now.tree.now) segments.now) }
    {
        for segment in segments {
            let memory = self.spaces.memory_arg(self.alloc)?;
            self.put_bounds(
                stmts,
                Primitive::MemLen,
                memory,
                &segment.offset,
                segment.bytes.len(),
            )?;
        }
        Ok(())
    }

    // The place of the next byte, as an argument.
    fn put_byte_place(&self, args: &mut Args, offset: &Code) -> Result<(), Memory>
        ensures { OnOk result (map arg_of args.new ≡ map arg_of args.old ++ tree.Value (of.place_expr self.now.tree.now offset.now (tree.Name of.byte_name)) ∷ []) }
    {
        let byte = name_of(self.alloc, b"k")?;
        let start = self.start(offset)?;
        let place = operation(self.alloc, COp::Add, start, Expr::Name(byte))?;
        args.push(Arg::Value(place))
    }

    // The byte at a number is written.
    fn byte_put(&self, number: usize, offset: &Code) -> Result<Stmt, Memory>
        ensures { IfOk result (λ s. stmt_of s ≡ byte_put self.now.tree.now number offset.now) }
    {
        let alloc = self.alloc;
        let mut args = one_arg(alloc, self.spaces.memory_arg(alloc)?)?;
        self.put_byte_place(&mut args, offset)?;
        put_byte(alloc, &mut args, number)?;
        call_primitive(alloc, None, Primitive::Put(Width::One), args)
    }

    fn put_round(&self, stmts: &mut Stmts, number: usize, offset: &Code) -> Result<(), Memory>
        ensures { OnOk result (map stmt_of stmts.new ≡ map stmt_of stmts.old ++ byte_put self.now.tree.now number offset.now ∷ byte_next ∷ []) }
    {
        stmts.push(self.byte_put(number, offset)?)?;
        stmts.push(byte_next(self.alloc)?)
    }

    fn put_loop(
        &self,
        stmts: &mut Stmts,
        number: usize,
        offset: &Code,
        count: usize,
    ) -> Result<(), Memory>
        requires { number < 2 ^ 63 }
        ensures { OnOk result (map stmt_of stmts.new ≡ byte_parts self.now.tree.now number offset.now count (map stmt_of stmts.old)) }
    {
        let mark = number + 2;
        put_mark(self.alloc, stmts, mark)?;
        self.put_round(stmts, number, offset)?;
        put_test(self.alloc, stmts, count, mark)
    }

    #[tactic(auto, using(crate::proofs::ByteLoops::parts_there, crate::proofs::ByteLoops::bytes_none))]
    fn put_data(
        &self,
        stmts: &mut Stmts,
        number: usize,
        segment: &SegmentEntry,
    ) -> Result<(), Memory>
        requires { number < 2 ^ 63 }
        ensures { OnOk result (map stmt_of stmts.new ≡ map stmt_of stmts.old ++ of.write_data self.now.tree.now (number, segment.now)) }
    {
        let count = segment.bytes.len();
        if count > 0 {
            self.put_loop(stmts, number, &segment.offset, count)
        } else {
            Ok(())
        }
    }

    /// The bytes of data segments, of which the first has this number.
    pub(crate) fn put_bytes(
        &self,
        stmts: &mut Stmts,
        from: usize,
        segments: &[SegmentEntry],
    ) -> Result<(), Memory>
        requires { from + length segments.now ≤ length self.now.tree.now.segments }
        ensures { OnOk result (map stmt_of stmts.new ≡ map stmt_of stmts.old ++ flat_map (of.write_data self.now.tree.now) (numbered_from from segments.now)) }
    {
        let mut number = from;
        for segment in segments {
            self.put_data(stmts, number, segment)?;
            number += 1;
        }
        Ok(())
    }
}
