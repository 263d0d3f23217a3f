// What statements are made of, read of the bytes that `packing` put. A want of memory is the only error of each function here: of any bytes
// something is read.
ghost use Rattle.std.specs.Prelude.{◌≡◌, box_value, length, map};
ghost use Rattle.c_tree.specs.View.{arg_of, callee_of, expr_of, func_type_of};
ghost use Rattle.packed_stmts.specs.Unpacked as spec;
ghost use Rattle.packed_stmts.specs.Unpacked.{Reads};

use crate::codes::{expr_kind, op_of, type_of};
use crate::kinds::ExprKind;
use c_tree::{Arg, Args, CFuncType, COp, CType, CTypes, Callee, Cases, Expr, Name, Num, name_of};
use std::alloc::Global;
use std::boxed::Box;
use std::marker::Model;
use w2c_base::Memory;

/// Bytes that are left to read.
#[derive(Drop)]
pub(crate) struct Source<'a> {
    left: &'a [u8],
}

impl<'a> Model for Source<'a> {
    ghost use Rattle.std.specs.Prelude.{ℕ, List};

    ghost Value = { List ℕ };

    ghost view = { λ source. source.left.now };
}

impl<'a> Source<'a> {
    pub(crate) fn new(left: &'a [u8]) -> Source<'a>
        ensures { result ≡ left.now }
    {
        Source { left }
    }

    fn len(&self) -> usize
        ensures { result ≡ length self.now }
    {
        self.left.len()
    }

    pub(crate) fn byte(&mut self) -> u8
        ensures { spec.byte_at self.old ≡ (result, self.new) }
    {
        match self.left {
            [] => 0,
            [first, rest @ ..] => {
                let byte = *first;
                self.left = rest;
                byte
            }
        }
    }

    #[tactic(auto, unfolding(crate::specs::Unpacked::word_at))]
    fn word(&mut self) -> u32
        ensures { spec.word_at self.old ≡ (result, self.new) }
    {
        let a = self.byte();
        let b = self.byte();
        let c = self.byte();
        let d = self.byte();
        a as u32 + 256 * (b as u32 + 256 * (c as u32 + 256 * (d as u32)))
    }

    #[tactic(auto, unfolding(crate::specs::Unpacked::long_at))]
    fn long(&mut self) -> u64
        ensures { spec.long_at self.old ≡ (result, self.new) }
    {
        let low = self.word();
        let high = self.word();
        low as u64 + 4294967296 * (high as u64)
    }

    #[tactic(auto, unfolding(crate::specs::Unpacked::size_at))]
    pub(crate) fn u64(&mut self) -> u64
        ensures { spec.size_at self.old ≡ (result, self.new) }
    {
        let first = self.byte();
        if first < 255 {
            first as u64
        } else {
            self.long()
        }
    }

    #[tactic(auto, unfolding(crate::specs::Unpacked::word_code_at))]
    fn u32(&mut self) -> u32
        ensures { spec.word_code_at self.old ≡ (result, self.new) }
    {
        let first = self.byte();
        if first < 255 {
            first as u32
        } else {
            self.word()
        }
    }

    // So many bytes, or none where fewer are left.
    fn piece(&mut self, len: u64) -> &'a [u8]
        ensures { spec.piece_at len self.old ≡ (result.now, self.new) }
    {
        let len = len as usize;
        if self.left.len() < len {
            self.left = &[];
            return &[];
        }
        let (front, rest) = self.left.split_at(len);
        self.left = rest;
        front
    }

    #[tactic(auto, unfolding(crate::specs::Unpacked::name_at))]
    pub(crate) fn name(&mut self, alloc: Global) -> Result<Name, Memory>
        ensures { Reads (λ name. name) (spec.name_at self.old) result self.new }
    {
        let len = self.u64();
        let bytes = self.piece(len);
        name_of(alloc, bytes)
    }

    #[tactic(auto, unfolding(crate::specs::Unpacked::target_at))]
    pub(crate) fn target(&mut self, alloc: Global) -> Result<Option<Name>, Memory>
        ensures { Reads (λ target. target) (spec.target_at self.old) result self.new }
    {
        if self.byte() == 0 {
            return Ok(None);
        }
        let name = self.name(alloc)?;
        Ok(Some(name))
    }

    #[tactic(auto, unfolding(crate::specs::Unpacked::num_at))]
    fn num(&mut self) -> Num
        ensures { spec.num_at self.old ≡ (result, self.new) }
    {
        let form = self.byte();
        if form == 0 {
            Num::N32(self.u32())
        } else if form == 1 {
            Num::N64(self.u64())
        } else {
            Num::Plain(self.u64())
        }
    }

    #[tactic(auto, unfolding(crate::specs::Unpacked::type_at))]
    fn ctype(&mut self) -> CType
        ensures { spec.type_at self.old ≡ (result, self.new) }
    {
        type_of(self.byte())
    }

    #[tactic(auto, unfolding(crate::specs::Unpacked::op_at))]
    pub(crate) fn op(&mut self) -> COp
        ensures { spec.op_at self.old ≡ (result, self.new) }
    {
        op_of(self.byte())
    }

    // An expression, where so many may stand inside one another.
    #[cycle(expression)]
    #[tactic(auto, unfolding(crate::specs::Unpacked::expr_of_parts))]
    fn expr_of_parts(&mut self, alloc: Global, room: usize) -> Result<Expr, Memory>
        ensures { Reads expr_of (spec.expr_of_parts (spec.expr_in room) self.old) result self.new }
    {
        match expr_kind(self.byte()) {
            ExprKind::Name => Ok(Expr::Name(self.name(alloc)?)),
            ExprKind::At => {
                let name = self.name(alloc)?;
                let index = self.boxed(alloc, room)?;
                Ok(Expr::At(name, index))
            }
            ExprKind::Number => Ok(Expr::Num(self.num())),
            ExprKind::To32 => Ok(Expr::To32(self.boxed(alloc, room)?)),
            ExprKind::To64 => Ok(Expr::To64(self.boxed(alloc, room)?)),
            ExprKind::Star => Ok(Expr::Star(self.name(alloc)?)),
            ExprKind::Op => {
                let op = self.op();
                let left = self.boxed(alloc, room)?;
                let right = self.boxed(alloc, room)?;
                Ok(Expr::Op(op, left, right))
            }
        }
    }

    // An expression inside another.
    #[cycle(expression)]
    fn boxed(&mut self, alloc: Global, room: usize) -> Result<Box<Expr>, Memory>
        ensures { Reads (λ inside. expr_of (box_value inside)) (spec.expr_in room self.old) result self.new }
    {
        let e = self.expr_in(alloc, room)?;
        let inside = Box::new(alloc, e)?;
        Ok(inside)
    }

    #[cycle(expression)]
    #[tactic(auto, using(crate::proofs::Room::no_room, crate::proofs::Room::some_room))]
    fn expr_in(&mut self, alloc: Global, room: usize) -> Result<Expr, Memory>
        ensures { Reads expr_of (spec.expr_in room self.old) result self.new }
    {
        if room == 0 {
            return Ok(Expr::Num(Num::Plain(0)));
        }
        self.expr_of_parts(alloc, room - 1)
    }

    #[tactic(auto, unfolding(crate::specs::Unpacked::expr_at))]
    pub(crate) fn expr(&mut self, alloc: Global) -> Result<Expr, Memory>
        ensures { Reads expr_of (spec.expr_at self.old) result self.new }
    {
        let room = self.len();
        self.expr_in(alloc, room)
    }

    #[tactic(auto, unfolding(crate::specs::Unpacked::arg_at))]
    pub(crate) fn arg(&mut self, alloc: Global) -> Result<Arg, Memory>
        ensures { Reads arg_of (spec.arg_at self.old) result self.new }
    {
        let form = self.byte();
        if form == 0 {
            Ok(Arg::Value(self.expr(alloc)?))
        } else if form == 1 {
            Ok(Arg::Address(self.name(alloc)?))
        } else {
            Ok(Arg::Function(self.name(alloc)?))
        }
    }

    pub(crate) fn args(&mut self, alloc: Global) -> Result<Args, Memory>
        ensures { Reads (map arg_of) (spec.list_at spec.arg_at self.old) result self.new }
    {
        let count = self.u64();
        let mut args = Args::new(alloc);
        for _ in 0..count {
            let arg = self.arg(alloc)?;
            args.push(arg)?;
        }
        Ok(args)
    }

    fn ctypes(&mut self, alloc: Global) -> Result<CTypes, Memory>
        ensures { Reads (λ types. types) (spec.list_at spec.type_at self.old) result self.new }
    {
        let count = self.u64();
        let mut types = CTypes::new(alloc);
        for _ in 0..count {
            let ty = self.ctype();
            types.push(ty)?;
        }
        Ok(types)
    }

    #[tactic(auto, unfolding(crate::specs::Unpacked::func_type_at))]
    fn func_type(&mut self, alloc: Global) -> Result<CFuncType, Memory>
        ensures { Reads func_type_of (spec.func_type_at self.old) result self.new }
    {
        let result = self.ctype();
        let params = self.ctypes(alloc)?;
        Ok(CFuncType { params, result })
    }

    #[tactic(auto, unfolding(crate::specs::Unpacked::callee_at))]
    pub(crate) fn callee(&mut self, alloc: Global) -> Result<Callee, Memory>
        ensures { Reads callee_of (spec.callee_at self.old) result self.new }
    {
        if self.byte() == 0 {
            return Ok(Callee::Named(self.name(alloc)?));
        }
        let ty = self.func_type(alloc)?;
        let name = self.name(alloc)?;
        Ok(Callee::Through(ty, name))
    }

    #[tactic(auto, unfolding(crate::specs::Unpacked::case_at))]
    fn case(&mut self, alloc: Global) -> Result<(Num, Name), Memory>
        ensures { Reads (λ case. case) (spec.case_at self.old) result self.new }
    {
        let number = self.num();
        let label = self.name(alloc)?;
        Ok((number, label))
    }

    pub(crate) fn cases(&mut self, alloc: Global) -> Result<Cases, Memory>
        ensures { Reads (λ cases. cases) (spec.list_at spec.case_at self.old) result self.new }
    {
        let count = self.u64();
        let mut cases = Cases::new(alloc);
        for _ in 0..count {
            let case = self.case(alloc)?;
            cases.push(case)?;
        }
        Ok(cases)
    }
}
