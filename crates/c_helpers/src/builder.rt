// The builder of a body: it places pieces one behind another.
ghost use Rattle.std.specs.Prelude.{◌≡◌, ◌∷◌, OnOk};
ghost use Rattle.c_tree.specs.View.{expr_of, stmt_of};
ghost use Rattle.c_helpers.specs.Pieces.{top, below_top, with_stack, with_stmt, with_call, placed, all_placed, staged, made_by, nothing_made};

use crate::parts::{cast_to, get_name, letter, number_in, put_name};
use crate::piece::{Piece, Setting};
use c_tree::{Arg, Args, Callee, Expr, Name, Num, Stmt, Stmts, literal, name_of, operation, trap};
use std::alloc::Global;
use std::mem;
use w2c_base::{Memory, ValType};

/// What pieces made so far: expressions, the arguments of the next call, and statements.
#[derive(Drop)]
pub struct Builder {
    pub alloc: Global,
    pub stack: Vec<Expr>,
    pub args: Args,
    pub stmts: Stmts,
}

impl Builder {
    /// Nothing yet. It takes no memory.
    pub fn new(alloc: Global) -> Builder
        ensures { made_by result ≡ nothing_made }
    {
        Builder {
            alloc,
            stack: Vec::new(alloc),
            args: Args::new(alloc),
            stmts: Stmts::new(alloc),
        }
    }

    /// The statements.
    pub fn finish(self) -> Stmts
        ensures { result ≡ self.stmts }
    {
        let Builder { stmts, .. } = self;
        stmts
    }

    /// Places pieces once for each size.
    pub fn place_staged(
        &mut self,
        ty: ValType,
        sizes: &[u32],
        pieces: &[Piece],
    ) -> Result<(), Memory>
        ensures { OnOk result (made_by self.new ≡ staged ty sizes.now (made_by self.old) pieces.now) }
    {
        for size in sizes {
            self.place_all(Setting { ty, size: *size }, pieces)?;
        }
        Ok(())
    }

    /// Places pieces in order.
    pub fn place_all(&mut self, setting: Setting, pieces: &[Piece]) -> Result<(), Memory>
        ensures { OnOk result (made_by self.new ≡ all_placed setting.ty setting.size (made_by self.old) pieces.now) }
    {
        for piece in pieces {
            self.place(setting, *piece)?;
        }
        Ok(())
    }

    fn place(&mut self, setting: Setting, piece: Piece) -> Result<(), Memory>
        ensures { OnOk result (made_by self.new ≡ placed setting.ty setting.size (made_by self.old) piece) }
    {
        let alloc = self.alloc;
        let ty = setting.ty;
        match piece {
            Piece::Name(c) => self.push(Expr::Name(letter(alloc, c)?)),
            Piece::Number(n) => self.push(literal(ty, number_in(setting, n))),
            Piece::Long(n) => self.push(Expr::Num(Num::N64(number_in(setting, n)))),
            Piece::Op(op) => {
                let right = self.take(ty);
                let left = self.take(ty);
                self.push(operation(alloc, op, left, right)?)
            }
            Piece::Cast(cast) => {
                let e = self.take(ty);
                self.push(cast_to(alloc, setting, cast, e)?)
            }
            Piece::Arg => {
                let e = self.take(ty);
                self.args.push(Arg::Value(e))
            }
            Piece::Get(c, primitive) => {
                let target = letter(alloc, c)?;
                self.call(Some(target), primitive.name())
            }
            Piece::Read(c) => {
                let target = letter(alloc, c)?;
                self.call(Some(target), get_name(setting.size))
            }
            Piece::Write => self.call(None, put_name(setting.size)),
            Piece::Set(c) => {
                let name = letter(alloc, c)?;
                let e = self.take(ty);
                self.add(Stmt::Set(name, Arg::Value(e)))
            }
            Piece::If(op, c) => {
                let label = letter(alloc, c)?;
                let right = self.take(ty);
                let left = self.take(ty);
                self.add(Stmt::If(op, left, right, label))
            }
            Piece::Label(c) => self.add(Stmt::Label(letter(alloc, c)?)),
            Piece::Return => {
                let e = self.take(ty);
                self.add(Stmt::Return(Arg::Value(e)))
            }
            Piece::ReturnNone => self.add(Stmt::ReturnNone),
            Piece::Trap(kind) => self.add(trap(alloc, kind)?),
        }
    }

    fn push(&mut self, e: Expr) -> Result<(), Memory>
        ensures { OnOk result (made_by self.new ≡ with_stack (made_by self.old) (expr_of e ∷ (made_by self.old).stack)) }
    {
        self.stack.push(e)?;
        Ok(())
    }

    // The uppermost expression, or 0 where there is none.
    fn take(&mut self, ty: ValType) -> Expr
        ensures value { expr_of result ≡ top ty (made_by self.old).stack }
        ensures rest { made_by self.new ≡ with_stack (made_by self.old) (below_top (made_by self.old).stack) }
        ensures alloc { self.new.alloc ≡ self.old.alloc }
    {
        match self.stack.pop() {
            Some(e) => e,
            None => literal(ty, 0),
        }
    }

    fn add(&mut self, s: Stmt) -> Result<(), Memory>
        ensures { OnOk result (made_by self.new ≡ with_stmt (made_by self.old) (made_by self.old).stack (stmt_of s)) }
    {
        self.stmts.push(s)
    }

    // A call of a function of the runtime with the arguments so far.
    fn call(&mut self, target: Option<Name>, name: &[u8]) -> Result<(), Memory>
        ensures { OnOk result (made_by self.new ≡ with_call (made_by self.old) target name.now) }
    {
        let callee = Callee::Named(name_of(self.alloc, name)?);
        let args = mem::replace(&mut self.args, Args::new(self.alloc));
        self.add(Stmt::Call(target, callee, args))
    }
}
