// A statement as bytes: its kind, and then its parts.
ghost use Rattle.std.specs.Prelude.{◌≡◌, ◌++◌, map, OnOk};
ghost use Rattle.c_tree.specs.Tree as tree;
ghost use Rattle.c_tree.specs.View.{arg_of, callee_of, expr_of, stmt_of};
ghost use Rattle.packed_stmts.specs.Statement as statement;
ghost use Rattle.packed_stmts.specs.Unpacked.{Reads};

use crate::codes::op_code;
use crate::packing::{put_arg, put_args, put_callee, put_cases, put_expr, put_name, put_target};
use crate::unpacking::Source;
use c_tree::{Args, COp, Callee, Cases, Expr, Name, Stmt};
use std::alloc::Global;
use w2c_base::{Bytes, Memory};

/// The kind of a statement.
#[derive(Clone, Copy)]
pub(crate) enum StmtKind {
    Label,
    Null,
    Set,
    SetStar,
    Call,
    Goto,
    If,
    Switch,
    ReturnNone,
    Return,
}

#[tactic(auto, unfolding(crate::specs::Statement::stmt_kind))]
fn stmt_kind(byte: u8) -> StmtKind
    ensures { result ≡ statement.stmt_kind byte }
{
    match byte {
        0 => StmtKind::Label,
        1 => StmtKind::Null,
        2 => StmtKind::Set,
        3 => StmtKind::SetStar,
        4 => StmtKind::Call,
        5 => StmtKind::Goto,
        6 => StmtKind::If,
        7 => StmtKind::Switch,
        8 => StmtKind::ReturnNone,
        _ => StmtKind::Return,
    }
}

fn put_call(
    bytes: &mut Bytes,
    target: &Option<Name>,
    callee: &Callee,
    args: &Args,
) -> Result<(), Memory>
    ensures { OnOk result (bytes.new ≡ bytes.old ++ statement.stmt_code (tree.Call target.now (callee_of callee.now) (map arg_of args.now))) }
{
    bytes.push(4)?;
    put_target(bytes, target)?;
    put_callee(bytes, callee)?;
    put_args(bytes, args)
}

fn put_if(bytes: &mut Bytes, op: COp, left: &Expr, right: &Expr, label: &Name) -> Result<(), Memory>
    ensures { OnOk result (bytes.new ≡ bytes.old ++ statement.stmt_code (tree.If op (expr_of left.now) (expr_of right.now) label.now)) }
{
    bytes.extend(&[6, op_code(op)])?;
    put_expr(bytes, left)?;
    put_expr(bytes, right)?;
    put_name(bytes, label)
}

fn put_switch(bytes: &mut Bytes, on: &Expr, cases: &Cases, label: &Name) -> Result<(), Memory>
    ensures { OnOk result (bytes.new ≡ bytes.old ++ statement.stmt_code (tree.Switch (expr_of on.now) cases.now label.now)) }
{
    bytes.push(7)?;
    put_expr(bytes, on)?;
    put_cases(bytes, cases)?;
    put_name(bytes, label)
}

/// The bytes of a statement, put behind others. Its one error is want of memory.
pub(crate) fn put_stmt(bytes: &mut Bytes, stmt: &Stmt) -> Result<(), Memory>
    ensures { OnOk result (bytes.new ≡ bytes.old ++ statement.stmt_code (stmt_of stmt.now)) }
{
    match stmt {
        Stmt::Label(name) => {
            bytes.push(0)?;
            put_name(bytes, name)
        }
        Stmt::Null => bytes.push(1),
        Stmt::Set(name, arg) => {
            bytes.push(2)?;
            put_name(bytes, name)?;
            put_arg(bytes, arg)
        }
        Stmt::SetStar(name, e) => {
            bytes.push(3)?;
            put_name(bytes, name)?;
            put_expr(bytes, e)
        }
        Stmt::Call(target, callee, args) => put_call(bytes, target, callee, args),
        Stmt::Goto(name) => {
            bytes.push(5)?;
            put_name(bytes, name)
        }
        Stmt::If(op, left, right, label) => put_if(bytes, *op, left, right, label),
        Stmt::Switch(on, cases, label) => put_switch(bytes, on, cases, label),
        Stmt::ReturnNone => bytes.push(8),
        Stmt::Return(arg) => {
            bytes.push(9)?;
            put_arg(bytes, arg)
        }
    }
}

impl<'a> Source<'a> {
    fn set(&mut self, alloc: Global) -> Result<Stmt, Memory>
        ensures { Reads stmt_of (statement.stmt_by StmtKind.Set self.old) result self.new }
    {
        let name = self.name(alloc)?;
        let arg = self.arg(alloc)?;
        Ok(Stmt::Set(name, arg))
    }

    fn set_star(&mut self, alloc: Global) -> Result<Stmt, Memory>
        ensures { Reads stmt_of (statement.stmt_by StmtKind.SetStar self.old) result self.new }
    {
        let name = self.name(alloc)?;
        let e = self.expr(alloc)?;
        Ok(Stmt::SetStar(name, e))
    }

    fn call(&mut self, alloc: Global) -> Result<Stmt, Memory>
        ensures { Reads stmt_of (statement.stmt_by StmtKind.Call self.old) result self.new }
    {
        let target = self.target(alloc)?;
        let callee = self.callee(alloc)?;
        let args = self.args(alloc)?;
        Ok(Stmt::Call(target, callee, args))
    }

    fn jump_if(&mut self, alloc: Global) -> Result<Stmt, Memory>
        ensures { Reads stmt_of (statement.stmt_by StmtKind.If self.old) result self.new }
    {
        let op = self.op();
        let left = self.expr(alloc)?;
        let right = self.expr(alloc)?;
        let label = self.name(alloc)?;
        Ok(Stmt::If(op, left, right, label))
    }

    fn switch(&mut self, alloc: Global) -> Result<Stmt, Memory>
        ensures { Reads stmt_of (statement.stmt_by StmtKind.Switch self.old) result self.new }
    {
        let on = self.expr(alloc)?;
        let cases = self.cases(alloc)?;
        let label = self.name(alloc)?;
        Ok(Stmt::Switch(on, cases, label))
    }

    /// The next statement. Its one error is want of memory.
    #[tactic(auto, unfolding(crate::specs::Statement::stmt_at))]
    pub(crate) fn stmt(&mut self, alloc: Global) -> Result<Stmt, Memory>
        ensures { Reads stmt_of (statement.stmt_at self.old) result self.new }
    {
        match stmt_kind(self.byte()) {
            StmtKind::Label => Ok(Stmt::Label(self.name(alloc)?)),
            StmtKind::Null => Ok(Stmt::Null),
            StmtKind::Set => self.set(alloc),
            StmtKind::SetStar => self.set_star(alloc),
            StmtKind::Call => self.call(alloc),
            StmtKind::Goto => Ok(Stmt::Goto(self.name(alloc)?)),
            StmtKind::If => self.jump_if(alloc),
            StmtKind::Switch => self.switch(alloc),
            StmtKind::ReturnNone => Ok(Stmt::ReturnNone),
            StmtKind::Return => Ok(Stmt::Return(self.arg(alloc)?)),
        }
    }
}
