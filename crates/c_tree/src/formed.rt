// Whether a unit is well formed, piece by piece.
ghost use Rattle.std.specs.Prelude.{◌≡◌, ◌^◌, ◌&&◌, nat_lt, length, map};
ghost use Rattle.std.specs.List.{list_all};
ghost use Rattle.c_tree.specs.Tests.{number_fits, expr_formed, arg_formed, callee_formed, named_if_any, case_formed, call_room, call_formed, stmt_formed, local_formed, param_formed, body_formed, value_formed, bytes_formed, item_formed};
ghost use Rattle.c_tree.specs.View.{expr_of, arg_of, callee_of, stmt_of, maybe_body_of, item_of};

use crate::name::is_name;
use crate::tree::{Arg, Args, Body, CType, Callee, Cases, Expr, Func, Item, Name, Num, Stmt};

/// A piece of a tree that stands in a list.
pub trait Piece {
    ghost use Rattle.std.specs.Prelude.{ℕ, Bool};

    ghost test: { ℕ → Self → Bool };

    /// Whether it is well formed, where so many expressions may stand inside one another.
    fn is_formed(&self, room: usize) -> bool
        ensures { result ≡ test room self.now };
}

/// Whether each piece is well formed.
pub fn all_formed<T: Piece>(pieces: &[T], room: usize) -> bool
    ensures { result ≡ list_all (T.test room) pieces.now }
{
    for piece in pieces {
        if !piece.is_formed(room) {
            return false;
        }
    }
    true
}

fn number_fits(n: Num) -> bool
    ensures { result ≡ number_fits n }
{
    match n {
        Num::N32(_) | Num::N64(_) => true,
        Num::Plain(n) => n < 4_294_967_296,
    }
}

fn is_named_if_any(name: &Option<Name>) -> bool
    ensures { result ≡ named_if_any name.now }
{
    match name {
        None => true,
        Some(name) => is_name(name.as_slice()),
    }
}

fn is_expression_formed(e: &Expr, room: usize) -> bool
    ensures { result ≡ expr_formed room (expr_of e.now) }
{
    if room == 0 {
        return false;
    }
    match e {
        Expr::Name(name) | Expr::Star(name) => is_name(name.as_slice()),
        Expr::At(name, index) => is_name(name.as_slice()) && is_expression_formed(index, room - 1),
        Expr::Num(n) => number_fits(*n),
        Expr::To32(inner) | Expr::To64(inner) => is_expression_formed(inner, room - 1),
        Expr::Op(_, left, right) => {
            is_expression_formed(left, room - 1) && is_expression_formed(right, room - 1)
        }
    }
}

impl Piece for Arg {
    ghost test = { λ room arg. arg_formed room (arg_of arg) };

    fn is_formed(&self, room: usize) -> bool {
        match self {
            Arg::Value(e) => is_expression_formed(e, room),
            Arg::Address(name) | Arg::Function(name) => is_name(name.as_slice()),
        }
    }
}

fn is_callee_formed(callee: &Callee) -> bool
    ensures { result ≡ callee_formed (callee_of callee.now) }
{
    match callee {
        Callee::Named(name) => is_name(name.as_slice()),
        Callee::Through(ty, name) => is_name(name.as_slice()) && 0 < ty.params.len(),
    }
}

#[tactic(auto, using(crate::proofs::Tested::list_all_map))]
fn is_call_formed(callee: &Callee, args: &Args, room: usize) -> bool
    ensures { result ≡ call_formed room (callee_of callee.now) (map arg_of args.now) }
{
    is_callee_formed(callee) && all_formed(args.as_slice(), room)
}

/// The arguments of a call whose value is assigned stand inside the right side.
fn call_room(target: &Option<Name>, room: usize) -> usize
    ensures { result ≡ call_room room target.now }
{
    match target {
        None => room,
        Some(_) => room.saturating_sub(1),
    }
}

impl Piece for (Num, Name) {
    ghost test = { λ room case. case_formed case };

    fn is_formed(&self, room: usize) -> bool {
        number_fits(self.0) && is_name(self.1.as_slice())
    }
}

fn is_switch_formed(on: &Expr, cases: &Cases, room: usize) -> bool
    ensures { result ≡ (expr_formed room (expr_of on.now) && list_all case_formed cases.now) }
{
    is_expression_formed(on, room) && all_formed(cases.as_slice(), room)
}

impl Piece for Stmt {
    ghost test = { λ room stmt. stmt_formed room (stmt_of stmt) };

    fn is_formed(&self, room: usize) -> bool {
        match self {
            Stmt::Null | Stmt::ReturnNone => true,
            Stmt::Label(name) | Stmt::Goto(name) => is_name(name.as_slice()),
            Stmt::Set(name, arg) => is_name(name.as_slice()) && arg.is_formed(room),
            Stmt::SetStar(name, e) => is_name(name.as_slice()) && is_expression_formed(e, room),
            Stmt::Call(target, callee, args) => {
                is_named_if_any(target) && is_call_formed(callee, args, call_room(target, room))
            }
            Stmt::If(_, left, right, label) => {
                is_name(label.as_slice())
                    && is_expression_formed(left, room)
                    && is_expression_formed(right, room)
            }
            Stmt::Switch(on, cases, label) => {
                is_name(label.as_slice()) && is_switch_formed(on, cases, room)
            }
            Stmt::Return(arg) => arg.is_formed(room),
        }
    }
}

impl Piece for (CType, Name, Num) {
    ghost test = { λ room local. local_formed local };

    fn is_formed(&self, room: usize) -> bool {
        is_name(self.1.as_slice()) && number_fits(self.2)
    }
}

impl Piece for (CType, Option<Name>) {
    ghost test = { λ room param. param_formed param };

    fn is_formed(&self, room: usize) -> bool {
        is_named_if_any(&self.1)
    }
}

#[tactic(auto, using(crate::proofs::Tested::list_all_map))]
fn is_body_formed(body: &Option<Body>, room: usize) -> bool
    ensures { result ≡ body_formed room (maybe_body_of body.now) }
{
    match body {
        None => true,
        Some(body) => {
            all_formed(body.locals.as_slice(), room) && all_formed(body.stmts.as_slice(), room)
        }
    }
}

impl Piece for Item {
    ghost test = { λ room item. item_formed room (item_of item) };

    fn is_formed(&self, room: usize) -> bool {
        match self {
            Item::Array(name, count, bytes) => {
                is_name(name.as_slice()) && is_array_formed(*count, bytes.as_slice())
            }
            Item::Var(_, name, value) => is_name(name.as_slice()) && is_value_formed(*value),
            Item::Func(func) => is_name(func.name.as_slice()) && is_function_formed(func, room),
        }
    }
}

fn is_array_formed(count: u64, bytes: &[u8]) -> bool
    ensures { result ≡ (nat_lt count (2 ^ 32) && bytes_formed bytes.now) }
{
    count < 4_294_967_296 && 0 < bytes.len()
}

fn is_function_formed(func: &Func, room: usize) -> bool
    ensures { result ≡ (nat_lt 0 (length func.now.params)
        && (list_all param_formed func.now.params && body_formed room (maybe_body_of func.now.body))) }
{
    if func.params.len() == 0 {
        return false;
    }
    all_formed(func.params.as_slice(), room) && is_body_formed(&func.body, room)
}

fn is_value_formed(value: Option<Num>) -> bool
    ensures { result ≡ value_formed value }
{
    match value {
        None => true,
        Some(n) => number_fits(n),
    }
}
