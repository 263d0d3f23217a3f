// Calls through a name, and right sides.
ghost use Rattle.std.specs.Prelude.{◌≡◌, ◌≤◌, length};
ghost use Rattle.c_tree.specs.View.{func_type_of};
ghost use Rattle.c_lex.specs.Reading.{Reads};
ghost use Rattle.c_read.specs.Arguments as spec;
ghost use Rattle.c_read.specs.Arguments.{called_of, right_of};

use crate::argument::{agroup, arguments};
use crate::ctype::{ctype, types};
use crate::expression::index;
use crate::together::{before, both};
use c_lex::Cursor;
use c_tree::{Arg, Args, CFuncType, CReadFault, Callee, Expr, Kind, Name, Part, Tok};
use std::alloc::Global;

/// What is called, and with which arguments.
#[derive(Drop)]
pub struct Called {
    pub callee: Callee,
    pub args: Args,
}

/// What is assigned to a name: an argument, or what a call gives.
#[derive(Drop)]
pub enum Right {
    Gives(Arg),
    Calls(Called),
}

/// The type of what is called through a name, from its parenthesis on.
#[tactic(auto, unfolding(crate::specs::Arguments::pointer_type))]
fn pointer_type(alloc: Global, cursor: &mut Cursor<'_>) -> Result<CFuncType, CReadFault>
    ensures reads { Reads func_type_of (spec.pointer_type cursor.old) result cursor.new }
    ensures kept { length cursor.new ≤ length cursor.old }
{
    cursor.expect(Tok::LeftParen)?;
    let result = ctype(cursor)?;
    cursor.expect(Tok::LeftParen)?;
    cursor.expect(Tok::Star)?;
    cursor.expect(Tok::RightParen)?;
    cursor.expect(Tok::LeftParen)?;
    let params = types(alloc, cursor)?;
    cursor.expect(Tok::RightParen)?;
    cursor.expect(Tok::RightParen)?;
    Ok(CFuncType { params, result })
}

/// A call through a name, behind its parenthesis and star.
#[tactic(auto, unfolding(crate::specs::Arguments::through))]
pub fn through(alloc: Global, cursor: &mut Cursor<'_>, room: usize) -> Result<Called, CReadFault>
    ensures reads { Reads called_of (spec.through room cursor.old) result cursor.new }
    ensures kept { length cursor.new ≤ length cursor.old }
{
    let ty = pointer_type(alloc, cursor)?;
    let (ty, name) = both(ty, cursor.name(alloc))?;
    let callee = Callee::Through(ty, name);
    let callee = before(callee, cursor.expect(Tok::RightParen))?;
    let callee = before(callee, cursor.expect(Tok::LeftParen))?;
    let (callee, args) = both(callee, arguments(alloc, cursor, room))?;
    let called = before(Called { callee, args }, cursor.expect(Tok::RightParen))?;
    Ok(called)
}

/// What follows a name on a right side: an index, arguments, or nothing.
#[tactic(auto, unfolding(crate::specs::Arguments::rname, crate::specs::Expressions::index))]
fn rname(
    alloc: Global,
    cursor: &mut Cursor<'_>,
    room: usize,
    name: Name,
) -> Result<Right, CReadFault>
    ensures reads { Reads right_of (spec.rname room name cursor.old) result cursor.new }
    ensures kept { length cursor.new ≤ length cursor.old }
{
    match cursor.peek() {
        Kind::Fixed(Tok::LeftParen) => {
            cursor.take(Tok::LeftParen);
            let args = arguments(alloc, cursor, room)?;
            let args = before(args, cursor.expect(Tok::RightParen))?;
            Ok(Right::Calls(Called {
                callee: Callee::Named(name),
                args,
            }))
        }
        _ => Ok(Right::Gives(Arg::Value(index(alloc, cursor, room, name)?))),
    }
}

/// What stands behind a parenthesis and a star: a name, or a call through one.
#[tactic(auto, unfolding(crate::specs::Arguments::rstar))]
fn rstar(alloc: Global, cursor: &mut Cursor<'_>, room: usize) -> Result<Right, CReadFault>
    ensures reads { Reads right_of (spec.rstar room cursor.old) result cursor.new }
    ensures kept { length cursor.new ≤ length cursor.old }
{
    match cursor.peek() {
        Kind::Name => {
            let name = cursor.name(alloc)?;
            cursor.expect(Tok::RightParen)?;
            Ok(Right::Gives(Arg::Value(Expr::Star(name))))
        }
        Kind::Fixed(Tok::LeftParen) => Ok(Right::Calls(through(alloc, cursor, room)?)),
        _ => Err(cursor.refuse(Part::InRstar)),
    }
}

#[tactic(auto, unfolding(crate::specs::Arguments::rgroup))]
fn rgroup(alloc: Global, cursor: &mut Cursor<'_>, room: usize) -> Result<Right, CReadFault>
    ensures reads { Reads right_of (spec.rgroup room cursor.old) result cursor.new }
    ensures kept { length cursor.new ≤ length cursor.old }
{
    match cursor.peek() {
        Kind::Fixed(Tok::Star) => {
            cursor.take(Tok::Star);
            rstar(alloc, cursor, room)
        }
        _ => Ok(Right::Gives(agroup(alloc, cursor, Part::InRgroup, room)?)),
    }
}

/// A right side, with room for so many expressions inside it.
#[tactic(auto, unfolding(crate::specs::Arguments::right_in))]
pub fn right_in(alloc: Global, cursor: &mut Cursor<'_>, room: usize) -> Result<Right, CReadFault>
    ensures reads { Reads right_of (spec.right_in room cursor.old) result cursor.new }
    ensures kept { length cursor.new ≤ length cursor.old }
{
    match cursor.peek() {
        Kind::Name => {
            let name = cursor.name(alloc)?;
            rname(alloc, cursor, room, name)
        }
        Kind::Number(_) => Ok(Right::Gives(Arg::Value(Expr::Num(cursor.number()?)))),
        Kind::Fixed(Tok::Amp) => {
            cursor.take(Tok::Amp);
            Ok(Right::Gives(Arg::Address(cursor.name(alloc)?)))
        }
        Kind::Fixed(Tok::LeftParen) => {
            cursor.take(Tok::LeftParen);
            rgroup(alloc, cursor, room)
        }
        _ => Err(cursor.refuse(Part::InRight)),
    }
}
