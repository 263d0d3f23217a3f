// Arguments.
ghost use Rattle.std.specs.Prelude.{◌≡◌, ◌<◌, ◌≤◌, length, map, OnOk};
ghost use Rattle.c_tree.specs.View.{arg_of};
ghost use Rattle.c_lex.specs.Reading.{Reads};
ghost use Rattle.c_read.specs.Arguments as spec;
ghost use Rattle.c_read.specs.Expressions as expression;

use crate::ctype::is_comma;
use crate::expression::{begins_expr, expr, group, index};
use c_lex::Cursor;
use c_tree::{Arg, Args, CReadFault, Expr, Kind, Part, Tok};
use std::alloc::Global;

/// What stands behind the parenthesis of an argument: a function as an element of a table, or the
/// rest of an expression. It is of a part that has it as its own: where nothing of it begins, the
/// fault names that part.
#[tactic(auto, unfolding(crate::specs::Arguments::agroup))]
pub fn agroup(
    alloc: Global,
    cursor: &mut Cursor<'_>,
    part: Part,
    room: usize,
) -> Result<Arg, CReadFault>
    ensures reads { Reads arg_of (spec.agroup part room cursor.old) result cursor.new }
    ensures kept { length cursor.new ≤ length cursor.old }
{
    match cursor.peek() {
        Kind::Fixed(Tok::WordW2cFn) => {
            cursor.take(Tok::WordW2cFn);
            cursor.expect(Tok::RightParen)?;
            Ok(Arg::Function(cursor.name(alloc)?))
        }
        _ => Ok(Arg::Value(group(alloc, cursor, part, room)?)),
    }
}

/// An argument, with room for so many expressions inside it.
#[tactic(auto, unfolding(crate::specs::Arguments::argument_in))]
fn argument_in(alloc: Global, cursor: &mut Cursor<'_>, room: usize) -> Result<Arg, CReadFault>
    ensures reads { Reads arg_of (spec.argument_in room cursor.old) result cursor.new }
    ensures kept { length cursor.new ≤ length cursor.old }
{
    match cursor.peek() {
        Kind::Fixed(Tok::Amp) => {
            cursor.take(Tok::Amp);
            Ok(Arg::Address(cursor.name(alloc)?))
        }
        Kind::Fixed(Tok::LeftParen) => {
            cursor.take(Tok::LeftParen);
            agroup(alloc, cursor, Part::InAgroup, room)
        }
        Kind::Name => {
            let name = cursor.name(alloc)?;
            Ok(Arg::Value(index(alloc, cursor, room, name)?))
        }
        Kind::Number(_) => Ok(Arg::Value(Expr::Num(cursor.number()?))),
        _ => Err(cursor.refuse(Part::InArgument)),
    }
}

/// Whether an argument begins with such a token.
fn begins_argument(kind: Kind) -> bool
    ensures { result ≡ spec.begins_argument kind }
{
    matches!(kind, Kind::Fixed(Tok::Amp)) || begins_expr(kind)
}

/// The fault where no more expressions may stand inside one another.
fn argument_without_room(cursor: &Cursor<'_>) -> CReadFault
    ensures { result ≡ expression.fault_without_room spec.begins_argument Part.InArgument cursor.now }
{
    if begins_argument(cursor.peek()) {
        return cursor.too_deep();
    }
    cursor.refuse(Part::InArgument)
}

/// An argument. It counts as an expression.
#[tactic(auto, using(crate::proofs::Deeper::no_argument_room, crate::proofs::Deeper::argument_room))]
pub fn argument(alloc: Global, cursor: &mut Cursor<'_>, room: usize) -> Result<Arg, CReadFault>
    ensures reads { Reads arg_of (spec.argument room cursor.old) result cursor.new }
    ensures kept { length cursor.new ≤ length cursor.old }
{
    if room == 0 {
        return Err(argument_without_room(cursor));
    }
    argument_in(alloc, cursor, room - 1)
}

#[tactic(auto, unfolding(crate::specs::Arguments::next_argument))]
fn next_argument(alloc: Global, cursor: &mut Cursor<'_>, room: usize) -> Result<Arg, CReadFault>
    ensures reads { Reads arg_of (spec.next_argument room cursor.old) result cursor.new }
    ensures shorter { OnOk result (length cursor.new < length cursor.old) }
    ensures kept { length cursor.new ≤ length cursor.old }
{
    cursor.expect(Tok::Comma)?;
    argument(alloc, cursor, room)
}

/// An argument that was read, and each behind a comma.
fn more_arguments(
    alloc: Global,
    cursor: &mut Cursor<'_>,
    room: usize,
    first: Arg,
) -> Result<Args, CReadFault>
    ensures reads { Reads (λ xs. map arg_of xs) (spec.more_arguments room (arg_of first) cursor.old) result cursor.new }
    ensures kept { length cursor.new ≤ length cursor.old }
{
    let mut args = Args::new(alloc);
    args.push(first)?;
    'more: while is_comma(cursor.peek()) {
        let arg = next_argument(alloc, cursor, room)?;
        args.push(arg)?;
    }
    Ok(args)
}

/// The arguments of a call, perhaps none.
#[tactic(auto, unfolding(crate::specs::Arguments::arguments))]
pub fn arguments(alloc: Global, cursor: &mut Cursor<'_>, room: usize) -> Result<Args, CReadFault>
    ensures reads { Reads (λ xs. map arg_of xs) (spec.arguments room cursor.old) result cursor.new }
    ensures kept { length cursor.new ≤ length cursor.old }
{
    match cursor.peek() {
        Kind::Fixed(Tok::RightParen) => Ok(Args::new(alloc)),
        _ => {
            let first = argument(alloc, cursor, room)?;
            more_arguments(alloc, cursor, room, first)
        }
    }
}
