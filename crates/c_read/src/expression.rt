// Expressions, where so many may stand inside one another.
ghost use Rattle.std.specs.Prelude.{◌≡◌, ◌<◌, ◌≤◌, false, length, IfSome};
ghost use Rattle.c_tree.specs.Tokens.{Fixed};
ghost use Rattle.c_tree.specs.View.{expr_of};
ghost use Rattle.c_lex.specs.Cursor.{is_last};
ghost use Rattle.c_lex.specs.Reading.{Reads};
ghost use Rattle.c_read.specs.Expressions as spec;

use crate::together::{before, both};
use c_lex::Cursor;
use c_tree::{COp, CReadFault, Expr, Kind, Name, Part, Tok};
use std::alloc::Global;

/// The operator of a sign.
fn op_of(tok: Tok) -> Option<COp>
    ensures op { result ≡ spec.op_of tok }
    ensures sign { IfSome result (λ op. is_last (Fixed tok) ≡ false) }
{
    match tok {
        Tok::Plus => Some(COp::Add),
        Tok::Minus => Some(COp::Sub),
        Tok::Star => Some(COp::Mul),
        Tok::Slash => Some(COp::Div),
        Tok::Percent => Some(COp::Rem),
        Tok::Amp => Some(COp::And),
        Tok::Bar => Some(COp::Or),
        Tok::Caret => Some(COp::Xor),
        Tok::ShiftLeft => Some(COp::Shl),
        Tok::ShiftRight => Some(COp::Shr),
        Tok::Equal => Some(COp::Eq),
        Tok::NotEqual => Some(COp::Ne),
        Tok::Less => Some(COp::Lt),
        Tok::LessEqual => Some(COp::Le),
        Tok::Greater => Some(COp::Gt),
        Tok::GreaterEqual => Some(COp::Ge),
        _ => None,
    }
}

#[tactic(auto, unfolding(crate::specs::Expressions::operator))]
pub fn operator(cursor: &mut Cursor<'_>) -> Result<COp, CReadFault>
    ensures reads { Reads (λ x. x) (spec.operator cursor.old) result cursor.new }
    ensures kept { length cursor.new ≤ length cursor.old }
{
    let Kind::Fixed(tok) = cursor.peek() else {
        return Err(cursor.refuse(Part::InOperator));
    };
    let Some(op) = op_of(tok) else {
        return Err(cursor.refuse(Part::InOperator));
    };
    cursor.take(tok);
    Ok(op)
}

/// What follows a name: an index, or nothing.
#[cycle(expression)]
#[tactic(auto, unfolding(crate::specs::Expressions::index))]
pub fn index(
    alloc: Global,
    cursor: &mut Cursor<'_>,
    room: usize,
    name: Name,
) -> Result<Expr, CReadFault>
    ensures reads { Reads expr_of (spec.index (spec.expr room) name cursor.old) result cursor.new }
    ensures kept { length cursor.new ≤ length cursor.old }
{
    match cursor.peek() {
        Kind::Fixed(Tok::LeftBracket) => {
            cursor.take(Tok::LeftBracket);
            let index = Box::new(alloc, expr(alloc, cursor, room)?)?;
            let index = before(index, cursor.expect(Tok::RightBracket))?;
            Ok(Expr::At(name, index))
        }
        _ => Ok(Expr::Name(name)),
    }
}

/// Two expressions with an operator between them, behind their parenthesis.
#[cycle(expression)]
#[tactic(auto, unfolding(crate::specs::Expressions::operation))]
fn operation(alloc: Global, cursor: &mut Cursor<'_>, room: usize) -> Result<Expr, CReadFault>
    ensures reads { Reads expr_of (spec.operation (spec.expr room) cursor.old) result cursor.new }
    ensures kept { length cursor.new ≤ length cursor.old }
{
    let left = Box::new(alloc, expr(alloc, cursor, room)?)?;
    let (left, op) = both(left, operator(cursor))?;
    let (left, right) = both(left, expr(alloc, cursor, room))?;
    let sides = before((left, right), cursor.expect(Tok::RightParen))?;
    let (left, right) = sides;
    Ok(Expr::Op(op, left, Box::new(alloc, right)?))
}

/// What stands behind a parenthesis, in a part that has it as its own: where nothing of it begins,
/// the fault names that part.
#[cycle(expression)]
#[tactic(auto, unfolding(crate::specs::Expressions::group))]
pub fn group(
    alloc: Global,
    cursor: &mut Cursor<'_>,
    part: Part,
    room: usize,
) -> Result<Expr, CReadFault>
    ensures reads { Reads expr_of (spec.group part (spec.expr room) cursor.old) result cursor.new }
    ensures kept { length cursor.new ≤ length cursor.old }
{
    match cursor.peek() {
        Kind::Fixed(Tok::WordU32) => {
            cursor.take(Tok::WordU32);
            cursor.expect(Tok::RightParen)?;
            Ok(Expr::To32(Box::new(alloc, expr(alloc, cursor, room)?)?))
        }
        Kind::Fixed(Tok::WordU64) => {
            cursor.take(Tok::WordU64);
            cursor.expect(Tok::RightParen)?;
            Ok(Expr::To64(Box::new(alloc, expr(alloc, cursor, room)?)?))
        }
        Kind::Fixed(Tok::Star) => {
            cursor.take(Tok::Star);
            let name = cursor.name(alloc)?;
            cursor.expect(Tok::RightParen)?;
            Ok(Expr::Star(name))
        }
        Kind::Name | Kind::Number(_) | Kind::Fixed(Tok::LeftParen) => {
            operation(alloc, cursor, room)
        }
        _ => Err(cursor.refuse(part)),
    }
}

/// An expression, with room for so many others inside it.
#[cycle(expression)]
#[tactic(auto, unfolding(crate::specs::Expressions::expr_of_parts))]
fn expr_of_parts(alloc: Global, cursor: &mut Cursor<'_>, room: usize) -> Result<Expr, CReadFault>
    ensures reads { Reads expr_of (spec.expr_of_parts (spec.expr room) cursor.old) result cursor.new }
    ensures kept { length cursor.new ≤ length cursor.old }
{
    match cursor.peek() {
        Kind::Name => {
            let name = cursor.name(alloc)?;
            index(alloc, cursor, room, name)
        }
        Kind::Number(_) => Ok(Expr::Num(cursor.number()?)),
        Kind::Fixed(Tok::LeftParen) => {
            cursor.take(Tok::LeftParen);
            group(alloc, cursor, Part::InGroup, room)
        }
        _ => Err(cursor.refuse(Part::InExpr)),
    }
}

/// Whether an expression begins with such a token.
pub fn begins_expr(kind: Kind) -> bool
    ensures { result ≡ spec.begins_expr kind }
{
    matches!(
        kind,
        Kind::Name | Kind::Number(_) | Kind::Fixed(Tok::LeftParen)
    )
}

/// The fault where no more expressions may stand inside one another.
fn expr_without_room(cursor: &Cursor<'_>) -> CReadFault
    ensures { result ≡ spec.fault_without_room spec.begins_expr Part.InExpr cursor.now }
{
    if begins_expr(cursor.peek()) {
        return cursor.too_deep();
    }
    cursor.refuse(Part::InExpr)
}

/// An expression, where so many may stand inside one another.
#[cycle(expression)]
#[tactic(auto, using(crate::proofs::Deeper::no_room, crate::proofs::Deeper::some_room))]
pub fn expr(alloc: Global, cursor: &mut Cursor<'_>, room: usize) -> Result<Expr, CReadFault>
    ensures reads { Reads expr_of (spec.expr room cursor.old) result cursor.new }
    ensures kept { length cursor.new ≤ length cursor.old }
{
    if room == 0 {
        return Err(expr_without_room(cursor));
    }
    expr_of_parts(alloc, cursor, room - 1)
}
