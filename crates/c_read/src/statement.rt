// Statements.
ghost use Rattle.std.specs.Prelude.{◌≡◌, ◌<◌, ◌≤◌, length, map, OnOk};
ghost use Rattle.c_tree.specs.View.{stmt_of};
ghost use Rattle.c_lex.specs.Reading.{Reads};
ghost use Rattle.c_read.specs.Arguments.{right_of};
ghost use Rattle.c_read.specs.Statements as spec;
ghost use Rattle.c_read.specs.Statements.{option_of};

use crate::argument::{argument, arguments};
use crate::call::{Right, right_in, through};
use crate::expression::{expr, operator};
use crate::together::{before, both};
use c_lex::Cursor;
use c_tree::{Arg, CReadFault, Callee, Cases, DEPTH, Kind, Name, Num, Part, Stmt, Stmts, Tok};
use std::alloc::Global;

/// A goto. It gives the label.
#[tactic(auto, unfolding(crate::specs::Statements::jump))]
fn jump(alloc: Global, cursor: &mut Cursor<'_>) -> Result<Name, CReadFault>
    ensures reads { Reads (λ x. x) (spec.jump cursor.old) result cursor.new }
    ensures shorter { OnOk result (length cursor.new < length cursor.old) }
    ensures kept { length cursor.new ≤ length cursor.old }
{
    cursor.expect(Tok::WordGoto)?;
    let label = cursor.name(alloc)?;
    cursor.expect(Tok::Semicolon)?;
    Ok(label)
}

fn assigned(name: Name, right: Right) -> Stmt
    ensures { stmt_of result ≡ spec.assigned name (right_of right) }
{
    match right {
        Right::Gives(arg) => Stmt::Set(name, arg),
        Right::Calls(called) => Stmt::Call(Some(name), called.callee, called.args),
    }
}

/// What follows a name: a label's colon, a right side, or the arguments of a call.
#[tactic(auto, unfolding(crate::specs::Statements::after, crate::specs::Arguments::depth))]
fn after(alloc: Global, cursor: &mut Cursor<'_>, name: Name) -> Result<Stmt, CReadFault>
    ensures reads { Reads stmt_of (spec.after name cursor.old) result cursor.new }
    ensures kept { length cursor.new ≤ length cursor.old }
{
    match cursor.peek() {
        Kind::Fixed(Tok::Colon) => {
            cursor.take(Tok::Colon);
            Ok(Stmt::Label(name))
        }
        Kind::Fixed(Tok::Assign) => {
            cursor.take(Tok::Assign);
            let right = right_in(alloc, cursor, DEPTH - 1)?;
            let right = before(right, cursor.expect(Tok::Semicolon))?;
            Ok(assigned(name, right))
        }
        Kind::Fixed(Tok::LeftParen) => {
            cursor.take(Tok::LeftParen);
            let args = arguments(alloc, cursor, DEPTH)?;
            let args = before(args, cursor.expect(Tok::RightParen))?;
            let args = before(args, cursor.expect(Tok::Semicolon))?;
            Ok(Stmt::Call(None, Callee::Named(name), args))
        }
        _ => Err(cursor.refuse(Part::InAfter)),
    }
}

/// What a return gives, if anything.
#[tactic(auto, unfolding(crate::specs::Statements::returned, crate::specs::Arguments::depth))]
fn returned(alloc: Global, cursor: &mut Cursor<'_>) -> Result<Option<Arg>, CReadFault>
    ensures reads { Reads option_of (spec.returned cursor.old) result cursor.new }
    ensures kept { length cursor.new ≤ length cursor.old }
{
    match cursor.peek() {
        Kind::Fixed(Tok::Semicolon) => Ok(None),
        _ => Ok(Some(argument(alloc, cursor, DEPTH)?)),
    }
}

fn return_of(arg: Option<Arg>) -> Stmt
    ensures { stmt_of result ≡ spec.return_of (option_of arg) }
{
    match arg {
        None => Stmt::ReturnNone,
        Some(arg) => Stmt::Return(arg),
    }
}

fn is_case(kind: Kind) -> bool
    ensures { result ≡ spec.is_case kind }
{
    matches!(kind, Kind::Fixed(Tok::WordCase))
}

#[tactic(auto, unfolding(crate::specs::Statements::one_case))]
fn one_case(alloc: Global, cursor: &mut Cursor<'_>) -> Result<(Num, Name), CReadFault>
    ensures reads { Reads (λ x. x) (spec.one_case cursor.old) result cursor.new }
    ensures shorter { OnOk result (length cursor.new < length cursor.old) }
    ensures kept { length cursor.new ≤ length cursor.old }
{
    cursor.expect(Tok::WordCase)?;
    let num = cursor.number()?;
    cursor.expect(Tok::Colon)?;
    let label = jump(alloc, cursor)?;
    Ok((num, label))
}

/// The cases of a switch up to its default.
fn cases(alloc: Global, cursor: &mut Cursor<'_>) -> Result<Cases, CReadFault>
    ensures reads { Reads (λ x. x) (spec.cases cursor.old) result cursor.new }
    ensures kept { length cursor.new ≤ length cursor.old }
{
    let mut cases = Cases::new(alloc);
    'more: while is_case(cursor.peek()) {
        let case = one_case(alloc, cursor)?;
        cases.push(case)?;
    }
    Ok(cases)
}

/// The default of a switch. It gives the label.
#[tactic(auto, unfolding(crate::specs::Statements::default))]
fn default(alloc: Global, cursor: &mut Cursor<'_>) -> Result<Name, CReadFault>
    ensures reads { Reads (λ x. x) (spec.default cursor.old) result cursor.new }
    ensures kept { length cursor.new ≤ length cursor.old }
{
    match cursor.peek() {
        Kind::Fixed(Tok::WordDefault) => {
            cursor.take(Tok::WordDefault);
            cursor.expect(Tok::Colon)?;
            jump(alloc, cursor)
        }
        _ => Err(cursor.refuse(Part::InCases)),
    }
}

/// A switch behind its key word.
#[tactic(auto, unfolding(crate::specs::Statements::switch, crate::specs::Arguments::depth))]
fn switch(alloc: Global, cursor: &mut Cursor<'_>) -> Result<Stmt, CReadFault>
    ensures reads { Reads stmt_of (spec.switch cursor.old) result cursor.new }
    ensures kept { length cursor.new ≤ length cursor.old }
{
    cursor.expect(Tok::LeftParen)?;
    let selector = expr(alloc, cursor, DEPTH)?;
    let selector = before(selector, cursor.expect(Tok::RightParen))?;
    let selector = before(selector, cursor.expect(Tok::LeftBrace))?;
    let (selector, cases) = both(selector, cases(alloc, cursor))?;
    let ((selector, cases), label) = both((selector, cases), default(alloc, cursor))?;
    let switch = Stmt::Switch(selector, cases, label);
    let switch = before(switch, cursor.expect(Tok::RightBrace))?;
    Ok(switch)
}

/// A condition and its goto, behind the key word.
#[tactic(auto, unfolding(crate::specs::Statements::condition, crate::specs::Arguments::depth))]
fn condition(alloc: Global, cursor: &mut Cursor<'_>) -> Result<Stmt, CReadFault>
    ensures reads { Reads stmt_of (spec.condition cursor.old) result cursor.new }
    ensures kept { length cursor.new ≤ length cursor.old }
{
    cursor.expect(Tok::LeftParen)?;
    let left = expr(alloc, cursor, DEPTH)?;
    let (left, op) = both(left, operator(cursor))?;
    let (left, right) = both(left, expr(alloc, cursor, DEPTH))?;
    let sides = before((left, right), cursor.expect(Tok::RightParen))?;
    let ((left, right), label) = both(sides, jump(alloc, cursor))?;
    Ok(Stmt::If(op, left, right, label))
}

/// An assignment through a pointer, behind its star.
#[tactic(auto, unfolding(crate::specs::Statements::set_star, crate::specs::Arguments::depth))]
fn set_star(alloc: Global, cursor: &mut Cursor<'_>) -> Result<Stmt, CReadFault>
    ensures reads { Reads stmt_of (spec.set_star cursor.old) result cursor.new }
    ensures kept { length cursor.new ≤ length cursor.old }
{
    let name = cursor.name(alloc)?;
    cursor.expect(Tok::Assign)?;
    let value = expr(alloc, cursor, DEPTH)?;
    let value = before(value, cursor.expect(Tok::Semicolon))?;
    Ok(Stmt::SetStar(name, value))
}

/// A call through a name, behind its parenthesis.
#[tactic(auto, unfolding(crate::specs::Statements::call_through, crate::specs::Arguments::depth))]
fn call_through(alloc: Global, cursor: &mut Cursor<'_>) -> Result<Stmt, CReadFault>
    ensures reads { Reads stmt_of (spec.call_through cursor.old) result cursor.new }
    ensures kept { length cursor.new ≤ length cursor.old }
{
    cursor.expect(Tok::Star)?;
    let called = through(alloc, cursor, DEPTH)?;
    let called = before(called, cursor.expect(Tok::Semicolon))?;
    Ok(Stmt::Call(None, called.callee, called.args))
}

/// A statement.
#[tactic(auto, unfolding(crate::specs::Statements::statement))]
fn statement(alloc: Global, cursor: &mut Cursor<'_>) -> Result<Stmt, CReadFault>
    ensures reads { Reads stmt_of (spec.statement cursor.old) result cursor.new }
    ensures shorter { OnOk result (length cursor.new < length cursor.old) }
    ensures kept { length cursor.new ≤ length cursor.old }
{
    match cursor.peek() {
        Kind::Fixed(Tok::Semicolon) => {
            cursor.take(Tok::Semicolon);
            Ok(Stmt::Null)
        }
        Kind::Name => {
            let name = cursor.name(alloc)?;
            after(alloc, cursor, name)
        }
        Kind::Fixed(Tok::Star) => {
            cursor.take(Tok::Star);
            set_star(alloc, cursor)
        }
        Kind::Fixed(Tok::LeftParen) => {
            cursor.take(Tok::LeftParen);
            call_through(alloc, cursor)
        }
        Kind::Fixed(Tok::WordGoto) => Ok(Stmt::Goto(jump(alloc, cursor)?)),
        Kind::Fixed(Tok::WordIf) => {
            cursor.take(Tok::WordIf);
            condition(alloc, cursor)
        }
        Kind::Fixed(Tok::WordSwitch) => {
            cursor.take(Tok::WordSwitch);
            switch(alloc, cursor)
        }
        Kind::Fixed(Tok::WordReturn) => {
            cursor.take(Tok::WordReturn);
            let arg = returned(alloc, cursor)?;
            let arg = before(arg, cursor.expect(Tok::Semicolon))?;
            Ok(return_of(arg))
        }
        _ => Err(cursor.refuse(Part::InStatement)),
    }
}

fn not_brace(kind: Kind) -> bool
    ensures { result ≡ spec.not_brace kind }
{
    !matches!(kind, Kind::Fixed(Tok::RightBrace))
}

/// Statements up to a brace.
pub fn statements(alloc: Global, cursor: &mut Cursor<'_>) -> Result<Stmts, CReadFault>
    ensures reads { Reads (λ xs. map stmt_of xs) (spec.statements cursor.old) result cursor.new }
    ensures kept { length cursor.new ≤ length cursor.old }
{
    let mut stmts = Stmts::new(alloc);
    'more: while not_brace(cursor.peek()) {
        let stmt = statement(alloc, cursor)?;
        stmts.push(stmt)?;
    }
    Ok(stmts)
}
