// Functions from their parameters on.
ghost use Rattle.std.specs.Prelude.{◌≡◌, ◌<◌, ◌≤◌, length, OnOk};
ghost use Rattle.c_tree.specs.Grammar.{begins_type};
ghost use Rattle.c_tree.specs.View.{body_of, maybe_body_of, item_of};
ghost use Rattle.c_lex.specs.Reading.{Reads};
ghost use Rattle.c_read.specs.Items as spec;

use crate::ctype::{ctype, is_comma};
use crate::statement::statements;
use c_lex::Cursor;
use c_tree::{Body, CReadFault, CType, Func, Item, Kind, Locals, Name, Num, Params, Part, Tok};
use std::alloc::Global;

/// The name of a parameter, if it has one.
#[tactic(auto, unfolding(crate::specs::Items::pname))]
fn pname(alloc: Global, cursor: &mut Cursor<'_>) -> Result<Option<Name>, CReadFault>
    ensures reads { Reads (λ x. x) (spec.pname cursor.old) result cursor.new }
    ensures kept { length cursor.new ≤ length cursor.old }
{
    match cursor.peek() {
        Kind::Name => Ok(Some(cursor.name(alloc)?)),
        _ => Ok(None),
    }
}

#[tactic(auto, unfolding(crate::specs::Items::param))]
fn param(alloc: Global, cursor: &mut Cursor<'_>) -> Result<(CType, Option<Name>), CReadFault>
    ensures reads { Reads (λ x. x) (spec.param cursor.old) result cursor.new }
    ensures kept { length cursor.new ≤ length cursor.old }
{
    let ty = ctype(cursor)?;
    let name = pname(alloc, cursor)?;
    Ok((ty, name))
}

#[tactic(auto, unfolding(crate::specs::Items::next_param))]
fn next_param(alloc: Global, cursor: &mut Cursor<'_>) -> Result<(CType, Option<Name>), CReadFault>
    ensures reads { Reads (λ x. x) (spec.next_param cursor.old) result cursor.new }
    ensures shorter { OnOk result (length cursor.new < length cursor.old) }
    ensures kept { length cursor.new ≤ length cursor.old }
{
    cursor.expect(Tok::Comma)?;
    param(alloc, cursor)
}

/// A parameter that was read, and each behind a comma.
fn more_params(
    alloc: Global,
    cursor: &mut Cursor<'_>,
    first: (CType, Option<Name>),
) -> Result<Params, CReadFault>
    ensures reads { Reads (λ x. x) (spec.more_params first cursor.old) result cursor.new }
    ensures kept { length cursor.new ≤ length cursor.old }
{
    let mut params = Params::new(alloc);
    params.push(first)?;
    'more: while is_comma(cursor.peek()) {
        let param = next_param(alloc, cursor)?;
        params.push(param)?;
    }
    Ok(params)
}

/// Parameters with commas between.
#[tactic(auto, unfolding(crate::specs::Items::params))]
fn params(alloc: Global, cursor: &mut Cursor<'_>) -> Result<Params, CReadFault>
    ensures reads { Reads (λ x. x) (spec.params cursor.old) result cursor.new }
    ensures kept { length cursor.new ≤ length cursor.old }
{
    let first = param(alloc, cursor)?;
    more_params(alloc, cursor, first)
}

/// Whether a type comes.
pub fn begins_type(kind: Kind) -> bool
    ensures { result ≡ begins_type kind }
{
    matches!(
        kind,
        Kind::Fixed(
            Tok::WordVoid
                | Tok::WordU32
                | Tok::WordU64
                | Tok::WordW2cMem
                | Tok::WordW2cTab
                | Tok::WordW2cFn
        )
    )
}

/// The declaration of a local variable.
#[tactic(auto, unfolding(crate::specs::Items::declaration))]
fn declaration(alloc: Global, cursor: &mut Cursor<'_>) -> Result<(CType, Name, Num), CReadFault>
    ensures reads { Reads (λ x. x) (spec.declaration cursor.old) result cursor.new }
    ensures shorter { OnOk result (length cursor.new < length cursor.old) }
    ensures kept { length cursor.new ≤ length cursor.old }
{
    let ty = ctype(cursor)?;
    let name = cursor.name(alloc)?;
    cursor.expect(Tok::Assign)?;
    let value = cursor.number()?;
    cursor.expect(Tok::Semicolon)?;
    Ok((ty, name, value))
}

/// Declarations as long as a type comes.
fn declarations(alloc: Global, cursor: &mut Cursor<'_>) -> Result<Locals, CReadFault>
    ensures reads { Reads (λ x. x) (spec.declarations cursor.old) result cursor.new }
    ensures kept { length cursor.new ≤ length cursor.old }
{
    let mut locals = Locals::new(alloc);
    'more: while begins_type(cursor.peek()) {
        let local = declaration(alloc, cursor)?;
        locals.push(local)?;
    }
    Ok(locals)
}

#[tactic(auto, unfolding(crate::specs::Items::body))]
fn body(alloc: Global, cursor: &mut Cursor<'_>) -> Result<Body, CReadFault>
    ensures reads { Reads body_of (spec.body cursor.old) result cursor.new }
    ensures kept { length cursor.new ≤ length cursor.old }
{
    let locals = declarations(alloc, cursor)?;
    let stmts = statements(alloc, cursor)?;
    Ok(Body { locals, stmts })
}

/// What ends a function: a semicolon, or its body in braces.
#[tactic(auto, unfolding(crate::specs::Items::close))]
fn close(alloc: Global, cursor: &mut Cursor<'_>) -> Result<Option<Body>, CReadFault>
    ensures reads { Reads maybe_body_of (spec.close cursor.old) result cursor.new }
    ensures kept { length cursor.new ≤ length cursor.old }
{
    match cursor.peek() {
        Kind::Fixed(Tok::Semicolon) => {
            cursor.take(Tok::Semicolon);
            Ok(None)
        }
        Kind::Fixed(Tok::LeftBrace) => {
            cursor.take(Tok::LeftBrace);
            let body = body(alloc, cursor)?;
            cursor.expect(Tok::RightBrace)?;
            Ok(Some(body))
        }
        _ => Err(cursor.refuse(Part::InClose)),
    }
}

/// A function from its parameters on.
#[tactic(auto, unfolding(crate::specs::Items::function))]
pub fn function(
    alloc: Global,
    cursor: &mut Cursor<'_>,
    is_static: bool,
    ty: CType,
    name: Name,
) -> Result<Item, CReadFault>
    ensures reads { Reads item_of (spec.function is_static ty name cursor.old) result cursor.new }
    ensures kept { length cursor.new ≤ length cursor.old }
{
    let params = params(alloc, cursor)?;
    cursor.expect(Tok::RightParen)?;
    let body = close(alloc, cursor)?;
    Ok(Item::Func(Func {
        is_static,
        result: ty,
        name,
        params,
        body,
    }))
}
