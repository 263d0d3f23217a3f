// Items: arrays, variables and functions.
ghost use Rattle.std.specs.Prelude.{◌≡◌, ◌<◌, ◌≤◌, length, OnOk};
ghost use Rattle.c_tree.specs.View.{item_of};
ghost use Rattle.c_lex.specs.Reading.{Reads};
ghost use Rattle.c_read.specs.Items as spec;

use crate::ctype::{ctype, is_comma};
use crate::function::{begins_type, function};
use c_lex::Cursor;
use c_tree::{CReadFault, CType, Item, Kind, Name, Part, Tok};
use std::alloc::Global;
use w2c_base::Bytes;

/// A byte of an array.
#[tactic(auto, unfolding(crate::specs::Items::byte))]
fn byte(cursor: &mut Cursor<'_>) -> Result<u8, CReadFault>
    ensures reads { Reads (λ x. x) (spec.byte cursor.old) result cursor.new }
    ensures kept { length cursor.new ≤ length cursor.old }
{
    let n = cursor.plain(256)?;
    Ok(n as u8)
}

#[tactic(auto, unfolding(crate::specs::Items::next_byte))]
fn next_byte(cursor: &mut Cursor<'_>) -> Result<u8, CReadFault>
    ensures reads { Reads (λ x. x) (spec.next_byte cursor.old) result cursor.new }
    ensures shorter { OnOk result (length cursor.new < length cursor.old) }
    ensures kept { length cursor.new ≤ length cursor.old }
{
    cursor.expect(Tok::Comma)?;
    byte(cursor)
}

/// A byte that was read, and each behind a comma.
fn more_bytes(alloc: Global, cursor: &mut Cursor<'_>, first: u8) -> Result<Bytes, CReadFault>
    ensures reads { Reads (λ x. x) (spec.more_bytes first cursor.old) result cursor.new }
    ensures kept { length cursor.new ≤ length cursor.old }
{
    let mut bytes = Bytes::new(alloc);
    bytes.push(first)?;
    'more: while is_comma(cursor.peek()) {
        let byte = next_byte(cursor)?;
        bytes.push(byte)?;
    }
    Ok(bytes)
}

#[tactic(auto, unfolding(crate::specs::Items::array_bytes))]
fn array_bytes(alloc: Global, cursor: &mut Cursor<'_>) -> Result<Bytes, CReadFault>
    ensures reads { Reads (λ x. x) (spec.array_bytes cursor.old) result cursor.new }
    ensures kept { length cursor.new ≤ length cursor.old }
{
    let first = byte(cursor)?;
    more_bytes(alloc, cursor, first)
}

/// An array behind the word `static`.
#[tactic(auto, unfolding(crate::specs::Items::array))]
fn array(alloc: Global, cursor: &mut Cursor<'_>) -> Result<Item, CReadFault>
    ensures reads { Reads item_of (spec.array cursor.old) result cursor.new }
    ensures kept { length cursor.new ≤ length cursor.old }
{
    cursor.expect(Tok::WordConst)?;
    cursor.expect(Tok::WordU8)?;
    let name = cursor.name(alloc)?;
    cursor.expect(Tok::LeftBracket)?;
    let count = cursor.plain(4_294_967_296)?;
    cursor.expect(Tok::RightBracket)?;
    cursor.expect(Tok::Assign)?;
    cursor.expect(Tok::LeftBrace)?;
    let bytes = array_bytes(alloc, cursor)?;
    cursor.expect(Tok::RightBrace)?;
    cursor.expect(Tok::Semicolon)?;
    Ok(Item::Array(name, count, bytes))
}

/// What follows the type and the name of what is static.
#[tactic(auto, unfolding(crate::specs::Items::rest))]
fn rest(alloc: Global, cursor: &mut Cursor<'_>, ty: CType, name: Name) -> Result<Item, CReadFault>
    ensures reads { Reads item_of (spec.rest ty name cursor.old) result cursor.new }
    ensures kept { length cursor.new ≤ length cursor.old }
{
    match cursor.peek() {
        Kind::Fixed(Tok::Semicolon) => {
            cursor.take(Tok::Semicolon);
            Ok(Item::Var(ty, name, None))
        }
        Kind::Fixed(Tok::Assign) => {
            cursor.take(Tok::Assign);
            let value = cursor.number()?;
            cursor.expect(Tok::Semicolon)?;
            Ok(Item::Var(ty, name, Some(value)))
        }
        Kind::Fixed(Tok::LeftParen) => {
            cursor.take(Tok::LeftParen);
            function(alloc, cursor, true, ty, name)
        }
        _ => Err(cursor.refuse(Part::InRest)),
    }
}

/// A static variable or function behind the word `static`.
#[tactic(auto, unfolding(crate::specs::Items::static_rest))]
fn static_rest(alloc: Global, cursor: &mut Cursor<'_>) -> Result<Item, CReadFault>
    ensures reads { Reads item_of (spec.static_rest cursor.old) result cursor.new }
    ensures kept { length cursor.new ≤ length cursor.old }
{
    let ty = ctype(cursor)?;
    let name = cursor.name(alloc)?;
    rest(alloc, cursor, ty, name)
}

/// What stands behind the word `static`.
#[tactic(auto, unfolding(crate::specs::Items::inner))]
fn inner(alloc: Global, cursor: &mut Cursor<'_>) -> Result<Item, CReadFault>
    ensures reads { Reads item_of (spec.inner cursor.old) result cursor.new }
    ensures kept { length cursor.new ≤ length cursor.old }
{
    let kind = cursor.peek();
    if begins_type(kind) {
        return static_rest(alloc, cursor);
    }
    match kind {
        Kind::Fixed(Tok::WordConst) => array(alloc, cursor),
        _ => Err(cursor.refuse(Part::InInner)),
    }
}

/// A function that is not static.
#[tactic(auto, unfolding(crate::specs::Items::external))]
fn external(alloc: Global, cursor: &mut Cursor<'_>) -> Result<Item, CReadFault>
    ensures reads { Reads item_of (spec.external cursor.old) result cursor.new }
    ensures shorter { OnOk result (length cursor.new < length cursor.old) }
    ensures kept { length cursor.new ≤ length cursor.old }
{
    let ty = ctype(cursor)?;
    let name = cursor.name(alloc)?;
    cursor.expect(Tok::LeftParen)?;
    function(alloc, cursor, false, ty, name)
}

/// An item.
#[tactic(auto, unfolding(crate::specs::Items::item))]
pub fn item(alloc: Global, cursor: &mut Cursor<'_>) -> Result<Item, CReadFault>
    ensures reads { Reads item_of (spec.item cursor.old) result cursor.new }
    ensures shorter { OnOk result (length cursor.new < length cursor.old) }
    ensures kept { length cursor.new ≤ length cursor.old }
{
    let kind = cursor.peek();
    if begins_type(kind) {
        return external(alloc, cursor);
    }
    match kind {
        Kind::Fixed(Tok::WordStatic) => {
            cursor.take(Tok::WordStatic);
            inner(alloc, cursor)
        }
        _ => Err(cursor.refuse(Part::InItem)),
    }
}
