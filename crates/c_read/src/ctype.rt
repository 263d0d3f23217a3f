// Types, and lists of them.
ghost use Rattle.std.specs.Prelude.{◌≡◌, ◌<◌, ◌≤◌, length, OnOk};
ghost use Rattle.c_lex.specs.Reading.{Reads};
ghost use Rattle.c_read.specs.Lists.{is_comma};
ghost use Rattle.c_read.specs.Types as spec;

use c_lex::Cursor;
use c_tree::{CReadFault, CType, CTypes, Kind, Part, Tok};
use std::alloc::Global;

/// A type, or a pointer to it where a star follows.
#[tactic(auto, unfolding(crate::specs::Types::star))]
fn star(cursor: &mut Cursor<'_>, itself: CType, pointer: CType) -> Result<CType, CReadFault>
    ensures reads { Reads (λ x. x) (spec.star itself pointer cursor.old) result cursor.new }
    ensures kept { length cursor.new ≤ length cursor.old }
{
    match cursor.peek() {
        Kind::Fixed(Tok::Star) => {
            cursor.take(Tok::Star);
            Ok(pointer)
        }
        _ => Ok(itself),
    }
}

/// A type.
#[tactic(auto, unfolding(crate::specs::Types::ctype))]
pub fn ctype(cursor: &mut Cursor<'_>) -> Result<CType, CReadFault>
    ensures reads { Reads (λ x. x) (spec.ctype cursor.old) result cursor.new }
    ensures shorter { OnOk result (length cursor.new < length cursor.old) }
    ensures kept { length cursor.new ≤ length cursor.old }
{
    match cursor.peek() {
        Kind::Fixed(Tok::WordVoid) => {
            cursor.take(Tok::WordVoid);
            Ok(CType::Void)
        }
        Kind::Fixed(Tok::WordU32) => {
            cursor.take(Tok::WordU32);
            star(cursor, CType::U32, CType::PtrU32)
        }
        Kind::Fixed(Tok::WordU64) => {
            cursor.take(Tok::WordU64);
            star(cursor, CType::U64, CType::PtrU64)
        }
        Kind::Fixed(Tok::WordW2cMem) => {
            cursor.take(Tok::WordW2cMem);
            star(cursor, CType::Mem, CType::PtrMem)
        }
        Kind::Fixed(Tok::WordW2cTab) => {
            cursor.take(Tok::WordW2cTab);
            star(cursor, CType::Tab, CType::PtrTab)
        }
        Kind::Fixed(Tok::WordW2cFn) => {
            cursor.take(Tok::WordW2cFn);
            Ok(CType::FnPtr)
        }
        _ => Err(cursor.refuse(Part::InType)),
    }
}

/// Whether another piece of a list with commas comes.
pub fn is_comma(kind: Kind) -> bool
    ensures { result ≡ is_comma kind }
{
    matches!(kind, Kind::Fixed(Tok::Comma))
}

#[tactic(auto, unfolding(crate::specs::Types::next_type))]
fn next_type(cursor: &mut Cursor<'_>) -> Result<CType, CReadFault>
    ensures reads { Reads (λ x. x) (spec.next_type cursor.old) result cursor.new }
    ensures shorter { OnOk result (length cursor.new < length cursor.old) }
    ensures kept { length cursor.new ≤ length cursor.old }
{
    cursor.expect(Tok::Comma)?;
    ctype(cursor)
}

/// A type that was read, and each behind a comma.
fn more_types(alloc: Global, cursor: &mut Cursor<'_>, first: CType) -> Result<CTypes, CReadFault>
    ensures reads { Reads (λ x. x) (spec.more_types first cursor.old) result cursor.new }
    ensures kept { length cursor.new ≤ length cursor.old }
{
    let mut types = CTypes::new(alloc);
    types.push(first)?;
    'more: while is_comma(cursor.peek()) {
        let ctype = next_type(cursor)?;
        types.push(ctype)?;
    }
    Ok(types)
}

/// Types with commas between.
#[tactic(auto, unfolding(crate::specs::Types::types))]
pub fn types(alloc: Global, cursor: &mut Cursor<'_>) -> Result<CTypes, CReadFault>
    ensures reads { Reads (λ x. x) (spec.types cursor.old) result cursor.new }
    ensures kept { length cursor.new ≤ length cursor.old }
{
    let first = ctype(cursor)?;
    more_types(alloc, cursor, first)
}
