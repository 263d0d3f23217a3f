// The types of expressions (C11, 6.5).
ghost use Rattle.std.specs.Prelude.{◌≡◌, if◌then◌else◌, is_some, Some, None};
ghost use Rattle.w2c_base.specs.Lookup.{if_found};
ghost use Rattle.c_tree.specs.View.{expr_of};
ghost use Rattle.c_tree.specs.Scope.{typing_of, type_of, number_type, value_type, may_be_narrowed, name_typing, value_typing, num_typing, common_type, op_typing, typed_if, pointed_by};
ghost use Rattle.c_tree.specs.Runtime.{same_type};
ghost use Rattle.c_tree.specs.Scope as place;
ghost use Rattle.c_tree.specs.declared.tree.CType.TheVariants as type;
ghost use Rattle.c_scope.specs.ScopeOf.{scope_of};
ghost use Rattle.c_types.specs.Typings.{typing};

use crate::ctype::{is_comparison, is_number_type, is_object_type, pointed_by};
use c_rules::same_type;
use c_scope::Scope;
use c_tree::{COp, CType, Expr, Num};

/// What an expression is: a value of a type, a comparison of two numbers, an element of an array,
/// or none of these.
#[derive(Clone, Copy)]
pub enum Typing {
    HasType(CType),
    Compares,
    IsElement,
    IllTyped,
}

/// What an expression is.
pub fn typing_of(s: &Scope, e: &Expr) -> Typing
    ensures { typing result ≡ typing_of (scope_of s.now) (expr_of e.now) }
{
    match e {
        Expr::Name(name) => name_typing(s.variable(name.as_slice())),
        Expr::At(_, index) => element_typing(typing_of(s, index)),
        Expr::Num(number) => num_typing(*number),
        Expr::To32(inner) => narrowed_typing(typing_of(s, inner)),
        Expr::To64(inner) => widened_typing(typing_of(s, inner)),
        Expr::Star(name) => value_typing(pointed(s.variable(name.as_slice()))),
        Expr::Op(o, left, right) => {
            op_typing(*o, common_type(typing_of(s, left), typing_of(s, right)))
        }
    }
}

/// The type of an expression that is a value.
pub fn type_of(s: &Scope, e: &Expr) -> Option<CType>
    ensures { result ≡ type_of (scope_of s.now) (expr_of e.now) }
{
    value_type(typing_of(s, e))
}

fn value_type(t: Typing) -> Option<CType>
    ensures { result ≡ value_type (typing t) }
{
    match t {
        Typing::HasType(t) => Some(t),
        Typing::Compares | Typing::IsElement | Typing::IllTyped => None,
    }
}

fn number_type(t: Typing) -> Option<CType>
    ensures { result ≡ number_type (typing t) }
{
    match t {
        Typing::HasType(t) => { if is_number_type(t) { Some(t) } else { None } }
        Typing::Compares | Typing::IsElement | Typing::IllTyped => None,
    }
}

/// The one type of both operands, which are numbers.
pub fn common_type(left: Typing, right: Typing) -> Option<CType>
    ensures { result ≡ common_type (typing left) (typing right) }
{
    same(number_type(left), number_type(right))
}

fn same(left: Option<CType>, right: Option<CType>) -> Option<CType>
    ensures { result ≡ if_found left (λ t. if_found right (λ u. if same_type t u then Some t else None)) }
{
    match (left, right) {
        (Some(t), Some(u)) => { if same_type(t, u) { Some(t) } else { None } }
        (Some(_), None) | (None, _) => None,
    }
}

/// What a variable is by its type: memories and tables are no values.
fn name_typing(found: Option<CType>) -> Typing
    ensures { typing result ≡ name_typing found }
{
    match found {
        Some(t) => {
            if is_object_type(t) {
                Typing::IllTyped
            } else {
                Typing::HasType(t)
            }
        }
        None => Typing::IllTyped,
    }
}

fn element_typing(index: Typing) -> Typing
    ensures { typing result ≡ typed_if (is_some (number_type (typing index))) place.IsElement }
{
    if number_type(index).is_some() {
        Typing::IsElement
    } else {
        Typing::IllTyped
    }
}

fn num_typing(number: Num) -> Typing
    ensures { typing result ≡ num_typing number }
{
    match number {
        Num::N32(_) => Typing::HasType(CType::U32),
        Num::N64(_) => Typing::HasType(CType::U64),
        Num::Plain(_) => Typing::IllTyped,
    }
}

fn narrowed_typing(inner: Typing) -> Typing
    ensures { typing result ≡ typed_if (may_be_narrowed (typing inner)) (place.HasType type.U32) }
{
    match inner {
        Typing::HasType(t) => {
            if is_number_type(t) {
                Typing::HasType(CType::U32)
            } else {
                Typing::IllTyped
            }
        }
        Typing::Compares | Typing::IsElement => Typing::HasType(CType::U32),
        Typing::IllTyped => Typing::IllTyped,
    }
}

fn widened_typing(inner: Typing) -> Typing
    ensures { typing result ≡ typed_if (is_some (number_type (typing inner))) (place.HasType type.U64) }
{
    if number_type(inner).is_some() {
        Typing::HasType(CType::U64)
    } else {
        Typing::IllTyped
    }
}

/// What a variable points to, where it is a pointer to a number.
pub fn pointed(found: Option<CType>) -> Option<CType>
    ensures { result ≡ if_found found pointed_by }
{
    match found {
        Some(t) => pointed_by(t),
        None => None,
    }
}

fn value_typing(found: Option<CType>) -> Typing
    ensures { typing result ≡ value_typing found }
{
    match found {
        Some(t) => Typing::HasType(t),
        None => Typing::IllTyped,
    }
}

fn op_typing(o: COp, operands: Option<CType>) -> Typing
    ensures { typing result ≡ op_typing o operands }
{
    match operands {
        Some(t) => {
            if is_comparison(o) {
                Typing::Compares
            } else {
                Typing::HasType(t)
            }
        }
        None => Typing::IllTyped,
    }
}
