// What rules ask of an item alone, or of a statement alone: reserved names (C11, 7.1.3), types
// (6.2.5, 6.7.6.2, 6.7.6.3), first values (6.7.9) and ends (6.9.1).
ghost use Rattle.std.specs.Prelude.{◌≡◌, ◌&&◌, nat_le, length, true, false, bytes_eq, codes};
ghost use Rattle.std.specs.List.{list_all};
ghost use Rattle.c_tree.specs.View.{item_of, stmt_of, maybe_body_of, callee_of};
ghost use Rattle.c_tree.specs.Rules.{is_own_name, file_name_is_free, is_value_type, is_result_type, proper_params, proper_types, locals_have_values, types_are_proper, written_type_is_proper, number_suits, locals_suit, first_values_suit, body_is_not_empty, ends_body, if_any, label_is_free};
ghost use Rattle.c_tree.specs.Tree as tree;
ghost use Rattle.c_check.specs.Places.{alone, stmt_alone};

use c_tree::{Body, CType, Callee, Func, Item, Name, Num, Primitive, Stmt, is_own_name, is_symbol};
use c_types::{Typed, is_result_type, is_value_type, is_void, proper_types};

/// Whether the name of an item is not reserved for something else.
pub fn file_name_is_free(item: &Item) -> bool
    ensures { result ≡ file_name_is_free (item_of item.now) }
{
    match item {
        Item::Array(name, _, _) | Item::Var(_, name, _) => is_own_name(name.as_slice()),
        Item::Func(f) => {
            if f.is_static {
                is_own_name(f.name.as_slice())
            } else {
                is_symbol(f.name.as_slice())
            }
        }
    }
}

fn have_value_types<T: Typed>(all: &[T]) -> bool
    ensures { result ≡ list_all (λ t. is_value_type (T.its_type t)) all.now }
{
    for one in all {
        if !is_value_type(one.ctype()) {
            return false;
        }
    }
    true
}

/// Parameters, without the one that stands for none.
pub fn proper_params(params: &[(CType, Option<Name>)]) -> &[(CType, Option<Name>)]
    ensures { result.now ≡ proper_params params.now }
{
    if params.len() == 1 && is_void(params[0].0) && params[0].1.is_none() {
        return &params[1..];
    }
    params
}

#[tactic(auto, using(c_tree::proofs::Tested::list_all_map))]
fn locals_have_values(body: &Option<Body>) -> bool
    ensures { result ≡ locals_have_values (maybe_body_of body.now) }
{
    match body {
        Some(body) => have_local_values(body.locals.as_slice()),
        None => true,
    }
}

fn have_local_values(locals: &[(CType, Name, Num)]) -> bool
    ensures { result ≡ list_all (λ l. is_value_type l.0) locals.now }
{
    for local in locals {
        if !is_value_type(local.0) {
            return false;
        }
    }
    true
}

/// Whether the types of what an item declares are proper.
pub fn types_are_proper(item: &Item) -> bool
    ensures { result ≡ types_are_proper (alone item.now) }
{
    match item {
        Item::Array(_, count, bytes) => 1 <= *count && *count == bytes.len() as u64,
        Item::Var(t, _, _) => !is_void(*t),
        Item::Func(f) => {
            is_result_type(f.result)
                && have_value_types(proper_params(f.params.as_slice()))
                && locals_have_values(&f.body)
        }
    }
}

/// Whether the type that a call through a name writes is proper.
pub fn written_type_is_proper(stmt: &Stmt) -> bool
    ensures { result ≡ written_type_is_proper (stmt_alone stmt.now) }
{
    match stmt {
        Stmt::Call(_, callee, _) => callee_is_proper(callee),
        _ => true,
    }
}

#[tactic(auto, using(c_tree::proofs::Tested::list_all_map))]
fn callee_is_proper(callee: &Callee) -> bool
    ensures { result ≡ elim (callee_of callee.now) [ tree.Called name ↦ true | tree.Through t name ↦ is_result_type t.result && list_all is_value_type (proper_types t.params) ] }
{
    match callee {
        Callee::Named(_) => true,
        Callee::Through(t, _) => {
            is_result_type(t.result) && have_value_types(proper_types(t.params.as_slice()))
        }
    }
}

/// Whether a number is a first value of a type.
pub fn number_suits(t: CType, number: Num) -> bool
    ensures { result ≡ number_suits t number }
{
    match t {
        CType::U32 => match number {
            Num::N32(_) => true,
            Num::N64(_) | Num::Plain(_) => false,
        },
        CType::U64 => match number {
            Num::N64(_) => true,
            Num::N32(_) | Num::Plain(_) => false,
        },
        CType::PtrU32 | CType::PtrU64 | CType::PtrMem | CType::PtrTab | CType::FnPtr => {
            match number {
                Num::Plain(n) => n == 0,
                Num::N32(_) | Num::N64(_) => false,
            }
        }
        CType::Void | CType::Mem | CType::Tab => false,
    }
}

fn locals_suit(body: &Option<Body>) -> bool
    ensures { result ≡ locals_suit (maybe_body_of body.now) }
{
    match body {
        Some(body) => each_local_suits(body.locals.as_slice()),
        None => true,
    }
}

fn each_local_suits(locals: &[(CType, Name, Num)]) -> bool
    ensures { result ≡ list_all (λ l. number_suits l.0 l.2) locals.now }
{
    for local in locals {
        if !number_suits(local.0, local.2) {
            return false;
        }
    }
    true
}

/// Whether the first values of what an item declares suit their types.
pub fn first_values_suit(item: &Item) -> bool
    ensures { result ≡ first_values_suit (alone item.now) }
{
    match item {
        Item::Array(_, _, _) => true,
        Item::Var(t, _, number) => match number {
            Some(number) => number_suits(*t, *number),
            None => true,
        },
        Item::Func(f) => locals_suit(&f.body),
    }
}

/// Whether an item has a statement where it has a body.
pub fn body_is_not_empty(item: &Item) -> bool
    ensures { result ≡ body_is_not_empty (alone item.now) }
{
    match item {
        Item::Func(f) => has_statement(&f.body),
        Item::Array(_, _, _) | Item::Var(_, _, _) => true,
    }
}

fn has_statement(body: &Option<Body>) -> bool
    ensures { result ≡ if_any (maybe_body_of body.now) (λ b. nat_le 1 (length b.stmts)) }
{
    match body {
        Some(body) => 1 <= body.stmts.len(),
        None => true,
    }
}

/// Whether a body may end with a statement.
pub fn ends_body(stmt: &Stmt) -> bool
    ensures { result ≡ ends_body (stmt_of stmt.now) }
{
    match stmt {
        Stmt::Goto(_) | Stmt::Switch(_, _, _) | Stmt::ReturnNone | Stmt::Return(_) => true,
        Stmt::Call(_, callee, _) => is_trap(callee),
        _ => false,
    }
}

fn is_trap(callee: &Callee) -> bool
    ensures { result ≡ elim (callee_of callee.now) [ tree.Called name ↦ bytes_eq name (codes "w2c_trap") | tree.Through t name ↦ false ] }
{
    match callee {
        Callee::Named(name) => name.as_slice() == Primitive::Trap.name(),
        Callee::Through(_, _) => false,
    }
}

/// Whether the label that a statement is has a name of the unit's own.
#[tactic(auto, using(crate::proofs::Labels::free_by_label))]
pub fn label_is_free(stmt: &Stmt) -> bool
    ensures { result ≡ label_is_free (stmt_alone stmt.now) }
{
    match stmt.label() {
        Some(name) => is_own_name(name),
        None => true,
    }
}
