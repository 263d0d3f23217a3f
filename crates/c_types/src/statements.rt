// What rules ask of a statement by its parts: that its names are known, that its expressions have types, and that its assignment, call or
// result agrees.
ghost use Rattle.std.specs.Prelude.{◌≡◌};
ghost use Rattle.std.specs.List.{list_all};
ghost use Rattle.c_tree.specs.View.{stmt_of};
ghost use Rattle.c_tree.specs.Rules.{is_known, stmt_uses, stmt_is_typed, stmt_suits};
ghost use Rattle.c_scope.specs.ScopeOf.{scope_of};

use crate::agreement::{arg_suits, assignment_suits, call_suits, pointed_suits};
use crate::ctype::{is_comparison, is_void};
use crate::known::{
    are_args_known, is_arg_known, is_callee_known, is_expr_known, is_target_known, is_variable,
};
use crate::typed::{
    arg_has_type, args_have_types, has_type, may_be_assigned, may_be_called, points_to_number,
    target_may_be_assigned,
};
use crate::typing::{common_type, pointed, typing_of};
use c_scope::Scope;
use c_tree::Stmt;

/// Whether each name that a statement uses is declared earlier, and of the kind that its place
/// needs. Labels are apart.
#[tactic(auto, using(crate::proofs::Tested::all_append, crate::proofs::Tested::all_first))]
pub fn names_are_known(s: &Scope, stmt: &Stmt) -> bool
    ensures { result ≡ list_all (is_known (scope_of s.now)) (stmt_uses (stmt_of stmt.now)) }
{
    match stmt {
        Stmt::Set(name, arg) => is_variable(s, name) && is_arg_known(s, arg),
        Stmt::SetStar(name, e) => is_variable(s, name) && is_expr_known(s, e),
        Stmt::Call(target, callee, args) => {
            is_target_known(s, target)
                && is_callee_known(s, callee)
                && are_args_known(s, args.as_slice())
        }
        Stmt::If(_, left, right, _) => is_expr_known(s, left) && is_expr_known(s, right),
        Stmt::Switch(e, _, _) => is_expr_known(s, e),
        Stmt::Return(arg) => is_arg_known(s, arg),
        Stmt::Label(_) | Stmt::Null | Stmt::Goto(_) | Stmt::ReturnNone => true,
    }
}

/// Whether the expressions of a statement have types, and its other parts are of the kinds that
/// their places need.
#[tactic(auto, using(c_tree::proofs::Tested::list_all_map))]
pub fn stmt_is_typed(s: &Scope, stmt: &Stmt) -> bool
    ensures { result ≡ stmt_is_typed (scope_of s.now) (stmt_of stmt.now) }
{
    match stmt {
        Stmt::Set(name, arg) => may_be_assigned(s, name) && arg_has_type(s, arg),
        Stmt::SetStar(name, e) => points_to_number(s, name) && has_type(s, e),
        Stmt::Call(target, callee, args) => {
            target_may_be_assigned(s, target)
                && may_be_called(s, callee)
                && args_have_types(s, args.as_slice())
        }
        Stmt::If(o, left, right, _) => {
            is_comparison(*o) && common_type(typing_of(s, left), typing_of(s, right)).is_some()
        }
        Stmt::Switch(e, _, _) => has_type(s, e),
        Stmt::Return(arg) => arg_has_type(s, arg),
        Stmt::Label(_) | Stmt::Null | Stmt::Goto(_) | Stmt::ReturnNone => true,
    }
}

/// Whether a statement's assignment, call or result has the declared type.
pub fn types_agree(s: &Scope, stmt: &Stmt) -> bool
    ensures { result ≡ stmt_suits (scope_of s.now) (stmt_of stmt.now) }
{
    match stmt {
        Stmt::Set(name, arg) => assignment_suits(s, s.variable(name.as_slice()), arg),
        Stmt::SetStar(name, e) => pointed_suits(s, pointed(s.variable(name.as_slice())), e),
        Stmt::Call(target, callee, args) => call_suits(s, target, callee, args.as_slice()),
        Stmt::ReturnNone => is_void(s.func.result),
        Stmt::Return(arg) => !is_void(s.func.result) && arg_suits(s, s.func.result, arg),
        Stmt::If(_, _, _, _)
        | Stmt::Switch(_, _, _)
        | Stmt::Label(_)
        | Stmt::Null
        | Stmt::Goto(_) => true,
    }
}
