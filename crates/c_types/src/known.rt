// Whether names are declared earlier, and of the kind that their places need (C11, 6.5.1, 6.5.2.1,
// 6.5.2.2).
ghost use Rattle.std.specs.Prelude.{◌≡◌, map, is_some, flat_map};
ghost use Rattle.std.specs.List.{list_all};
ghost use Rattle.w2c_base.specs.Lookup.{named};
ghost use Rattle.c_tree.specs.View.{expr_of, arg_of, callee_of};
ghost use Rattle.c_tree.specs.Scope.{variables, functions};
ghost use Rattle.c_tree.specs.Rules.{is_known, expr_uses, arg_uses, callee_uses, target_uses};
ghost use Rattle.c_scope.specs.ScopeOf.{scope_of};

use c_scope::Scope;
use c_tree::{Arg, Callee, Expr, Name};

pub fn is_variable(s: &Scope, name: &Name) -> bool
    ensures { result ≡ is_some (named name.now (variables (scope_of s.now))) }
{
    s.variable(name.as_slice()).is_some()
}

fn is_function(s: &Scope, name: &Name) -> bool
    ensures { result ≡ is_some (named name.now (functions (scope_of s.now))) }
{
    s.function(name.as_slice()).is_some()
}

#[tactic(auto, using(crate::proofs::Tested::all_append, crate::proofs::Tested::all_one, crate::proofs::Tested::all_first))]
pub fn is_expr_known(s: &Scope, e: &Expr) -> bool
    ensures { result ≡ list_all (is_known (scope_of s.now)) (expr_uses (expr_of e.now)) }
{
    match e {
        Expr::Name(name) | Expr::Star(name) => is_variable(s, name),
        Expr::At(name, index) => s.has_array(name.as_slice()) && is_expr_known(s, index),
        Expr::Num(_) => true,
        Expr::To32(inner) | Expr::To64(inner) => is_expr_known(s, inner),
        Expr::Op(_, left, right) => is_expr_known(s, left) && is_expr_known(s, right),
    }
}

#[tactic(auto, using(crate::proofs::Tested::all_one))]
pub fn is_arg_known(s: &Scope, arg: &Arg) -> bool
    ensures { result ≡ list_all (is_known (scope_of s.now)) (arg_uses (arg_of arg.now)) }
{
    match arg {
        Arg::Value(e) => is_expr_known(s, e),
        Arg::Address(name) => is_variable(s, name),
        Arg::Function(name) => is_function(s, name),
    }
}

#[tactic(auto, using(crate::proofs::Tested::all_of_each))]
pub fn are_args_known(s: &Scope, args: &[Arg]) -> bool
    ensures { result ≡ list_all (is_known (scope_of s.now)) (flat_map arg_uses (map arg_of args.now)) }
{
    is_each_arg_known(s, args)
}

fn is_each_arg_known(s: &Scope, args: &[Arg]) -> bool
    ensures { result ≡ list_all (λ a. list_all (is_known (scope_of s.now)) (arg_uses (arg_of a))) args.now }
{
    for arg in args {
        if !is_arg_known(s, arg) {
            return false;
        }
    }
    true
}

#[tactic(auto, using(crate::proofs::Tested::all_one))]
pub fn is_callee_known(s: &Scope, callee: &Callee) -> bool
    ensures { result ≡ list_all (is_known (scope_of s.now)) (callee_uses (callee_of callee.now)) }
{
    match callee {
        Callee::Named(name) => is_function(s, name),
        Callee::Through(_, name) => is_variable(s, name),
    }
}

#[tactic(auto, using(crate::proofs::Tested::all_one))]
pub fn is_target_known(s: &Scope, target: &Option<Name>) -> bool
    ensures { result ≡ list_all (is_known (scope_of s.now)) (target_uses target.now) }
{
    match target {
        Some(name) => is_variable(s, name),
        None => true,
    }
}
