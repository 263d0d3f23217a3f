// Whether the expressions in the parts of a statement have types (C11, 6.5.3.2, 6.5.4 to 6.5.14, 6.8.4.1).
ghost use Rattle.std.specs.Prelude.{◌≡◌, is_some};
ghost use Rattle.std.specs.List.{list_all};
ghost use Rattle.c_tree.specs.View.{expr_of, arg_of, callee_of};
ghost use Rattle.c_tree.specs.Rules.{if_any, has_type, arg_has_type, may_be_assigned, points_to_number, may_be_called};
ghost use Rattle.c_tree.specs.Runtime.{same_type};
ghost use Rattle.c_tree.specs.declared.tree.CType.TheVariants.{FnPtr};
ghost use Rattle.c_scope.specs.ScopeOf.{scope_of};

use crate::ctype::is_object_type;
use crate::typing::{pointed, type_of};
use c_rules::same_type;
use c_scope::Scope;
use c_tree::{Arg, CType, Callee, Expr, Name};

pub fn has_type(s: &Scope, e: &Expr) -> bool
    ensures { result ≡ has_type (scope_of s.now) (expr_of e.now) }
{
    type_of(s, e).is_some()
}

pub fn arg_has_type(s: &Scope, arg: &Arg) -> bool
    ensures { result ≡ arg_has_type (scope_of s.now) (arg_of arg.now) }
{
    match arg {
        Arg::Value(e) => has_type(s, e),
        Arg::Address(_) | Arg::Function(_) => true,
    }
}

pub fn args_have_types(s: &Scope, args: &[Arg]) -> bool
    ensures { result ≡ list_all (λ a. arg_has_type (scope_of s.now) (arg_of a)) args.now }
{
    for arg in args {
        if !arg_has_type(s, arg) {
            return false;
        }
    }
    true
}

/// Whether a name is not that of a memory or a table.
pub fn may_be_assigned(s: &Scope, name: &Name) -> bool
    ensures { result ≡ may_be_assigned (scope_of s.now) name.now }
{
    match s.variable(name.as_slice()) {
        Some(t) => !is_object_type(t),
        None => true,
    }
}

pub fn target_may_be_assigned(s: &Scope, target: &Option<Name>) -> bool
    ensures { result ≡ if_any target.now (may_be_assigned (scope_of s.now)) }
{
    match target {
        Some(name) => may_be_assigned(s, name),
        None => true,
    }
}

pub fn points_to_number(s: &Scope, name: &Name) -> bool
    ensures { result ≡ points_to_number (scope_of s.now) name.now }
{
    pointed(s.variable(name.as_slice())).is_some()
}

pub fn may_be_called(s: &Scope, callee: &Callee) -> bool
    ensures { result ≡ may_be_called (scope_of s.now) (callee_of callee.now) }
{
    match callee {
        Callee::Named(_) => true,
        Callee::Through(_, name) => is_element(s.variable(name.as_slice())),
    }
}

/// Whether what is found is an element of a table. Nothing is asked where nothing is found.
fn is_element(found: Option<CType>) -> bool
    ensures { result ≡ if_any found (λ u. same_type u FnPtr) }
{
    match found {
        Some(t) => same_type(t, CType::FnPtr),
        None => true,
    }
}
