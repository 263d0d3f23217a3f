// Whether assignments, calls and results have the declared types (C11, 6.5.2.2, 6.5.16.1,
// 6.8.6.4).
ghost use Rattle.std.specs.Prelude.{◌≡◌, ◌&&◌, map, Some, None, option_map, false};
ghost use Rattle.w2c_base.specs.Lookup.{if_found};
ghost use Rattle.c_tree.specs.View.{expr_of, arg_of, callee_of};
ghost use Rattle.c_tree.specs.Scope.{pointer_to, type_of};
ghost use Rattle.c_tree.specs.Rules.{if_any, has_same_type, arg_suits, args_suit, callee_type, target_suits, call_suits, proper_types};
ghost use Rattle.c_tree.specs.Runtime.{same_type};
ghost use Rattle.c_tree.specs.declared.tree.CType.{CType};
ghost use Rattle.c_scope.specs.ScopeOf.{scope_of};
ghost use Rattle.c_scope.specs.Signatures.{signature_type};

use crate::ctype::{Typed, is_void, pointer_to, proper_types};
use crate::typing::type_of;
use c_rules::same_type;
use c_scope::{Scope, Signature};
use c_tree::{Arg, CType, Callee, Expr, Name};

/// Whether a type is the one that is found. Nothing is asked where none is found.
fn has_same_type(found: Option<CType>, t: CType) -> bool
    ensures { result ≡ has_same_type found t }
{
    match found {
        Some(u) => same_type(t, u),
        None => true,
    }
}

/// Whether an argument has the type that is declared for it.
pub fn arg_suits(s: &Scope, t: CType, arg: &Arg) -> bool
    ensures { result ≡ arg_suits (scope_of s.now) t (arg_of arg.now) }
{
    match arg {
        Arg::Value(e) => has_same_type(type_of(s, e), t),
        Arg::Address(name) => is_pointer(pointer(s.file_variable(name.as_slice())), t),
        Arg::Function(name) => {
            s.has_file_function(name.as_slice()) && same_type(t, CType::FnPtr)
        }
    }
}

fn pointer(found: Option<CType>) -> Option<CType>
    ensures { result ≡ if_found found pointer_to }
{
    match found {
        Some(t) => pointer_to(t),
        None => None,
    }
}

fn is_pointer(pointer: Option<CType>, t: CType) -> bool
    ensures some { (u : CType) → pointer ≡ Some u → result ≡ same_type t u }
    ensures none { pointer ≡ None → result ≡ false }
{
    match pointer {
        Some(u) => same_type(t, u),
        None => false,
    }
}

fn args_suit<T: Typed>(s: &Scope, types: &[T], args: &[Arg]) -> bool
    ensures { result ≡ args_suit (scope_of s.now) (map T.its_type types.now) (map arg_of args.now) }
{
    if types.len() != args.len() {
        return false;
    }
    for (i, arg) in args.iter().enumerate() {
        if !arg_suits(s, types[i].ctype(), arg) {
            return false;
        }
    }
    true
}

fn signature_suits(s: &Scope, signature: Signature, args: &[Arg]) -> bool
    ensures { result ≡ args_suit (scope_of s.now) (proper_types (signature_type signature.entry).params) (map arg_of args.now) }
{
    match signature {
        Signature::Declared(f) => args_suit(s, proper_types(f.params.as_slice()), args),
        Signature::Runtime(p) => args_suit(s, proper_types(p.param_types()), args),
        Signature::Written(t) => args_suit(s, proper_types(t.params.as_slice()), args),
    }
}

fn result_of(signature: Signature) -> CType
    ensures { result ≡ (signature_type signature.entry).result }
{
    match signature {
        Signature::Declared(f) => f.result,
        Signature::Runtime(p) => p.result_type(),
        Signature::Written(t) => t.result,
    }
}

fn callee_type<'s>(s: &Scope<'s, '_>, callee: &'s Callee) -> Option<Signature<'s>>
    ensures { option_map signature_type result ≡ callee_type (scope_of s.now) (callee_of callee.now) }
{
    match callee {
        Callee::Named(name) => s.function(name.as_slice()),
        Callee::Through(t, _) => Some(Signature::Written(t)),
    }
}

fn target_suits(s: &Scope, given: CType, target: &Option<Name>) -> bool
    ensures { result ≡ target_suits (scope_of s.now) given target.now }
{
    match target {
        Some(name) => !is_void(given) && has_same_type(s.variable(name.as_slice()), given),
        None => true,
    }
}

pub fn call_suits(s: &Scope, target: &Option<Name>, callee: &Callee, args: &[Arg]) -> bool
    ensures { result ≡ if_any (callee_type (scope_of s.now) (callee_of callee.now)) (call_suits (scope_of s.now) target.now (map arg_of args.now)) }
{
    match callee_type(s, callee) {
        Some(signature) => {
            signature_suits(s, signature, args) && target_suits(s, result_of(signature), target)
        }
        None => true,
    }
}

pub fn assignment_suits(s: &Scope, found: Option<CType>, arg: &Arg) -> bool
    ensures { result ≡ if_any found (λ t. arg_suits (scope_of s.now) t (arg_of arg.now)) }
{
    match found {
        Some(t) => arg_suits(s, t, arg),
        None => true,
    }
}

pub fn pointed_suits(s: &Scope, found: Option<CType>, e: &Expr) -> bool
    ensures { result ≡ if_any found (has_same_type (type_of (scope_of s.now) (expr_of e.now))) }
{
    match found {
        Some(t) => has_same_type(type_of(s, e), t),
        None => true,
    }
}
