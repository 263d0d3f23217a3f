// Types by their kinds.
ghost use Rattle.std.specs.Prelude.{◌≡◌, map};
ghost use Rattle.c_tree.specs.Scope.{is_number_type, is_object_type, is_comparison, pointed_by, pointer_to};
ghost use Rattle.c_tree.specs.Rules.{is_void, is_value_type, is_result_type, proper_types};

use c_rules::same_type;
use c_tree::{COp, CType, Name};

/// What has a type, as a parameter has.
pub trait Typed {
    ghost use Rattle.c_tree.specs.declared.tree.CType.{CType};

    ghost its_type: { Self → CType };

    /// Its type.
    fn ctype(&self) -> CType
        ensures { result ≡ its_type self.now };
}

impl Typed for CType {
    ghost its_type = { λ t. t };

    fn ctype(&self) -> CType {
        *self
    }
}

impl Typed for (CType, Option<Name>) {
    ghost its_type = { λ p. p.0 };

    fn ctype(&self) -> CType {
        self.0
    }
}

/// Whether it is the type of no value.
pub fn is_void(t: CType) -> bool
    ensures { result ≡ is_void t }
{
    same_type(t, CType::Void)
}

/// Whether it is a number's.
pub fn is_number_type(t: CType) -> bool
    ensures { result ≡ is_number_type t }
{
    same_type(t, CType::U32) || same_type(t, CType::U64)
}

/// Whether it is a memory's or a table's.
pub fn is_object_type(t: CType) -> bool
    ensures { result ≡ is_object_type t }
{
    same_type(t, CType::Mem) || same_type(t, CType::Tab)
}

/// Whether a parameter or a local variable may have it.
pub fn is_value_type(t: CType) -> bool
    ensures { result ≡ is_value_type t }
{
    !is_void(t) && !is_object_type(t)
}

/// Whether a function may give it.
pub fn is_result_type(t: CType) -> bool
    ensures { result ≡ is_result_type t }
{
    !is_object_type(t)
}

/// What a pointer to a number points to.
pub fn pointed_by(t: CType) -> Option<CType>
    ensures { result ≡ pointed_by t }
{
    match t {
        CType::PtrU32 => Some(CType::U32),
        CType::PtrU64 => Some(CType::U64),
        CType::Void
        | CType::U32
        | CType::U64
        | CType::Mem
        | CType::PtrMem
        | CType::Tab
        | CType::PtrTab
        | CType::FnPtr => None,
    }
}

/// The pointer to a variable that may be pointed to.
pub fn pointer_to(t: CType) -> Option<CType>
    ensures { result ≡ pointer_to t }
{
    match t {
        CType::U32 => Some(CType::PtrU32),
        CType::U64 => Some(CType::PtrU64),
        CType::Mem => Some(CType::PtrMem),
        CType::Tab => Some(CType::PtrTab),
        CType::Void
        | CType::PtrU32
        | CType::PtrU64
        | CType::PtrMem
        | CType::PtrTab
        | CType::FnPtr => None,
    }
}

/// Whether an operator compares.
pub fn is_comparison(o: COp) -> bool
    ensures { result ≡ is_comparison o }
{
    match o {
        COp::Eq | COp::Ne | COp::Lt | COp::Le | COp::Gt | COp::Ge => true,
        COp::Add
        | COp::Sub
        | COp::Mul
        | COp::Div
        | COp::Rem
        | COp::And
        | COp::Or
        | COp::Xor
        | COp::Shl
        | COp::Shr => false,
    }
}

/// Types of parameters, without the one that stands for none.
pub fn proper_types<T: Typed>(types: &[T]) -> &[T]
    ensures { map T.its_type result.now ≡ proper_types (map T.its_type types.now) }
{
    if types.len() == 1 && is_void(types[0].ctype()) {
        return &types[1..];
    }
    types
}
