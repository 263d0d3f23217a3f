// Types of C.
ghost use Rattle.std.specs.Prelude.{◌≡◌};
ghost use Rattle.c_tree.specs.Runtime.{same_type};

use c_tree::CType;

/// Whether two types are one.
pub fn same_type(a: CType, b: CType) -> bool
    ensures { result ≡ same_type a b }
{
    a == b
}
