// Whether values are the same.
ghost use Rattle.std.specs.Prelude.{◌≡◌, true, false};

use w2c_base::Value;

/// Whether two lists have the same values.
pub(crate) fn are_same(values: &[Value], others: &[Value]) -> bool
    ensures yes { result ≡ true → values.now ≡ others.now }
    ensures no { result ≡ false → values.now ≡ others.now → ⊥ }
{
    if values.len() != others.len() {
        return false;
    }
    for k in 0..values.len() {
        if !is_same(values[k], others[k]) {
            return false;
        }
    }
    true
}

fn is_same(value: Value, other: Value) -> bool
    ensures yes { result ≡ true → value ≡ other }
    ensures no { result ≡ false → value ≡ other → ⊥ }
{
    match (value, other) {
        (Value::I32(m), Value::I32(n)) => m == n,
        (Value::I64(m), Value::I64(n)) => m == n,
        (Value::I32(_), Value::I64(_)) => false,
        (Value::I64(_), Value::I32(_)) => false,
    }
}
