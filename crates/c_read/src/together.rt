// What was read together with what stands behind it.
ghost use Rattle.std.specs.Prelude.{◌≡◌, Ok, Err, OnOk, IfOk, IfErr};

use c_tree::CReadFault;

/// What was read with what was read behind it. Where there is a fault behind it, it is let go.
pub fn both<T: Drop, U: Drop>(read: T, behind: Result<U, CReadFault>) -> Result<(T, U), CReadFault>
    ensures read { IfOk result (λ pair. pair.0 ≡ read) }
    ensures behind { IfOk result (λ pair. behind ≡ Ok pair.1) }
    ensures fault { IfErr result (λ fault. behind ≡ Err fault) }
{
    match behind {
        Ok(value) => Ok((read, value)),
        Err(fault) => Err(fault),
    }
}

/// What was read, where a token is taken behind it. Else it is let go.
pub fn before<T: Drop>(read: T, behind: Result<(), CReadFault>) -> Result<T, CReadFault>
    ensures read { IfOk result (λ value. value ≡ read) }
    ensures behind { OnOk result (behind ≡ Ok tt) }
    ensures fault { IfErr result (λ fault. behind ≡ Err fault) }
{
    match behind {
        Ok(()) => Ok(read),
        Err(fault) => Err(fault),
    }
}
