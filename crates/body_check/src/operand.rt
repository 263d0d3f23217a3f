// An operand of the checker, whose type may be unknown (WebAssembly Core 1.0, appendix 7.3.1).
ghost use Rattle.body_check.specs.Checker.{common};
ghost use Rattle.body_check.specs.Unifies.{Unifies};

use crate::stop::Stop;
use w2c_base::ValType;

/// An operand: of a type, or in dead code of any.
#[derive(Clone, Copy)]
pub(crate) enum Operand {
    Known(ValType),
    Unknown,
}

// What two operands have in common.
pub(crate) fn unify(first: Operand, second: Operand) -> Result<Operand, Stop>
    ensures { Unifies result (common first second) }
{
    match (first, second) {
        (Operand::Unknown, _) => Ok(second),
        (Operand::Known(_), Operand::Unknown) => Ok(first),
        (Operand::Known(ty), Operand::Known(other)) => {
            if ty == other {
                Ok(first)
            } else {
                Err(Stop::MISMATCH)
            }
        }
    }
}
