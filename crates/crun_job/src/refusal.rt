// Why texts are not those of linked units, and lines not those of calls.
ghost use Rattle.std.specs.Prelude.{◌≡◌};

use crate::stop::Cause;
use std::alloc::AllocFailed;
use w2c_base::Memory;

/// Why texts are not those of units that link.
#[derive(Drop)]
pub enum UnitsRefusal {
    /// The unit with this number, counted from 0, is refused.
    Unit(usize, Cause),
    Memory,
}

impl<T: Drop> From<AllocFailed<T>> for UnitsRefusal {
    ghost use Rattle.crun_job.specs.declared.refusal.UnitsRefusal.TheVariants as refusal;

    ghost from_gives = { λ _ e. e ≡ refusal.Memory };

    fn from(_: AllocFailed<T>) -> Self {
        UnitsRefusal::Memory
    }
}

/// Why the lines of a calls file name no calls.
#[derive(Clone, Copy, Debug, Drop, PartialEq, Eq)]
pub enum CallsRefusal {
    /// The line with this number, counted from 1, names no call.
    Line(usize),
    Memory,
}

/// Want of memory, as whatever it comes.
impl<E: Into<Memory> + Drop> From<E> for CallsRefusal {
    ghost use Rattle.crun_job.specs.declared.refusal.CallsRefusal.TheVariants as refusal;

    ghost from_gives = { λ _ e. e ≡ refusal.Memory };

    fn from(_: E) -> Self {
        CallsRefusal::Memory
    }
}
