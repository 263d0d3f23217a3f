// What a run of an init function or a call came to.
ghost use Rattle.std.specs.Prelude.{◌≡◌};
ghost use Rattle.crun.specs.declared.outcome.Stop.TheVariants as stops;

use c_meaning::UndefinedAt;
use w2c_base::{Memory, TrapKind, Value};

/// How a run ended, or that it did not.
#[derive(Clone, Copy, Debug, PartialEq, Eq)]
pub enum Outcome {
    /// It ended with the value of the call, where it has one.
    Ended(Option<Value>),
    Trapped(TrapKind),
    Undefined(UndefinedAt),
    /// The session's steps are spent.
    OutOfSteps,
}

/// Why a session is over: the first outcome that was no end, or want of memory.
#[derive(Clone, Copy, Debug, PartialEq, Eq)]
pub enum Kept {
    Trapped(TrapKind),
    Undefined(UndefinedAt),
    OutOfSteps,
    Memory,
}

/// Why a call was not run, or was left.
#[derive(Clone, Copy, Debug, PartialEq, Eq)]
pub enum Stop {
    /// The session was over before.
    Over(Kept),
    Memory,
}

impl From<Memory> for Stop {
    ghost from_gives = { λ _ stop. stop ≡ stops.Memory };

    fn from(_: Memory) -> Self {
        Stop::Memory
    }
}

/// Where a session stands, and why it is over.
#[derive(Clone, Copy, Debug, PartialEq, Eq)]
pub enum Standing {
    Fresh,
    Ready,
    Over(Kept),
}

/// Where a session stands.
#[derive(Clone, Copy, Debug, PartialEq, Eq)]
pub enum Phase {
    /// No init function was run.
    Fresh,
    /// Every outcome so far was an end.
    Ready,
    Over,
}
