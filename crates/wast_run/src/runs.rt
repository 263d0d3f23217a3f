// What a call of an export comes to, as the units of a set run it behind the calls that were kept.
ghost use Rattle.std.specs.Prelude.{◌≡◌};
ghost use Rattle.wast_run.specs.Ran.{came_in};
ghost use Rattle.wast_run.specs.Runs.{EnoughStepsEndRuns, RunsAreAlike};

use crate::session_runs::Ran;
use crun::Outcome;
use unit_meaning::units_do_what_modules_do;
use w2c_base::{TrapKind, Value};

/// What a run came to.
#[derive(Clone, Copy)]
pub(crate) enum Came {
    /// It ended, with the value of the last call, where it has one.
    Ended(Option<Value>),
    /// The last call trapped.
    Trapped(TrapKind),
    /// An init function trapped, or a call before the last.
    TrappedBefore,
    /// The statements are spent.
    OutOfSteps,
}

/// The law that units which are not out of steps come to what the modules come to in as many steps, and that they are not where
/// the modules are not, with n steps, and they have 400 n + 400 statements.
pub fn units_come_to_what_modules_come_to()
    ensures alike { RunsAreAlike }
    ensures enough { EnoughStepsEndRuns }
{
    units_do_what_modules_do();
    c_meaning::larger_budgets_give_the_same_run();
    wasm_meaning::larger_budgets_give_the_same_run();
}

/// What a run came to, None where the units did what is undefined.
pub(crate) fn came_of(ran: Ran) -> Option<Came>
    ensures { result ≡ came_in ran }
{
    match ran {
        Ran::Last(Outcome::Ended(value)) => Some(Came::Ended(value)),
        Ran::Last(Outcome::Trapped(kind)) => Some(Came::Trapped(kind)),
        Ran::Last(Outcome::Undefined(_)) => None,
        Ran::Last(Outcome::OutOfSteps) => Some(Came::OutOfSteps),
        Ran::Before(Outcome::Ended(_)) => None,
        Ran::Before(Outcome::Trapped(_)) => Some(Came::TrappedBefore),
        Ran::Before(Outcome::Undefined(_)) => None,
        Ran::Before(Outcome::OutOfSteps) => Some(Came::OutOfSteps),
    }
}
