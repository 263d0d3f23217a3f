// Why the work stops at a file.
ghost use Rattle.std.specs.Prelude.{◌≡◌};
ghost use Rattle.wast_script.specs.Seen.{reason_of};
ghost use Rattle.wast_run.specs.Stopping.{fault_reason, IsUnreadStop};

use std::alloc::Global;
use wast_script::{ScriptFault, Stop};

/// The stop at a file that is not read. It has the file's name, unless memory is wanting for that.
pub(crate) fn unread(alloc: Global, name: &str) -> Stop
    ensures { IsUnreadStop name.now (reason_of result) }
{
    match String::from_str(alloc, name) {
        Ok(name) => Stop::Unread(name),
        Err(_) => Stop::Memory,
    }
}

/// The stop at a script that is refused, or for which memory is wanting.
pub(crate) fn refused(fault: ScriptFault) -> Stop
    ensures { reason_of result ≡ fault_reason fault }
{
    match fault {
        ScriptFault::TooLong => Stop::Refused(ScriptFault::TooLong),
        ScriptFault::NotJson => Stop::Refused(ScriptFault::NotJson),
        ScriptFault::NoCommands => Stop::Refused(ScriptFault::NoCommands),
        ScriptFault::Command(number) => Stop::Refused(ScriptFault::Command(number)),
        ScriptFault::Memory => Stop::Memory,
    }
}
