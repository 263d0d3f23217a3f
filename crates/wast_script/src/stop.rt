// Why the program stops before its report is whole.
ghost use Rattle.std.specs.Prelude.{◌≡◌};
ghost use Rattle.wast_script.specs.declared.stop.Stop.TheVariants.{Memory as WantOfMemory};

use crate::fault::ScriptFault;
use w2c_base::Memory;

/// Why the program stops, with the file's name or the script's fault.
#[derive(Drop)]
pub enum Stop {
    /// The words have no reading.
    Usage,
    /// A file that is not read.
    Unread(String),
    /// The script's file says no script.
    Refused(ScriptFault),
    /// A line of the report that is not written.
    Unwritten,
    Memory,
}

/// Want of memory, as whatever it comes.
impl<E: Into<Memory> + Drop> From<E> for Stop {
    ghost from_gives = { λ _ e. e ≡ WantOfMemory };

    fn from(_: E) -> Self {
        Stop::Memory
    }
}
