// Why a text is no script.
ghost use Rattle.std.specs.Prelude.{◌≡◌};
ghost use Rattle.wast_script.specs.declared.fault.ScriptFault.TheVariants.{Memory as WantOfMemory};

use w2c_base::Memory;

/// Why no script was read.
#[derive(Clone, Copy, Debug, PartialEq, Eq)]
pub enum ScriptFault {
    /// The text has more than 1,048,576 bytes.
    TooLong,
    /// The text is not UTF-8, or no JSON text (RFC 8259) whose arrays and objects nest at most 127 deep and whose numbers are
    /// finite.
    NotJson,
    /// It is no object whose member `commands` is an array of at most 10,000 objects.
    NoCommands,
    /// The command with this number, counted from 1, is the first that is not of its form.
    Command(usize),
    /// An allocation failed.
    Memory,
}

/// Want of memory, as whatever it comes.
impl<E: Into<Memory> + Drop> From<E> for ScriptFault {
    ghost from_gives = { λ _ e. e ≡ WantOfMemory };

    fn from(_: E) -> Self {
        ScriptFault::Memory
    }
}
