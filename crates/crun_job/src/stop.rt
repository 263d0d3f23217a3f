// Why the program stops before it has run.
ghost use Rattle.std.specs.Prelude.{◌≡◌};
ghost use Rattle.crun_job.specs.declared.stop.Stop.TheVariants.{Memory as WantOfMemory};
ghost use Rattle.crun_job.specs.Seen.{stop_for};

use c_tree::Wanted;
use crun_words::InputStop;
use w2c_base::{Bytes, Memory};

/// Why a unit is refused. Places are byte offsets from 0.
#[derive(Drop)]
pub enum Cause {
    /// The file has more bytes than a unit may have.
    TooLong,
    /// A token that fits nowhere, and what was wanted in its place.
    Unexpected(u64, Wanted),
    NumberTooLarge(u64),
    TooDeep(u64),
    /// The first rule of the subset that it breaks: the item from 0, in it the statement from 1, or
    /// 0 for the item itself, its parameters and its local variables, and the rule's number.
    Rule(usize, usize, u32),
    /// It declares this symbol, which nothing defines.
    Undefined(Bytes),
    /// It defines this symbol, which a host or an earlier unit defines.
    Twice(Bytes),
    /// It declares this symbol with another type than it is defined with.
    TypeDiffers(Bytes),
}

/// Why the program stops before it has run, or while it runs, with the file's name.
#[derive(Drop)]
pub enum Stop {
    /// The words have no reading.
    Usage,
    /// A file that is not read.
    Unread(String),
    /// A unit that is refused, by its file.
    Refused(String, Cause),
    CallsTooLong,
    /// A line of the calls file, counted from 1, that names no call.
    CallsLine(usize),
    JournalTooLong,
    /// The first line of the journal, counted from 1, that is refused.
    JournalLine(u32),
    /// A line of the run, or a part of a file, that is not written.
    Unwritten,
    Memory,
}

/// Want of memory, as whatever it comes.
impl<E: Into<Memory> + Drop> From<E> for Stop {
    ghost from_gives = { λ _ e. e ≡ WantOfMemory };

    fn from(_: E) -> Self {
        Stop::Memory
    }
}

/// Why the program stops where a file is not read.
pub fn stop_of(stop: InputStop) -> Stop
    ensures { result ≡ stop_for stop }
{
    match stop {
        InputStop::Unread(name) => Stop::Unread(name),
        InputStop::UnitTooLong(name) => Stop::Refused(name, Cause::TooLong),
        InputStop::CallsTooLong => Stop::CallsTooLong,
        InputStop::JournalTooLong => Stop::JournalTooLong,
        InputStop::Memory => Stop::Memory,
    }
}
