// The line on the error stream, and the status.
ghost use Rattle.std.specs.Prelude.{◌≡◌, ◌⊎◌, ◌++◌, IfOk, OnOk};
ghost use Rattle.w2c_io.specs.Telling.{Says, SaysPart};
ghost use Rattle.wast_script.specs.Lines.{error_line, fault_status, fault_text, reason_text, status_of};
ghost use Rattle.wast_script.specs.Seen.{reason_of};

use crate::fault::ScriptFault;
use crate::stop::Stop;
use program_words::{put_counted, say};
use std::alloc::Global;
use w2c_base::{Bytes, Memory};
use w2c_io::Sink;

/// Says why the program stops, in one line, and gives the status. A line that is not written whole
/// leaves the status; where memory is wanting for it, that is 5.
pub fn report<E: Sink>(alloc: Global, stop: &Stop, err: &mut E) -> u8
    ensures status { (result ≡ status_of (reason_of stop.now)) ⊎ (result ≡ 5) }
    ensures says { Says (E.told err.old) (E.told err.new) (E.faults err.old) (E.faults err.new) (error_line (reason_of stop.now)) ⊎ (result ≡ 5) }
    ensures part { SaysPart (E.told err.old) (E.told err.new) (error_line (reason_of stop.now)) }
{
    say(stop.line(alloc), stop.status(), err)
}

impl Stop {
    /// The program's exit status: 2 for words without a reading and for a script's fault, 3 for a file that is not read, 4 for
    /// a line of the report that is not written, 5 for want of memory.
    pub fn status(&self) -> u8
        ensures { result ≡ status_of (reason_of self.now) }
    {
        match self {
            Stop::Usage => 2,
            Stop::Refused(fault) => fault.status(),
            Stop::Unread(_) => 3,
            Stop::Unwritten => 4,
            Stop::Memory => 5,
        }
    }

    /// The one line that says it, with the newline.
    pub fn line(&self, alloc: Global) -> Result<Bytes, Memory>
        ensures { IfOk result (λ line. line ≡ error_line (reason_of self.now)) }
    {
        let mut line = Bytes::new(alloc);
        line.extend(b"wast_run: ")?;
        put_reason(&mut line, self)?;
        line.push(b'\n')?;
        Ok(line)
    }
}

impl ScriptFault {
    // The exit status that goes with it.
    fn status(&self) -> u8
        ensures { result ≡ fault_status self.now }
    {
        match self {
            ScriptFault::TooLong
            | ScriptFault::NotJson
            | ScriptFault::NoCommands
            | ScriptFault::Command(_) => 2,
            ScriptFault::Memory => 5,
        }
    }
}

fn put_reason(line: &mut Bytes, stop: &Stop) -> Result<(), Memory>
    ensures { OnOk result (line.new ≡ line.old ++ reason_text (reason_of stop.now)) }
{
    match stop {
        Stop::Usage => line.extend(b"bad command line"),
        Stop::Refused(fault) => put_fault(line, *fault),
        Stop::Unread(name) => {
            line.extend(name.as_bytes())?;
            line.extend(b": read fault")
        }
        Stop::Unwritten => line.extend(b"write fault"),
        Stop::Memory => line.extend(b"want of memory"),
    }
}

fn put_fault(line: &mut Bytes, fault: ScriptFault) -> Result<(), Memory>
    ensures { OnOk result (line.new ≡ line.old ++ fault_text fault) }
{
    match fault {
        ScriptFault::TooLong => line.extend(b"script too long"),
        ScriptFault::NotJson => line.extend(b"script is not JSON"),
        ScriptFault::NoCommands => line.extend(b"no commands"),
        ScriptFault::Command(number) => put_counted(line, b"command ", number as u64),
        ScriptFault::Memory => line.extend(b"want of memory"),
    }
}
