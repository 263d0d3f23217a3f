// How a program ends: with a line on the error stream, and a status.
ghost use Rattle.std.specs.Prelude.{◌≡◌, ◌⊎◌, ℕ, List, IfOk, IsErr};
ghost use Rattle.std.specs.Process.{exit_status};
ghost use Rattle.w2c_io.specs.Telling.{Says, SaysPart};

use crate::line::put_line;
use std::process::ExitCode;
use w2c_base::{Bytes, Memory};
use w2c_io::{Sink, WriteAnswer};

/// Says a line on the error stream, and gives the status that goes with it. A line that is not written whole leaves the
/// status; where memory is wanting for it, that is 5.
pub fn say<E: Sink>(line: Result<Bytes, Memory>, status: u8, err: &mut E) -> u8
    ensures status { (result ≡ status) ⊎ (result ≡ 5) }
    ensures says { (text : List ℕ) → IfOk line (λ bytes. bytes ≡ text)
        → Says (E.told err.old) (E.told err.new) (E.faults err.old) (E.faults err.new) text ⊎ (result ≡ 5) }
    ensures part { (text : List ℕ) → IfOk line (λ bytes. bytes ≡ text) → SaysPart (E.told err.old) (E.told err.new) text }
{
    match put_line(line, err) {
        Ok(()) | Err(WriteAnswer::Failed) => status,
        Err(WriteAnswer::Memory) => 5,
    }
}

/// The exit code of a status. Where there is none since memory was wanting for the words, it is that of 5.
pub fn exit_code(status: Result<u8, Memory>) -> ExitCode
    ensures status { IfOk status (λ code. exit_status result ≡ code) }
    ensures want { IsErr status → exit_status result ≡ 5 }
{
    match status {
        Ok(status) => ExitCode::from(status),
        Err(Memory) => ExitCode::from(5),
    }
}
