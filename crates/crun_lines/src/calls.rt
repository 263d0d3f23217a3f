// The lines of init functions and calls.
ghost use Rattle.std.specs.Prelude.{◌≡◌, ◌+◌, ◌<◌, ◌^◌, ◌++◌, IfOk, OnOk};
ghost use Rattle.c_meaning.specs.Views.{place_of};
ghost use Rattle.crun_lines.specs.CallLines.{ended_line, last_line, phase_text, place_text};
ghost use Rattle.crun_lines.specs.Views.{outcome_of, phase_of, stop_text, IsCounted};

use crate::words::{put_number, put_value};
use c_meaning::UndefinedAt;
use std::alloc::Global;
use w2c_base::{Bytes, Memory, TrapKind, Value};

/// What ran when a run stopped: an init function or a call, by its number from 0.
#[derive(Clone, Copy, Debug, PartialEq, Eq)]
pub enum Phase {
    Init(u64),
    Call(u64),
}

/// Why an init function or a call did not end.
#[derive(Clone, Copy, Debug, PartialEq, Eq)]
pub enum Stop {
    Trapped(TrapKind),
    Undefined(UndefinedAt),
    OutOfSteps,
}

/// The line of a call that ended, with its value if it has one. Calls count from 0.
pub fn ended_line(alloc: Global, call: u64, value: Option<Value>) -> Result<Bytes, Memory>
    requires { call + 1 < 2 ^ 64 }
    ensures { IfOk result (λ line. line ≡ ended_line call value) }
{
    let mut line = Bytes::new(alloc);
    put_phase(&mut line, Phase::Call(call))?;
    line.extend(b" = ")?;
    put_value(&mut line, value)?;
    line.extend(b"\n")?;
    Ok(line)
}

/// The line of the init function or call that did not end.
pub fn last_line(alloc: Global, phase: Phase, stop: Stop) -> Result<Bytes, Memory>
    requires { IsCounted phase }
    ensures { IfOk result (λ line. line ≡ last_line (phase_of phase) (outcome_of stop)) }
{
    let mut line = Bytes::new(alloc);
    put_phase(&mut line, phase)?;
    put_stop(&mut line, stop)?;
    Ok(line)
}

fn put_phase(line: &mut Bytes, phase: Phase) -> Result<(), Memory>
    requires { IsCounted phase }
    ensures { OnOk result (line.new ≡ line.old ++ phase_text (phase_of phase)) }
{
    match phase {
        Phase::Init(number) => {
            line.extend(b"init ")?;
            put_number(line, number + 1)
        }
        Phase::Call(number) => {
            line.extend(b"call ")?;
            put_number(line, number + 1)
        }
    }
}

fn put_stop(line: &mut Bytes, stop: Stop) -> Result<(), Memory>
    ensures { OnOk result (line.new ≡ line.old ++ stop_text stop) }
{
    match stop {
        Stop::OutOfSteps => line.extend(b" out of steps\n"),
        Stop::Trapped(kind) => {
            line.extend(b" trap ")?;
            put_number(line, u64::from(kind.code()))?;
            line.extend(b" ")?;
            line.extend(kind.text().as_bytes())?;
            line.extend(b"\n")
        }
        Stop::Undefined(at) => {
            line.extend(b" undefined ")?;
            put_number(line, u64::from(at.kind))?;
            put_place(line, at)?;
            line.extend(b"\n")
        }
    }
}

fn put_place(line: &mut Bytes, at: UndefinedAt) -> Result<(), Memory>
    ensures { OnOk result (line.new ≡ line.old ++ place_text (place_of at)) }
{
    line.extend(b" unit ")?;
    put_number(line, at.unit as u64)?;
    line.extend(b" item ")?;
    put_number(line, at.item as u64)?;
    line.extend(b" statement ")?;
    put_number(line, at.statement as u64)
}
