// The lines of what a session has run: the asks of its journal, and an outcome.
ghost use Rattle.std.specs.Prelude.{◌≡◌, ◌≤◌, drop, length};
ghost use Rattle.w2c_base.specs.Run.{Call};
ghost use Rattle.c_hosts.specs.Asking.{hosts_of};
ghost use Rattle.crun_lines.specs.Views.{phase_of, IsCounted};
ghost use Rattle.crun_cli.specs.Views.{asked_line, asks_lines, end_line, lines_behind, outcome_line, status_of_outcome};
ghost use Rattle.program_words.specs.Writing.{Writes};

use c_hosts::{Asked, HostModule};
use crun::{Outcome, Session};
use crun_lines::{Phase, Stop, ended_line, host_line, last_line};
use crun_state::{function_name, host_name};
use program_words::put_line;
use std::alloc::Global;
use w2c_base::Value;
use w2c_io::{Sink, WriteAnswer};

/// Writes the lines of the asks that the journal has from a place on, and then that of the outcome.
pub fn tell<H: HostModule, O: Sink>(
    alloc: Global,
    session: &Session<H>,
    from: usize,
    phase: Phase,
    outcome: Outcome,
    out: &mut O,
) -> Result<(), WriteAnswer>
    requires from { from ≤ length session.now.journal }
    requires counted { IsCounted phase }
    ensures { Writes (O.told out.old) (O.told out.new) (O.faults out.old) (O.faults out.new)
        (lines_behind (hosts_of H.HostModule session.now.hosts) (drop from session.now.journal) (phase_of phase) outcome) result }
{
    match tell_journal(alloc, session, from, out) {
        Ok(()) => match tell_outcome(alloc, phase, outcome, out) {
            Ok(()) => Ok(()),
            Err(answer) => Err(answer),
        },
        Err(answer) => Err(answer),
    }
}

/// The status of an outcome that is no end.
pub fn status(outcome: Outcome) -> Option<u8>
    ensures { result ≡ status_of_outcome outcome }
{
    match outcome {
        Outcome::Ended(_) => None,
        Outcome::Trapped(_) => Some(1),
        Outcome::Undefined(_) => Some(8),
        Outcome::OutOfSteps => Some(7),
    }
}

// The lines of the asks that the journal has from a place on.
fn tell_journal<H: HostModule, O: Sink>(
    alloc: Global,
    session: &Session<H>,
    from: usize,
    out: &mut O,
) -> Result<(), WriteAnswer>
    requires from { from ≤ length session.now.journal }
    ensures { Writes (O.told out.old) (O.told out.new) (O.faults out.old) (O.faults out.new)
        (asks_lines (hosts_of H.HostModule session.now.hosts) (drop from session.now.journal)) result }
{
    let (hosts, _) = session.hosts_and_objects();
    let asks = session.journal().as_slice();
    tell_asks(alloc, hosts, &asks[from..], out)
}

fn tell_asks<H: HostModule, O: Sink>(
    alloc: Global,
    hosts: &[H],
    asks: &[Asked],
    out: &mut O,
) -> Result<(), WriteAnswer>
    ensures { Writes (O.told out.old) (O.told out.new) (O.faults out.old) (O.faults out.new)
        (asks_lines (hosts_of H.HostModule hosts.now) asks.now) result }
{
    for ask in asks {
        match tell_ask(alloc, hosts, ask, out) {
            Ok(()) => {}
            Err(answer) => return Err(answer),
        }
    }
    Ok(())
}

fn tell_ask<H: HostModule, O: Sink>(
    alloc: Global,
    hosts: &[H],
    ask: &Asked,
    out: &mut O,
) -> Result<(), WriteAnswer>
    ensures { Writes (O.told out.old) (O.told out.new) (O.faults out.old) (O.faults out.new)
        (asked_line (hosts_of H.HostModule hosts.now) ask.now) result }
{
    let host = host_name(hosts, ask.host);
    let function = function_name(hosts, ask.host, ask.function);
    let line = host_line(alloc, host, function, ask.args.as_slice(), ask.reply);
    put_line(line, out)
}

fn tell_outcome<O: Sink>(
    alloc: Global,
    phase: Phase,
    outcome: Outcome,
    out: &mut O,
) -> Result<(), WriteAnswer>
    requires counted { IsCounted phase }
    ensures { Writes (O.told out.old) (O.told out.new) (O.faults out.old) (O.faults out.new) (outcome_line (phase_of phase) outcome) result }
{
    match outcome {
        Outcome::Ended(value) => tell_end(alloc, phase, value, out),
        Outcome::Trapped(kind) => put_line(last_line(alloc, phase, Stop::Trapped(kind)), out),
        Outcome::Undefined(at) => put_line(last_line(alloc, phase, Stop::Undefined(at)), out),
        Outcome::OutOfSteps => put_line(last_line(alloc, phase, Stop::OutOfSteps), out),
    }
}

// The line of a call that ended; an init function has none.
fn tell_end<O: Sink>(
    alloc: Global,
    phase: Phase,
    value: Option<Value>,
    out: &mut O,
) -> Result<(), WriteAnswer>
    requires counted { IsCounted phase }
    ensures { Writes (O.told out.old) (O.told out.new) (O.faults out.old) (O.faults out.new) (end_line (phase_of phase) value) result }
{
    match phase {
        Phase::Call(call) => put_line(ended_line(alloc, call, value), out),
        Phase::Init(_) => Ok(()),
    }
}
