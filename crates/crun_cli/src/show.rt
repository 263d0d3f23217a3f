// Writes the state of a session.
ghost use Rattle.c_hosts.specs.Asking.{hosts_of};
ghost use Rattle.crun.specs.Sessions.{objects_of};
ghost use Rattle.crun_lines.specs.StateLines.{state_lines};
ghost use Rattle.crun_cli.specs.Playing.{IsStored};
ghost use Rattle.program_words.specs.Writing.{Writes};

use c_hosts::HostModule;
use crun::Session;
use crun_state::show_state;
use std::alloc::Global;
use w2c_io::{Sink, WriteAnswer};

/// Writes the lines of the state: unit by unit the variables that hold numbers, then the memories, then the tables.
pub fn show<H: HostModule, O: Sink>(
    alloc: Global,
    session: &Session<H>,
    out: &mut O,
) -> Result<(), WriteAnswer>
    requires stored { IsStored session.now }
    ensures { Writes (O.told out.old) (O.told out.new) (O.faults out.old) (O.faults out.new)
        (state_lines (hosts_of H.HostModule session.now.hosts) (objects_of session.now)) result }
{
    let (hosts, objects) = session.hosts_and_objects();
    show_state(alloc, session.linked().units(), hosts, objects, out)
}
