// Hosts that reply again what a journal says, one for each of its modules.
ghost use Rattle.std.specs.Prelude.{◌≡◌, true, slice_get, IfOk, IfSome, OnOk};
ghost use Rattle.host_replay.specs.Giving.{IsGiven};
ghost use Rattle.host_replay.specs.Recording.{recorded};
ghost use Rattle.host_replay.specs.Replayed.{AreReplays};
ghost use Rattle.host_replay.specs.Replaying.{fits_own};

use crate::entry::copy;
use crate::file::JournalFile;
use crate::replay::ReplayHost;
use c_hosts::Asked;
use std::alloc::Global;
use w2c_base::Memory;

/// A host for each module of a journal, in order, with its calls, of which none is used up.
pub fn replay_hosts(alloc: Global, file: &JournalFile) -> Result<Vec<ReplayHost>, Memory>
    ensures { IfOk result (λ hosts. AreReplays (recorded file.now) hosts.items) }
{
    let mut hosts = Vec::new(alloc);
    for module in file.modules.as_slice() {
        hosts.push(ReplayHost::of_module(alloc, module)?)?;
    }
    for entry in file.entries.as_slice() {
        give(alloc, &mut hosts, entry)?;
    }
    Ok(hosts)
}

// Gives a call to the host of its module.
fn give(alloc: Global, hosts: &mut Vec<ReplayHost>, entry: &Asked) -> Result<(), Memory>
    requires { IfSome (slice_get hosts.old.items entry.now.host) (λ h. fits_own h.functions.items entry.now ≡ true) }
    ensures { OnOk result (IsGiven hosts.old.items entry.now hosts.new.items) }
{
    if entry.host < hosts.len() {
        hosts[entry.host].push(copy(alloc, entry)?)?;
    }
    Ok(())
}
