// Hosts that reply again what a journal says.
ghost use Rattle.std.specs.Prelude.{◌≡◌, ◌<◌, true, false, length, slice_get, Some, IfNone, IfSome, OnSome};
ghost use Rattle.std.specs.List.{list_all};
ghost use Rattle.c_hosts.specs.declared.journal.Asked.{Asked as AnyAsked};
ghost use Rattle.host_replay.specs.Replaying.{fits_own};

use crate::calls::calls_of;
use crate::file::JournalFile;
use crate::module::{JournalModule, functions_copy};
use crate::values::are_same;
use c_hosts::{Asked, HostFunction, HostModule, HostReply};
use std::alloc::Global;
use w2c_base::{Bytes, Memory, Value};

/// A module of a journal as a host: while calls come as the journal has them, it gives their replies, and else traps.
#[derive(Drop)]
pub struct ReplayHost {
    name: Bytes,
    functions: Vec<HostFunction>,
    entries: Vec<Asked>,
    used: usize,
    ghost fitting: { list_all (fits_own functions.items) entries.items ≡ true },
}

impl ReplayHost {
    ghost use Rattle.std.specs.Prelude.{[], ◌∷◌, map, IfOk, OnOk};
    ghost use Rattle.c_hosts.specs.Asking.{function_of};
    ghost use Rattle.host_replay.specs.Giving.{HasMore};
    ghost use Rattle.host_replay.specs.Modules.{module_of as module_seen};
    ghost use Rattle.host_replay.specs.Recording.{recorded};
    ghost use Rattle.host_replay.specs.Replayed.{IsReplayOf};

    /// The module with this number of a journal, from 0, with its calls, of which none is used up.
    pub fn new(alloc: Global, file: &JournalFile, k: usize) -> Result<ReplayHost, Memory>
        requires { k < length (recorded file.now).hosts }
        ensures { IfOk result (IsReplayOf (recorded file.now) k) }
    {
        let module = &file.modules[k];
        let name = module.name.copy(alloc)?;
        let functions = functions_copy(alloc, module.functions.as_slice())?;
        let entries = calls_of(alloc, k, file.entries.as_slice())?;
        Ok(ReplayHost {
            name,
            functions,
            entries,
            used: 0,
        })
    }

    // A module without calls.
    pub(crate) fn of_module(alloc: Global, of: &JournalModule) -> Result<ReplayHost, Memory>
        ensures module { IfOk result (λ r. module_seen of.now ≡ record { name = r.name; functions = map function_of r.functions.items }) }
        ensures no_calls { IfOk result (λ r. r.entries.items ≡ []) }
        ensures unused { IfOk result (λ r. r.used ≡ 0) }
    {
        Ok(ReplayHost {
            name: of.name.copy(alloc)?,
            functions: functions_copy(alloc, of.functions.as_slice())?,
            entries: Vec::new(alloc),
            used: 0,
        })
    }

    // A call of the module behind its others.
    pub(crate) fn push(&mut self, entry: Asked) -> Result<(), Memory>
        requires { fits_own self.old.functions.items entry ≡ true }
        ensures { OnOk result (HasMore self.old (entry ∷ []) self.new) }
    {
        self.entries.push(entry)?;
        Ok(())
    }
}

// The reply of the call behind so many, where it is of this function with these arguments.
fn next_reply(entries: &[Asked], used: usize, i: usize, args: &[Value]) -> Option<HostReply>
    ensures some { IfSome result (λ r. (e : AnyAsked) × (slice_get entries.now used ≡ Some e)
        × (e.function ≡ i) × (e.args ≡ args.now) × (r ≡ e.reply)) }
    ensures none { IfNone result ((e : AnyAsked) → slice_get entries.now used ≡ Some e
        → e.function ≡ i → e.args ≡ args.now → ⊥) }
    ensures within { OnSome result (used < length entries.now) }
{
    let Some(entry) = entries.get(used) else {
        return None;
    };
    if is_of(entry, i, args) {
        Some(entry.reply)
    } else {
        None
    }
}

// Whether a call is of this function with these arguments.
fn is_of(entry: &Asked, i: usize, args: &[Value]) -> bool
    ensures yes { result ≡ true → (entry.now.function ≡ i) × (entry.now.args ≡ args.now) }
    ensures no { result ≡ false → entry.now.function ≡ i → entry.now.args ≡ args.now → ⊥ }
{
    if entry.function != i {
        return false;
    }
    are_same(entry.args.as_slice(), args)
}

impl HostModule for ReplayHost {
    ghost use Rattle.host_replay.specs.Replayed.{replaying};

    ghost name_of = { replaying.name_of };

    ghost functions_of = { replaying.functions_of };

    ghost state = { replaying.state };

    ghost may = { replaying.may };

    fn name(&self) -> &[u8] {
        self.name.as_slice()
    }

    fn count(&self) -> usize {
        self.functions.len()
    }

    fn function(&self, i: usize) -> &HostFunction {
        &self.functions[i]
    }

    fn call(&mut self, i: usize, args: &[Value]) -> HostReply {
        let Some(reply) = next_reply(self.entries.as_slice(), self.used, i, args) else {
            return HostReply::Trap;
        };
        self.used += 1;
        reply
    }
}
