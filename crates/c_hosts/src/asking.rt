// Hosts that are asked.
ghost use Rattle.std.specs.Prelude.{◌≡◌, ◌∷◌, ◌++◌, [], MatchOption, OnErr, IfOk, true, false};
ghost use Rattle.w2c_base.specs.Values.{equal_types, types_of};
ghost use Rattle.c_hosts.specs.declared.host.HostFunction.{HostFunction as Function};
ghost use Rattle.c_hosts.specs.Asking.{Answers, IsOffered};
ghost use Rattle.c_hosts.specs.Hosts.{IsReply};
ghost use Rattle.c_hosts.specs.Journals.{asked};

use crate::host::{HostFunction, HostModule};
use crate::journal::Journal;
use c_meaning::HostReply;
use c_thread::HostCall;
use w2c_base::{Memory, Value, are_of_types};

/// Hosts in order, and what they were asked and replied.
#[derive(Drop)]
pub struct Hosts<H: HostModule> {
    pub list: Vec<H>,
    pub journal: Journal,
}

impl<H: HostModule> Hosts<H> {
    /// Calls a host's function, and writes down what it replied: the room for that is taken first. None where no host
    /// has the function, or it takes arguments of other types: then no host is called.
    pub fn ask(&mut self, call: HostCall) -> Result<Option<HostReply>, Memory>
        ensures asked { IfOk result (λ r. MatchOption r
            (((f : Function) → IsOffered H.HostModule self.old.list.items call f → ⊥) × (self.new ≡ self.old))
            (λ reply. (f : Function) × IsOffered H.HostModule self.old.list.items call f × IsReply f reply
            × Answers H.HostModule self.old.list.items (asked call reply) self.new.list.items
            × (self.new.journal ≡ self.old.journal ++ asked call reply ∷ []))) }
        ensures wanting { OnErr result (self.new ≡ self.old) }
    {
        if !self.offers(&call) {
            return Ok(None);
        }
        let host = call.host;
        let function = call.function;
        self.journal.open(call)?;
        let reply = self.list[host].call(function, self.journal.last_args());
        self.journal.put_reply(reply);
        Ok(Some(reply))
    }

    // Whether a host has the function, and it takes arguments of these types.
    fn offers(&self, call: &HostCall) -> bool
        ensures yes { result ≡ true → (f : Function) × IsOffered H.HostModule self.now.list.items call.now f }
        ensures no { result ≡ false → (f : Function) → IsOffered H.HostModule self.now.list.items call.now f → ⊥ }
    {
        let Some(host) = self.list.get(call.host) else {
            return false;
        };
        if call.function >= host.count() {
            return false;
        }
        takes(host.function(call.function), call.args.as_slice())
    }
}

fn takes(function: &HostFunction, args: &[Value]) -> bool
    ensures { result ≡ equal_types function.now.ty.params (types_of args.now) }
{
    are_of_types(function.ty.params.as_slice(), args)
}
